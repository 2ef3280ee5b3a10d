//! The routes of one address family, in a trie.
ghost use Rattle.std.specs.Prelude.{◌≡◌, ◌≤◌, ◌+◌, ◌*◌, ◌/◌, ◌-◌, ◌^◌, min, IfSome, OnOk, OnErr, Some, None};
ghost use Rattle.std.specs.Option.{option_map};
ghost use Rattle.route_table.specs.Answers.{IsBestIn, route_in};
ghost use Rattle.route_table.specs.Lists.{PutsAt};

use crate::change::Hop;
use crate::route_list::RouteList;
use nl_core::NoMemory;
use std::alloc::Global;
use trie_map::{PlainPrefix, PrefixMap, PrefixSet, Steps};
use trie_sets::{ViewCalls, ViewPairs};

// Puts a route under a prefix and a priority, in place of the one that is there.
pub(crate) fn put<P: PlainPrefix>(
    alloc: Global,
    routes: &mut PrefixMap<P, RouteList>,
    prefix: P,
    priority: u32,
    hop: Hop,
) -> Result<(), NoMemory>
    requires { (P.net prefix).len ≤ P.Number.width }
    ensures put { OnOk result (PutsAt (P.net prefix) priority (Some hop) routes.old routes.new) }
    ensures unchanged { OnErr result (routes.new ≡ routes.old) }
{
    routes.in_order();
    let _number = prefix.number();
    if let Some(list) = routes.get_mut(&prefix) {
        return list.put(priority, hop);
    }
    match routes.insert(prefix, RouteList::new(alloc, priority, hop)) {
        Ok(_) => Ok(()),
        Err((refusal, _, _)) => Err(refusal),
    }
}

// Takes the route of a prefix and a priority out.
pub(crate) fn remove<P: PlainPrefix>(
    routes: &mut PrefixMap<P, RouteList>,
    prefix: &P,
    priority: u32,
)
    requires { (P.net prefix.now).len ≤ P.Number.width }
    ensures { PutsAt (P.net prefix.now) priority None routes.old routes.new }
{
    routes.in_order();
    let _number = prefix.number();
    let Some(list) = routes.get_mut(prefix) else {
        return;
    };
    if list.remove(priority) {
        routes.remove(prefix);
    }
}

// The route that answers for an address: of the routes whose prefix contains it and that lie in no blocked prefix, the one
// of the longest prefix and then of the least priority. Its two tries are walked down at once, and their nodes counted.
pub(crate) fn best_in<'a, P: PlainPrefix, L>(
    routes: &'a PrefixMap<P, RouteList>,
    blocked: &'a PrefixSet<P>,
    address: &P,
    steps: &mut Steps<L>,
) -> Option<(P, u32, Hop)>
    requires { (P.net address.now).len ≡ P.Number.width }
    ensures best { IsBestIn P.Number.width routes.now blocked.now (P.net address.now)
        (option_map (route_in P.net) result) }
    ensures plain { IfSome result (λ r. P.raw r.0 ≡ (P.net r.0).bits) }
    ensures most { steps.new ≤ steps.old + 2 * (P.Number.width / 5 + 1) }
    ensures least { min (steps.old + 2) (2 ^ 64 - 1) ≤ steps.new }
{
    routes.in_order();
    let all = routes.view_counted(steps);
    let hidden = blocked.view_counted(steps);
    let visible = all.covering_difference(hidden).unwrap();
    let (prefix, list) = visible.find_lpm_value(address, steps).unwrap()?;
    let (priority, hop) = list.first();
    Some((prefix, priority, hop))
}
