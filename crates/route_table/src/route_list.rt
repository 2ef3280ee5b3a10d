//! The routes of one prefix, by priority.
ghost use Rattle.std.specs.Prelude.{◌≡◌, ◌==◌, ◌≤◌, ℕ, true, false, if◌then◌else◌, OnOk, OnErr, Some, None};
ghost use Rattle.route_table.specs.declared.change.Hop.{Hop};
ghost use Rattle.route_table.specs.Lists.{hop_under};

use crate::change::Hop;
use nl_core::NoMemory;
use std::alloc::Global;
use std::collections::BTreeMap;
use std::marker::Model;

// The routes of one prefix, at least one: that of the least priority, and the others. A prefix with one
// route takes no memory beyond its entry. Contracts see the list of priorities with what they have.
#[derive(Drop)]
pub(crate) struct RouteList {
    priority: u32,
    hop: Hop,
    rest: BTreeMap<u32, Hop>,
}

impl Model for RouteList {
    ghost use Rattle.std.specs.Prelude.{◌≡◌, ◌≤◌, ◌∷◌, List, ℕ, None};
    ghost use Rattle.route_table.specs.declared.change.Hop.{Hop};
    ghost use Rattle.route_table.specs.Lists.{hop_under};

    ghost Value = { List (ℕ × Hop) };

    ghost view = { λ l. (l.priority, l.hop) ∷ l.rest.entries };

    ghost invariant = { λ l. (p : ℕ) → p ≤ l.priority → hop_under l.rest.entries p ≡ None };
}

impl RouteList {
    // One route.
    pub(crate) fn new(alloc: Global, priority: u32, hop: Hop) -> Self
        ensures { (p : ℕ) → hop_under result p ≡ (if p == priority then Some hop else None) }
    {
        RouteList {
            priority,
            hop,
            rest: BTreeMap::new(alloc),
        }
    }

    // The route of the least priority.
    pub(crate) fn first(&self) -> (u32, Hop)
        ensures there { hop_under self.now result.0 ≡ Some result.1 }
        ensures least { (p : ℕ) (hop : Hop) → hop_under self.now p ≡ Some hop → result.0 ≤ p }
    {
        (self.priority, self.hop)
    }

    // Puts a route under a priority, in place of the one that is there.
    pub(crate) fn put(&mut self, priority: u32, hop: Hop) -> Result<(), NoMemory>
        ensures put { OnOk result ((p : ℕ)
            → hop_under self.new p ≡ (if p == priority then Some hop else hop_under self.old p)) }
        ensures unchanged { OnErr result (self.new ≡ self.old) }
    {
        if priority > self.priority {
            self.rest.insert(priority, hop)?;
            return Ok(());
        }
        if priority < self.priority {
            self.rest.insert(self.priority, self.hop)?;
            self.priority = priority;
        }
        self.hop = hop;
        Ok(())
    }

    // Takes the route of a priority out. Where it is the only one, nothing changes, and the answer is true.
    pub(crate) fn remove(&mut self, priority: u32) -> bool
        ensures only { result ≡ true → (p : ℕ) → (p == priority) ≡ false → hop_under self.old p ≡ None }
        ensures removed { result ≡ false → (p : ℕ)
            → hop_under self.new p ≡ (if p == priority then None else hop_under self.old p) }
    {
        if priority != self.priority {
            self.rest.remove(&priority);
            return false;
        }
        let Some((next, hop)) = self.rest.pop_first() else {
            return true;
        };
        self.priority = next;
        self.hop = hop;
        false
    }
}
