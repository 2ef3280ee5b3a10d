//! A table of routes of both families.
ghost use Rattle.std.specs.Prelude.{◌≡◌, ◌≤◌, ◌+◌, ◌-◌, ◌^◌, min, OnOk, OnErr, Some};
ghost use Rattle.std.specs.FinMap.{empty};
ghost use Rattle.mirror_model.specs.Routes.{lookup, answer_of};
ghost use Rattle.route_table.specs.Networks.{IsPlain};
ghost use Rattle.route_table.specs.Changes.{hop_value};
ghost use Rattle.route_table.specs.RouteTables.{changed, key_of, most_steps};

use crate::blocked::Blocked;
use crate::change::{Hop, RouteChange};
use crate::family::{best_in, put, remove};
use crate::route_list::RouteList;
use mirror_model::{Address, Answer, Network, Route};
use nl_core::NoMemory;
use std::alloc::Global;
use std::marker::Model;
use trie_map::{PrefixMap, Steps};

/// A peer's table of routes, by network and priority: a trie of each family. Contracts see a finite map.
#[derive(Drop)]
pub struct Routes {
    alloc: Global,
    v4: PrefixMap<(u32, u8), RouteList>,
    v6: PrefixMap<(u128, u8), RouteList>,
}

impl Model for Routes {
    ghost use Rattle.mirror_model.specs.Routes.{RouteTable};
    ghost use Rattle.route_table.specs.RouteTables.{table_code, table_of};

    ghost Value = { RouteTable };

    ghost coded = { table_code };

    ghost view = { λ r. table_of r.v4 r.v6 };
}

impl Routes {
    /// The table with no route.
    pub fn new(alloc: Global) -> Self
        ensures { result ≡ empty }
    {
        Routes {
            alloc,
            v4: PrefixMap::new(alloc),
            v6: PrefixMap::new(alloc),
        }
    }

    /// Takes in a change: puts a route, in place of the one under its key, or deletes it. Its cost grows with the length of
    /// the prefix, and not with the table. Out of memory changes nothing.
    pub fn change(&mut self, change: &RouteChange) -> Result<(), NoMemory>
        requires { IsPlain change.now.network }
        ensures changed { OnOk result (self.new ≡ changed change.now self.old) }
        ensures unchanged { OnErr result (self.new ≡ self.old) }
    {
        let priority = change.priority;
        match (change.network, change.hop) {
            (Network::V4(prefix), Some(hop)) => put(
                self.alloc,
                &mut self.v4,
                prefix,
                priority,
                hop,
            )?,
            (Network::V6(prefix), Some(hop)) => put(
                self.alloc,
                &mut self.v6,
                prefix,
                priority,
                hop,
            )?,
            (Network::V4(prefix), None) => remove(&mut self.v4, &prefix, priority),
            (Network::V6(prefix), None) => remove(&mut self.v6, &prefix, priority),
        }
        Ok(())
    }

    /// The answer for an address: of the routes whose network contains it and that lie in no blocked network, the one of the
    /// longest network, and then of the least priority. It takes no memory, and counts each node that it reads: at most one
    /// of each of two tries for every five bits of the address, and their roots.
    pub fn lookup<L>(&self, address: Address, blocked: &Blocked, steps: &mut Steps<L>) -> Answer
        ensures answer { result ≡ lookup address blocked.now (Some self.now) (Some empty) }
        ensures most { steps.new ≤ steps.old + most_steps address }
        ensures least { min (steps.old + 2) (2 ^ 64 - 1) ≤ steps.new }
    {
        match address {
            Address::V4(number) => {
                self.v4.in_order();
                match best_in(&self.v4, &blocked.v4, &(number, 32), steps) {
                    Some((prefix, priority, hop)) => found(Network::V4(prefix), priority, hop),
                    None => Answer::Absent,
                }
            }
            Address::V6(number) => {
                self.v6.in_order();
                match best_in(&self.v6, &blocked.v6, &(number, 128), steps) {
                    Some((prefix, priority, hop)) => found(Network::V6(prefix), priority, hop),
                    None => Answer::Absent,
                }
            }
        }
    }
}

// A route as an answer.
fn found(network: Network, priority: u32, hop: Hop) -> Answer
    ensures { result ≡ answer_of (Some (key_of network priority, hop_value hop)) }
{
    Answer::Found(Route {
        network,
        priority,
        kind: hop.kind,
        oif: hop.oif,
        gateway: hop.gateway,
    })
}
