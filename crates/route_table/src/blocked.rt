//! The networks that are blocked.
ghost use Rattle.std.specs.Prelude.{◌≡◌, [], not, is_some, IfOk, OnOk, OnErr};
ghost use Rattle.trie_model.specs.Maps.{value_at};
ghost use Rattle.trie_model.specs.Nets.{IsNet};
ghost use Rattle.mirror_model.specs.Routes.{without_host_bits};
ghost use Rattle.route_table.specs.Entries.{AreNets, AddsNet, DropsNet};
ghost use Rattle.route_table.specs.Networks.{HasFit, is_listed, Adds, Drops};

use mirror_model::Network;
use nl_core::NoMemory;
use std::alloc::Global;
use std::marker::Model;
use trie_map::{PlainPrefix, PrefixSet};

/// Networks that no route answers in. Contracts see a list of networks without host bits, those of IPv4 first, each
/// family in the order of its prefixes.
#[derive(Drop)]
pub struct Blocked {
    pub(crate) v4: PrefixSet<(u32, u8)>,
    pub(crate) v6: PrefixSet<(u128, u8)>,
}

impl Model for Blocked {
    ghost use Rattle.std.specs.Prelude.{List};
    ghost use Rattle.session_model.specs.declared.network.Network.{Network};
    ghost use Rattle.route_table.specs.Networks.{networks_of};
    ghost use Rattle.route_table.specs.Entries.{AreNets};

    ghost Value = { List Network };

    ghost view = { λ b. networks_of b.v4 b.v6 };

    ghost invariant = { λ b. AreNets 32 b.v4 × AreNets 128 b.v6 };
}

impl Blocked {
    /// Nothing is blocked.
    pub fn new(alloc: Global) -> Self
        ensures { result ≡ [] }
    {
        Blocked {
            v4: PrefixSet::new(alloc),
            v6: PrefixSet::new(alloc),
        }
    }

    /// Blocks a network, whose host bits are dropped, and says whether it is new. Out of memory changes nothing.
    pub fn block(&mut self, network: Network) -> Result<bool, NoMemory>
        requires { HasFit network }
        ensures new { IfOk result (λ new. new ≡ not (is_listed (without_host_bits network) self.old)) }
        ensures added { OnOk result (Adds (without_host_bits network) self.old self.new) }
        ensures unchanged { OnErr result (self.new ≡ self.old) }
    {
        match network {
            Network::V4(prefix) => insert_into(&mut self.v4, prefix),
            Network::V6(prefix) => insert_into(&mut self.v6, prefix),
        }
    }

    /// Unblocks a network, whose host bits are dropped, and says whether it was blocked.
    pub fn unblock(&mut self, network: Network) -> bool
        requires { HasFit network }
        ensures was { result ≡ is_listed (without_host_bits network) self.old }
        ensures dropped { Drops (without_host_bits network) self.old self.new }
    {
        match network {
            Network::V4(prefix) => remove_from(&mut self.v4, &prefix),
            Network::V6(prefix) => remove_from(&mut self.v6, &prefix),
        }
    }
}

// Adds a prefix to a set, and says whether it is new.
fn insert_into<P: PlainPrefix>(set: &mut PrefixSet<P>, prefix: P) -> Result<bool, NoMemory>
    requires net { IsNet P.Number.width (P.net prefix) }
    requires nets { AreNets P.Number.width set.old }
    ensures new { IfOk result (λ new. new ≡ not (is_some (value_at set.old (P.net prefix)))) }
    ensures added { OnOk result (AddsNet (P.net prefix) set.old set.new) }
    ensures nets { AreNets P.Number.width set.new }
    ensures unchanged { OnErr result (set.new ≡ set.old) }
{
    match set.insert(prefix) {
        Ok(new) => Ok(new),
        Err((refusal, _)) => Err(refusal),
    }
}

// Takes a prefix out of a set, and says whether it was there.
fn remove_from<P: PlainPrefix>(set: &mut PrefixSet<P>, prefix: &P) -> bool
    requires net { IsNet P.Number.width (P.net prefix.now) }
    requires nets { AreNets P.Number.width set.old }
    ensures was { result ≡ is_some (value_at set.old (P.net prefix.now)) }
    ensures dropped { DropsNet (P.net prefix.now) set.old set.new }
    ensures nets { AreNets P.Number.width set.new }
{
    set.remove(prefix)
}
