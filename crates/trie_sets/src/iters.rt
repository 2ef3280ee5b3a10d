//! The walks over the prefixes and over the items of a view.

ghost use Rattle.std.specs.Prelude.{◌≡◌, ℕ, ◌<◌, IfNone, IfSome, IsNone, IsOk};
ghost use Rattle.std.specs.Result.{OnErr};
ghost use Rattle.trie_map.specs.Walking.{CanWalk, IsFrugalWalk, IsOver, work_left};
ghost use Rattle.trie_sets.specs.Iters.{NextItemOf, NextKeyOf};

use nl_core::NoMemory;
use std::marker::Model;
use trie_map::{PlainPrefix, TrieView, ViewIter};

/// The walk over the prefixes of a view, in the order of the prefixes. It is seen as the walk over the pairs.
#[derive(Drop)]
pub struct KeysIter<V> {
    pub(crate) walk: ViewIter<V>,
}

impl<V> Model for KeysIter<V> {
    ghost use Rattle.trie_map.specs.declared.walk.ViewIter.{ViewIter};

    ghost Value = { ViewIter V };

    ghost view = { λ iter. iter.walk };
}

impl<'a, V: TrieView<'a>> KeysIter<V> {
    /// The next prefix: that of the first pair of what is to come, or none where nothing is. After None
    /// and after a refusal the walk is over.
    pub fn next(&mut self) -> Option<Result<V::P, NoMemory>>
        requires { CanWalk V.valid V.told V.P.Number.width self.old }
        ensures usable { CanWalk V.valid V.told V.P.Number.width self.new }
        ensures frugal { IsFrugalWalk V.told self.old → IfSome result (λ r. IsOk r) }
        ensures stays { IsFrugalWalk V.told self.old → IsFrugalWalk V.told self.new }
        ensures given { NextKeyOf V.told V.item V.P.net V.P.raw V.P.Number.width self.old self.new result }
        ensures ends { IfSome result (λ r.
            work_left V.told V.P.Number.width self.new < work_left V.told V.P.Number.width self.old) }
        ensures last { IfNone result (IsOver V.told V.P.Number.width self.new) }
        ensures refused { IfSome result (λ r. OnErr r (IsOver V.told V.P.Number.width self.new)) }
        ensures over { IsOver V.told V.P.Number.width self.old → IsNone result }
    {
        match self.walk.next() {
            None => None,
            Some(Err(refusal)) => Some(Err(refusal)),
            Some(Ok((prefix, _))) => Some(Ok(prefix)),
        }
    }
}

/// The walk over the items of a view, in the order of the prefixes. It is seen as the walk over the pairs.
#[derive(Drop)]
pub struct ValuesIter<V> {
    pub(crate) walk: ViewIter<V>,
}

impl<V> Model for ValuesIter<V> {
    ghost use Rattle.trie_map.specs.declared.walk.ViewIter.{ViewIter};

    ghost Value = { ViewIter V };

    ghost view = { λ iter. iter.walk };
}

impl<'a, V: TrieView<'a>> ValuesIter<V> {
    /// The next item: that of the first pair of what is to come, or none where nothing is. After None
    /// and after a refusal the walk is over.
    pub fn next(&mut self) -> Option<Result<V::T, NoMemory>>
        requires { CanWalk V.valid V.told V.P.Number.width self.old }
        ensures usable { CanWalk V.valid V.told V.P.Number.width self.new }
        ensures frugal { IsFrugalWalk V.told self.old → IfSome result (λ r. IsOk r) }
        ensures stays { IsFrugalWalk V.told self.old → IsFrugalWalk V.told self.new }
        ensures given { NextItemOf V.told V.item V.P.net V.P.raw V.P.Number.width self.old self.new result }
        ensures ends { IfSome result (λ r.
            work_left V.told V.P.Number.width self.new < work_left V.told V.P.Number.width self.old) }
        ensures last { IfNone result (IsOver V.told V.P.Number.width self.new) }
        ensures refused { IfSome result (λ r. OnErr r (IsOver V.told V.P.Number.width self.new)) }
        ensures over { IsOver V.told V.P.Number.width self.old → IsNone result }
    {
        match self.walk.next() {
            None => None,
            Some(Err(refusal)) => Some(Err(refusal)),
            Some(Ok((_, item))) => Some(Ok(item)),
        }
    }
}
