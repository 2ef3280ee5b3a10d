//! A finite set of prefixes.

ghost use Rattle.std.specs.Prelude.{◌≡◌, ◌↔◌, ◌+◌, ◌-◌, ◌^◌, ◌≤◌, [], ⊤, length, min, IsTrue, IsSome, IsNone, IfOk, IfErr, IfNone, IfSome, OnOk, OnErr, OnSome};
ghost use Rattle.trie_model.specs.Inside.{SomeIn};
ghost use Rattle.trie_model.specs.Maps.{inserted, removed, value_at};
ghost use Rattle.trie_model.specs.Nets.{Net};
ghost use Rattle.trie_model.specs.Views.{Shows, root_place};
ghost use Rattle.trie_model.proofs.Places.{show_same};
ghost use Rattle.trie_model.specs.Walks.{Within};
ghost use Rattle.trie_map.specs.TrieRefs.{ref_value, CanWalkRef, IsFrugalRefWalk, HasPairsOf, HasPairsIn, WalksFrom, ListsFrom, IsRefAt, ListsAll};

use crate::map::PrefixMap;
use crate::node::Steps;
use crate::prefix::PlainPrefix;
use crate::trie_ref::TrieRef;
use crate::view::{AsView, TrieView};
use crate::walk::ViewIter;
use nl_core::{NoMemory, TryClone};
use std::alloc::Global;
use std::marker::Model;

/// A finite set of prefixes, as in the crate prefix-trie: a map to nothing. Contracts see the list of
/// its prefixes, each with `()`, in order.
#[derive(Drop)]
pub struct PrefixSet<P: PlainPrefix> {
    map: PrefixMap<P, ()>,
}

impl<P: PlainPrefix> Model for PrefixSet<P> {
    ghost use Rattle.std.specs.Prelude.{List};
    ghost use Rattle.trie_model.specs.Nets.{Net};

    ghost Value = { List (Net × Unit {0}) };

    ghost view = { λ s. s.map };
}

impl<P: PlainPrefix> PrefixSet<P> {
    /// The set with no prefix.
    pub fn new(alloc: Global) -> Self
        ensures { result ≡ [] }
    {
        PrefixSet {
            map: PrefixMap::new(alloc),
        }
    }

    /// How many prefixes there are.
    pub fn len(&self) -> usize
        ensures { result ≡ length self.now }
    {
        self.map.len()
    }

    /// Whether there is no prefix.
    pub fn is_empty(&self) -> bool
        ensures { IsTrue result ↔ (self.now ≡ []) }
    {
        self.map.is_empty()
    }

    /// Whether the prefix is one of the set.
    pub fn contains(&self, prefix: &P) -> bool
        requires { (P.net prefix.now).len ≤ P.Number.width }
        ensures { IsTrue result ↔ IsSome (value_at self.now (P.net prefix.now)) }
    {
        self.map.contains_key(prefix)
    }

    /// The view of the whole set. It visits the root, and takes no memory.
    pub fn view_counted<'a, L>(&'a self, steps: &mut Steps<L>) -> TrieRef<'a, P, ()>
        ensures usable { ⟦<TrieRef<'a, P, ()> as TrieView<'a>>⟧.valid result }
        ensures place { IsRefAt P.Number.number P.Number.width root_place result }
        ensures pairs { HasPairsOf P.Number.number P.Number.width self.now result }
        ensures counted { steps.new ≡ min (steps.old + 1) (2 ^ 64 - 1) }
    {
        self.map.view_counted(steps)
    }

    /// The view of the whole set.
    pub fn view<'a>(&'a self) -> TrieRef<'a, P, ()>
        ensures usable { ⟦<TrieRef<'a, P, ()> as TrieView<'a>>⟧.valid result }
        ensures place { IsRefAt P.Number.number P.Number.width root_place result }
        ensures pairs { HasPairsOf P.Number.number P.Number.width self.now result }
    {
        self.map.view()
    }

    /// The view of the prefixes that lie in a prefix, the prefix itself among them. None exactly
    /// where no prefix lies in it. It takes no memory.
    pub fn view_at<'a>(&'a self, prefix: &P) -> Option<TrieRef<'a, P, ()>>
        requires { (P.net prefix.now).len ≤ P.Number.width }
        ensures found { OnSome result (SomeIn P.Number.width (P.net prefix.now) self.now) }
        ensures none { IfNone result (¬ SomeIn P.Number.width (P.net prefix.now) self.now) }
        ensures usable { IfSome result (λ view. ⟦<TrieRef<'a, P, ()> as TrieView<'a>>⟧.valid view) }
        ensures place { IfSome result (IsRefAt P.Number.number P.Number.width (P.net prefix.now)) }
        ensures pairs { IfSome result (HasPairsIn P.Number.number P.Number.width (P.net prefix.now) self.now) }
    {
        self.map.view_at(prefix)
    }

    /// The walk over the prefixes, in order.
    pub fn iter<'a>(&'a self) -> Result<ViewIter<TrieRef<'a, P, ()>>, NoMemory>
        ensures usable { IfOk result (CanWalkRef P.Number.number P.Number.width) }
        ensures frugal { IfOk result (IsFrugalRefWalk P.Number.number P.Number.width) }
        ensures list { IfOk result (ListsAll P.Number.number P.Number.width self.now) }
    {
        self.map.iter()
    }

    /// The walk over the prefixes from a prefix on: the prefix itself too where `inclusive`, and
    /// those that come after it in the order.
    pub fn iter_from<'a>(
        &'a self,
        prefix: &P,
        inclusive: bool,
    ) -> Result<ViewIter<TrieRef<'a, P, ()>>, NoMemory>
        requires { (P.net prefix.now).len ≤ P.Number.width }
        ensures usable { IfOk result (CanWalkRef P.Number.number P.Number.width) }
        ensures frugal { IfOk result (IsFrugalRefWalk P.Number.number P.Number.width) }
        ensures rest { IfOk result (WalksFrom P.Number.number P.Number.width inclusive (P.net prefix.now) self.now) }
        ensures list { IfOk result (ListsFrom P.Number.number P.Number.width inclusive (P.net prefix.now) self.now) }
    {
        self.map.iter_from(prefix, inclusive)
    }

    /// Adds a prefix, and says whether it is new. A refusal changes nothing, and hands the prefix back.
    pub fn insert(&mut self, prefix: P) -> Result<bool, (NoMemory, P)>
        requires { (P.net prefix).len ≤ P.Number.width }
        ensures new { IfOk result (λ new. IsTrue new ↔ IsNone (value_at self.old (P.net prefix))) }
        ensures added { OnOk result (self.new ≡ inserted P.Number.width self.old (P.net prefix) tt) }
        ensures unchanged { OnErr result (self.new ≡ self.old) }
        ensures back { IfErr result (λ e. e.1 ≡ prefix) }
    {
        match self.map.insert(prefix, ()) {
            Ok(was) => Ok(was.is_none()),
            Err((refusal, prefix, _)) => Err((refusal, prefix)),
        }
    }

    /// Takes a prefix out, and says whether it was there.
    pub fn remove(&mut self, prefix: &P) -> bool
        requires { (P.net prefix.now).len ≤ P.Number.width }
        ensures was { IsTrue result ↔ IsSome (value_at self.old (P.net prefix.now)) }
        ensures gone { self.new ≡ removed self.old (P.net prefix.now) }
    {
        self.map.remove(prefix).is_some()
    }
}

impl<P: PlainPrefix> TryClone for PrefixSet<P> {
    fn clone_with(&self) -> Result<Self, NoMemory> {
        let map = self.map.clone_with(|_| Ok(()))?;
        Ok(PrefixSet { map })
    }
}

impl<'a, P: PlainPrefix> AsView<'a> for &'a PrefixSet<P> {
    type View = TrieRef<'a, P, ()>;

    ghost can_view = { λ s. ⊤ };

    ghost stands_for = { λ view s. Shows (ref_value P.Number.number P.Number.width view) root_place (Within s.now) };

    fn view(self) -> TrieRef<'a, P, ()> {
        self.view_counted(&mut Steps::start())
    }

    ghost stands_law = { λ a b s. show_same (ref_value P.Number.number P.Number.width) a b root_place (Within s.now) };
}
