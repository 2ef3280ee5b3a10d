//! The calls of every view.

ghost use Rattle.std.specs.Prelude.{◌≡◌, ◌↔◌, ℕ, ◌+◌, ◌-◌, ◌*◌, ◌/◌, ◌≤◌, IsTrue, IfOk, IsOk};
ghost use Rattle.trie_map.specs.Walking.{CanWalk, IsFrugalWalk, ToCome};
ghost use Rattle.trie_model.specs.Nets.{Net};
ghost use Rattle.trie_model.specs.Views.{depth_at};
ghost use Rattle.trie_model.specs.Walks.{From};
ghost use Rattle.view_model.specs.Find.{FindsEntry, FindsPart};
ghost use Rattle.view_model.specs.LongestMatch.{HasNoHostBits, ItemOf, LongestMatchOf, PairOf};

use crate::find::find_part;
use crate::iters::{KeysIter, ValuesIter};
use crate::longest_match::longest_match;
use crate::own::{find_entry, own_item, own_pair, own_prefix};
use nl_core::NoMemory;
use std::alloc::Global;
use trie_map::{PlainPrefix, Start, Steps, TrieView, ViewIter};

/// The calls of every view, after the crate prefix-trie. One impl has the bodies. A frugal view takes no
/// memory in them but the room of a walk.
pub trait ViewCalls<'a>: TrieView<'a> {
    /// The view of what lies in a prefix, at the longer of its place and the prefix. None only where
    /// nothing does.
    fn find(self, prefix: &Self::P) -> Result<Option<Self>, NoMemory>
        requires usable { Self.valid self }
        requires len { (Self.P.net prefix.now).len ≤ Self.P.Number.width }
        ensures found { IfOk result (λ found.
            FindsPart Self.valid Self.told Self.P.Number.width (Self.P.net prefix.now) (Self.told self) found) }
        ensures frugal { IsTrue (Self.told self).frugal → IsOk result };

    /// The view of what lies in a prefix that has a pair. It stands at the prefix. None exactly where the
    /// prefix has no pair.
    fn find_exact(self, prefix: &Self::P) -> Result<Option<Self>, NoMemory>
        requires usable { Self.valid self }
        requires len { (Self.P.net prefix.now).len ≤ Self.P.Number.width }
        ensures found { IfOk result (λ found.
            FindsEntry Self.valid Self.told Self.P.Number.width (Self.P.net prefix.now) (Self.told self) found) }
        ensures frugal { IsTrue (Self.told self).frugal → IsOk result };

    /// The pair of a prefix. None exactly where it has none.
    fn find_exact_value(self, prefix: &Self::P) -> Result<Option<(Self::P, Self::T)>, NoMemory>
        requires usable { Self.valid self }
        requires len { (Self.P.net prefix.now).len ≤ Self.P.Number.width }
        ensures pair { IfOk result (λ found.
            PairOf Self.P.net Self.item (Self.told self) (Self.P.net prefix.now) found) }
        ensures plain { IfOk result (λ found. HasNoHostBits Self.P.net Self.P.raw found) }
        ensures frugal { IsTrue (Self.told self).frugal → IsOk result };

    /// The longest pair that contains a prefix. It reads at most as many nodes as a step of the view costs,
    /// for each multiple of 5 above the view's depth and up to the prefix's length.
    fn find_lpm_value<S>(
        self,
        prefix: &Self::P,
        steps: &mut Steps<S>,
    ) -> Result<Option<(Self::P, Self::T)>, NoMemory>
        requires usable { Self.valid self }
        requires len { (Self.P.net prefix.now).len ≤ Self.P.Number.width }
        ensures longest { IfOk result (λ found.
            LongestMatchOf Self.P.Number.width Self.P.net Self.item (Self.told self) (Self.P.net prefix.now) found) }
        ensures plain { IfOk result (λ found. HasNoHostBits Self.P.net Self.P.raw found) }
        ensures forward { steps.old ≤ steps.new }
        ensures cost { steps.new
            ≤ steps.old + Self.cost * (((Self.P.net prefix.now).len - depth_at (Self.told self).place.len) / 5) }
        ensures frugal { IsTrue (Self.told self).frugal → IsOk result };

    /// The prefix of the view's own place.
    fn prefix(&self) -> Self::P
        requires { Self.valid self.now }
        ensures net { Self.P.net result ≡ (Self.told self.now).place }
        ensures plain { Self.P.raw result ≡ (Self.told self.now).place.bits };

    /// The item of the view's own place. None exactly where it has none.
    fn value(self) -> Result<Option<Self::T>, NoMemory>
        requires usable { Self.valid self }
        ensures item { IfOk result (λ found. ItemOf Self.item (Self.told self) (Self.told self).place found) }
        ensures frugal { IsTrue (Self.told self).frugal → IsOk result };

    /// The pair of the view's own place. None exactly where it has none.
    fn prefix_value(self) -> Result<Option<(Self::P, Self::T)>, NoMemory>
        requires usable { Self.valid self }
        ensures pair { IfOk result (λ found.
            PairOf Self.P.net Self.item (Self.told self) (Self.told self).place found) }
        ensures plain { IfOk result (λ found. HasNoHostBits Self.P.net Self.P.raw found) }
        ensures frugal { IsTrue (Self.told self).frugal → IsOk result };

    /// The walk over the view's pairs in the order of their prefixes. It takes the room of the walk.
    fn iter(self, alloc: Global) -> Result<ViewIter<Self>, NoMemory>
        requires usable { Self.valid self }
        ensures usable { IfOk result (λ walk. CanWalk Self.valid Self.told Self.P.Number.width walk) }
        ensures frugal { IfOk result (λ walk. IsTrue (Self.told self).frugal → IsFrugalWalk Self.told walk) }
        ensures whole { IfOk result (λ walk.
            (n : Net) (x : Self.Item) → ToCome Self.told Self.P.Number.width walk n x ↔ (Self.told self).at n x) };

    /// The walk from a prefix on: its own pair too where `inclusive`, and what comes after it in the order.
    fn iter_from(
        self,
        alloc: Global,
        prefix: &Self::P,
        inclusive: bool,
    ) -> Result<ViewIter<Self>, NoMemory>
        requires usable { Self.valid self }
        requires len { (Self.P.net prefix.now).len ≤ Self.P.Number.width }
        ensures usable { IfOk result (λ walk. CanWalk Self.valid Self.told Self.P.Number.width walk) }
        ensures frugal { IfOk result (λ walk. IsTrue (Self.told self).frugal → IsFrugalWalk Self.told walk) }
        ensures rest { IfOk result (λ walk.
            (n : Net) (x : Self.Item) → ToCome Self.told Self.P.Number.width walk n x
            ↔ ((Self.told self).at n x × From Self.P.Number.width inclusive (Self.P.net prefix.now) n)) };

    /// The walk over the view's prefixes in their order. It takes the room of the walk.
    fn keys(self, alloc: Global) -> Result<KeysIter<Self>, NoMemory>
        requires usable { Self.valid self }
        ensures usable { IfOk result (λ keys. CanWalk Self.valid Self.told Self.P.Number.width keys) }
        ensures frugal { IfOk result (λ keys. IsTrue (Self.told self).frugal → IsFrugalWalk Self.told keys) }
        ensures whole { IfOk result (λ keys.
            (n : Net) (x : Self.Item) → ToCome Self.told Self.P.Number.width keys n x ↔ (Self.told self).at n x) };

    /// The walk over the view's items in the order of their prefixes. It takes the room of the walk.
    fn values(self, alloc: Global) -> Result<ValuesIter<Self>, NoMemory>
        requires usable { Self.valid self }
        ensures usable { IfOk result (λ values. CanWalk Self.valid Self.told Self.P.Number.width values) }
        ensures frugal { IfOk result (λ values. IsTrue (Self.told self).frugal → IsFrugalWalk Self.told values) }
        ensures whole { IfOk result (λ values.
            (n : Net) (x : Self.Item) → ToCome Self.told Self.P.Number.width values n x ↔ (Self.told self).at n x) };
}

impl<'a, V: TrieView<'a>> ViewCalls<'a> for V {
    fn find(self, prefix: &Self::P) -> Result<Option<Self>, NoMemory> {
        let key = prefix.number();
        let len = prefix.length() as u32;
        let found = find_part(self, key, len, &mut Steps::<Start>::start())?;
        Ok(found)
    }

    fn find_exact(self, prefix: &Self::P) -> Result<Option<Self>, NoMemory> {
        let key = prefix.number();
        let len = prefix.length() as u32;
        let found = find_entry(self, key, len, &mut Steps::<Start>::start())?;
        Ok(found)
    }

    fn find_exact_value(self, prefix: &Self::P) -> Result<Option<(Self::P, Self::T)>, NoMemory> {
        let key = prefix.number();
        let len = prefix.length() as u32;
        let found = find_entry(self, key, len, &mut Steps::<Start>::start())?;
        match found {
            None => Ok(None),
            Some(view) => own_pair(view),
        }
    }

    fn find_lpm_value<S>(
        self,
        prefix: &Self::P,
        steps: &mut Steps<S>,
    ) -> Result<Option<(Self::P, Self::T)>, NoMemory> {
        let key = prefix.number();
        let len = prefix.length() as u32;
        let found = longest_match(self, key, len, steps)?;
        Ok(found)
    }

    fn prefix(&self) -> Self::P {
        own_prefix(self)
    }

    fn value(self) -> Result<Option<Self::T>, NoMemory> {
        own_item(self)
    }

    fn prefix_value(self) -> Result<Option<(Self::P, Self::T)>, NoMemory> {
        own_pair(self)
    }

    fn iter(self, alloc: Global) -> Result<ViewIter<Self>, NoMemory> {
        ViewIter::new(alloc, self)
    }

    fn iter_from(
        self,
        alloc: Global,
        prefix: &Self::P,
        inclusive: bool,
    ) -> Result<ViewIter<Self>, NoMemory> {
        ViewIter::starting(alloc, self, prefix, inclusive)
    }

    fn keys(self, alloc: Global) -> Result<KeysIter<Self>, NoMemory> {
        let walk = ViewIter::new(alloc, self)?;
        Ok(KeysIter { walk })
    }

    fn values(self, alloc: Global) -> Result<ValuesIter<Self>, NoMemory> {
        let walk = ViewIter::new(alloc, self)?;
        Ok(ValuesIter { walk })
    }
}
