//! The calls of every view that give a view of other items.

ghost use Rattle.std.specs.Prelude.{◌≡◌, false};
ghost use Rattle.trie_model.specs.Views.{Shows};
ghost use Rattle.trie_adapters.specs.Answers.{AnswersByItem, TellsTarget};
ghost use Rattle.trie_adapters.specs.Mapped.{mapped_pairs, AnswersOf, PointsTo};

use crate::cloned::ClonedView;
use crate::copied::CopiedView;
use crate::map::MapView;
use nl_core::TryClone;
use std::marker::PhantomData;
use trie_map::TrieView;

/// The view of each item through a function, after the crate prefix-trie.
pub trait MapCalls<'a>: TrieView<'a> {
    /// The view with the same prefixes, whose items are what the function answers. It has to answer as a
    /// function of what contracts see of an item. It takes no memory.
    fn map<U: Drop, F: Fn(Self::T) -> U + Copy>(self, f: F) -> MapView<'a, Self, F, U>
        requires usable { Self.valid self }
        requires callable { F.IsAlwaysCallable f }
        requires answers { AnswersByItem Self.item (F.post f) }
        ensures usable { ⟦<MapView<'a, Self, F, U> as TrieView<'a>>⟧.valid result }
        ensures shows { Shows (⟦<MapView<'a, Self, F, U> as TrieView<'a>>⟧.told result)
            (Self.told self).place (mapped_pairs (AnswersOf Self.item (F.post f)) (Self.told self).at) }
        ensures frugal { (⟦<MapView<'a, Self, F, U> as TrieView<'a>>⟧.told result).frugal
            ≡ (Self.told self).frugal };
}

impl<'a, V: TrieView<'a>> MapCalls<'a> for V {
    fn map<U: Drop, F: Fn(Self::T) -> U + Copy>(self, f: F) -> MapView<'a, Self, F, U> {
        MapView {
            view: self,
            by: f,
            of: PhantomData,
        }
    }
}

/// The view of copies of what the items point to, after the crate prefix-trie.
pub trait CopiedCalls<'a, X: Copy + Drop + 'a>: TrieView<'a, T = &'a X> {
    /// The view with the same prefixes, whose items are copies. It takes no memory.
    fn copied(self) -> CopiedView<'a, Self, X>
        requires usable { Self.valid self }
        requires targets { TellsTarget Self.item (λ r. r.now) }
        ensures usable { ⟦<CopiedView<'a, Self, X> as TrieView<'a>>⟧.valid result }
        ensures shows { Shows (⟦<CopiedView<'a, Self, X> as TrieView<'a>>⟧.told result)
            (Self.told self).place (mapped_pairs (PointsTo Self.item (λ r. r.now)) (Self.told self).at) }
        ensures frugal { (⟦<CopiedView<'a, Self, X> as TrieView<'a>>⟧.told result).frugal
            ≡ (Self.told self).frugal };
}

impl<'a, X: Copy + Drop + 'a, V: TrieView<'a, T = &'a X>> CopiedCalls<'a, X> for V {
    fn copied(self) -> CopiedView<'a, Self, X> {
        CopiedView {
            view: self,
            of: PhantomData,
        }
    }
}

/// The view of clones of what the items point to, after the crate prefix-trie.
pub trait ClonedCalls<'a, X: TryClone + Drop + 'a>: TrieView<'a, T = &'a X> {
    /// The view with the same prefixes, whose items are clones. A getter makes the clone, and may run out
    /// of memory.
    fn cloned(self) -> ClonedView<'a, Self, X>
        requires usable { Self.valid self }
        requires targets { TellsTarget Self.item (λ r. r.now) }
        ensures usable { ⟦<ClonedView<'a, Self, X> as TrieView<'a>>⟧.valid result }
        ensures shows { Shows (⟦<ClonedView<'a, Self, X> as TrieView<'a>>⟧.told result)
            (Self.told self).place (mapped_pairs (PointsTo Self.item (λ r. r.now)) (Self.told self).at) }
        ensures frugal { (⟦<ClonedView<'a, Self, X> as TrieView<'a>>⟧.told result).frugal ≡ false };
}

impl<'a, X: TryClone + Drop + 'a, V: TrieView<'a, T = &'a X>> ClonedCalls<'a, X> for V {
    fn cloned(self) -> ClonedView<'a, Self, X> {
        ClonedView {
            view: self,
            of: PhantomData,
        }
    }
}
