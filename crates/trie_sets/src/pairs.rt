//! The calls of every view with a second one.

ghost use Rattle.std.specs.Prelude.{◌≡◌, ◌↔◌, ℕ, ◌+◌, ◌≤◌, ◌&&◌, IsTrue, IfOk, IsOk};
ghost use Rattle.trie_model.specs.Views.{SamePairs};
ghost use Rattle.view_model.specs.Intersection.{FindsCommon};
ghost use Rattle.view_model.specs.Pairs.{GivesPairs, GivesPlace, covering_difference_pairs, difference_pairs};
ghost use Rattle.view_model.specs.Union.{IsLongestCommon, union_pairs};

use crate::common::common_len;
use crate::cover::search_cover_masks;
use crate::covering_difference::CoveringDifferenceView;
use crate::difference::DifferenceView;
use crate::find::{find_cover, find_part};
use crate::intersection::IntersectionView;
use crate::side::side_data;
use crate::union::{UnionView, either_children, either_data};
use nl_core::NoMemory;
use std::marker::PhantomData;
use trie_map::{KeyBits, PlainPrefix, Start, Steps, TrieView};

/// The calls of every view with a second one, of the same prefixes.
pub trait ViewPairs<'a, R: TrieView<'a, P = <Self as TrieView<'a>>::P>>: TrieView<'a> {
    /// The pairs whose prefix the other view lacks.
    fn difference(self, other: R) -> Result<DifferenceView<'a, Self, R>, NoMemory>
        requires usable { Self.valid self }
        requires other { R.valid other }
        ensures usable { IfOk result (λ v. ⟦<DifferenceView<'a, Self, R> as TrieView<'a>>⟧.valid v) }
        ensures place { GivesPlace ⟦<DifferenceView<'a, Self, R> as TrieView<'a>>⟧.told result (Self.told self).place }
        ensures pairs { GivesPairs ⟦<DifferenceView<'a, Self, R> as TrieView<'a>>⟧.told result
            (difference_pairs (Self.told self) (R.told other)) }
        ensures frugal { IsTrue ((Self.told self).frugal && (R.told other).frugal) → IsOk result };

    /// The pairs that lie in no prefix of the other view.
    fn covering_difference(self, other: R) -> Result<CoveringDifferenceView<'a, Self, R>, NoMemory>
        requires usable { Self.valid self }
        requires other { R.valid other }
        ensures usable { IfOk result (λ v. ⟦<CoveringDifferenceView<'a, Self, R> as TrieView<'a>>⟧.valid v) }
        ensures place { GivesPlace ⟦<CoveringDifferenceView<'a, Self, R> as TrieView<'a>>⟧.told result
            (Self.told self).place }
        ensures pairs { GivesPairs ⟦<CoveringDifferenceView<'a, Self, R> as TrieView<'a>>⟧.told result
            (covering_difference_pairs Self.P.Number.width (Self.told self) (R.told other)) }
        ensures frugal { IsTrue ((Self.told self).frugal && (R.told other).frugal) → IsOk result };

    /// The prefixes that both views have, at the longer place. None only where there is none, and never
    /// where both places are equal.
    fn intersection(self, other: R) -> Result<Option<IntersectionView<'a, Self, R>>, NoMemory>
        requires usable { Self.valid self }
        requires other { R.valid other }
        ensures met { IfOk result
            (FindsCommon ⟦<IntersectionView<'a, Self, R> as TrieView<'a>>⟧.valid
            ⟦<IntersectionView<'a, Self, R> as TrieView<'a>>⟧.told (Self.told self) (R.told other)) }
        ensures frugal { IsTrue ((Self.told self).frugal && (R.told other).frugal) → IsOk result };

    /// The pairs of either view, at the longest prefix that contains both places.
    fn union(self, other: R) -> UnionView<'a, <Self as TrieView<'a>>::P, Self, R>
        requires usable { Self.valid self }
        requires other { R.valid other }
        ensures usable { ⟦<UnionView<'a, <Self as TrieView<'a>>::P, Self, R> as TrieView<'a>>⟧.valid result }
        ensures place { IsLongestCommon Self.P.Number.width (Self.told self).place (R.told other).place
            (⟦<UnionView<'a, <Self as TrieView<'a>>::P, Self, R> as TrieView<'a>>⟧.told result).place }
        ensures pairs { SamePairs (⟦<UnionView<'a, <Self as TrieView<'a>>::P, Self, R> as TrieView<'a>>⟧.told result).at
            (union_pairs (Self.told self) (R.told other)) };
}

impl<'a, V: TrieView<'a>, R: TrieView<'a, P = V::P>> ViewPairs<'a, R> for V {
    fn difference(self, other: R) -> Result<DifferenceView<'a, Self, R>, NoMemory> {
        let key = self.key();
        let len = self.prefix_len();
        let depth = self.depth();
        let right = find_part(other, key, len, &mut Steps::<Start>::start())?;
        let right_data = side_data(&right, depth);
        Ok(DifferenceView {
            left: self,
            right,
            right_data,
            of: PhantomData,
        })
    }

    fn covering_difference(
        self,
        other: R,
    ) -> Result<CoveringDifferenceView<'a, Self, R>, NoMemory> {
        let key = self.key();
        let len = self.prefix_len();
        let depth = self.depth();
        let met = find_cover(other, key, len, &mut Steps::<Start>::start())?;
        let hidden = search_cover_masks(met.0, &met.1, depth);
        Ok(CoveringDifferenceView {
            left: self,
            right: met.1,
            covered: met.0,
            covered_data: hidden.0,
            covered_children: hidden.1,
            of: PhantomData,
        })
    }

    fn intersection(self, other: R) -> Result<Option<IntersectionView<'a, Self, R>>, NoMemory> {
        let key = self.key();
        let len = self.prefix_len();
        let other_key = other.key();
        let other_len = other.prefix_len();
        if other_len <= len {
            match find_part(other, key, len, &mut Steps::<Start>::start())? {
                Some(right) => Ok(Some(IntersectionView {
                    left: self,
                    right,
                    of: PhantomData,
                })),
                None => Ok(None),
            }
        } else {
            match find_part(self, other_key, other_len, &mut Steps::<Start>::start())? {
                Some(left) => Ok(Some(IntersectionView {
                    left,
                    right: other,
                    of: PhantomData,
                })),
                None => Ok(None),
            }
        }
    }

    fn union(self, other: R) -> UnionView<'a, <Self as TrieView<'a>>::P, Self, R> {
        let key = self.key();
        let len = self.prefix_len();
        let other_key = other.key();
        let other_len = other.prefix_len();
        let common = common_len(key, len, other_key, other_len);
        let common_key = key.first_bits(common);
        let left = Some(self);
        let right = Some(other);
        let depth = common / 5 * 5;
        UnionView {
            data_bitmap: either_data(&left, &right, depth),
            child_bitmap: either_children(&left, &right, depth),
            key: common_key,
            len: common,
            left,
            right,
            of: PhantomData,
        }
    }
}
