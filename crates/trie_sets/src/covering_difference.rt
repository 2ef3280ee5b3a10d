//! The pairs of one view that lie in no prefix of another.

ghost use Rattle.std.specs.Prelude.{◌≡◌, ℕ, ◌+◌, ◌≤◌};
ghost use Rattle.trie_model.proofs.Places.{show_equal};
ghost use Rattle.view_model.specs.CoveringDifference.{CoveredBits, covering_difference_told};
ghost use Rattle.view_model.specs.Sides.{IsAlignedSide};
ghost use Rattle.view_model.proofs.CoveringDifferenceLaws.{outside_laws};

use crate::cover::side_cover_masks;
use crate::side::{side_child, side_clone, side_frugal};
use nl_core::NoMemory;
use std::marker::PhantomData;
use trie_map::{AsView, CloneView, KeyBits, PlainPrefix, Steps, TrieView};

/// The pairs of `left` that lie in no prefix of `right`. It keeps which bits of the node lie in one, as
/// `right` was when the view was made, and whether one above the node contains the place.
#[derive(Drop)]
pub struct CoveringDifferenceView<'a, L, R> {
    pub(crate) left: L,
    pub(crate) right: Option<R>,
    pub(crate) covered: bool,
    pub(crate) covered_data: u32,
    pub(crate) covered_children: u32,
    pub(crate) of: PhantomData<&'a ()>,
}

impl<'a, L: TrieView<'a>, R: TrieView<'a, P = L::P>> TrieView<'a>
    for CoveringDifferenceView<'a, L, R> {
    type P = L::P;

    type T = L::T;

    ghost Item = { L.Item };

    ghost item = { L.item };

    ghost valid = { λ v.
        L.valid v.left
        × IsAlignedSide R.valid R.told L.P.Number.width (L.told v.left).place v.right
        × CoveredBits L.P.Number.width (L.told v.left).place R.told v.covered v.right v.covered_data
        v.covered_children };

    ghost told = { λ v.
        covering_difference_told L.P.Number.width R.told (L.told v.left) v.covered v.right v.covered_data
        v.covered_children };

    ghost cost = { L.cost + R.cost };

    fn depth(&self) -> u32 {
        self.left.depth()
    }

    fn key(&self) -> <L::P as PlainPrefix>::Number {
        self.left.key()
    }

    fn prefix_len(&self) -> u32 {
        self.left.prefix_len()
    }

    fn data_bitmap(&self) -> u32 {
        self.left.data_bitmap() & !self.covered_data
    }

    fn child_bitmap(&self) -> u32 {
        self.left.child_bitmap() & !self.covered_children
    }

    fn get_data(&mut self, bit: u32) -> Result<L::T, NoMemory> {
        self.left.get_data(bit)
    }

    fn get_child<S>(&mut self, bit: u32, steps: &mut Steps<S>) -> Result<Self, NoMemory> {
        let depth = self.left.depth();
        let left = self.left.get_child(bit, steps)?;
        let right = side_child(&mut self.right, depth, bit, steps)?;
        let (covered_data, covered_children) = side_cover_masks(&right, left.depth());
        Ok(CoveringDifferenceView {
            left,
            right,
            covered: false,
            covered_data,
            covered_children,
            of: PhantomData,
        })
    }

    fn reposition(&mut self, key: <L::P as PlainPrefix>::Number, prefix_len: u32) {
        self.left.reposition(key, prefix_len);
    }

    fn frugal(&self) -> bool {
        self.left.frugal() && side_frugal(&self.right)
    }

    ghost laws = { λ v ok.
        outside_laws L.P.Number.width R.told (L.told v.left) v.covered v.right v.covered_data v.covered_children
        (L.laws v.left ok.0) ok.2 };

    ghost onto = { L.onto };
}

impl<'a, L: CloneView<'a>, R: CloneView<'a, P = L::P>> CloneView<'a>
    for CoveringDifferenceView<'a, L, R> {
    fn clone_view(&self) -> Result<Self, NoMemory> {
        let left = self.left.clone_view()?;
        let right = side_clone(&self.right)?;
        Ok(CoveringDifferenceView {
            left,
            right,
            covered: self.covered,
            covered_data: self.covered_data,
            covered_children: self.covered_children,
            of: PhantomData,
        })
    }
}

impl<'a, L: TrieView<'a>, R: TrieView<'a, P = L::P>> AsView<'a>
    for CoveringDifferenceView<'a, L, R> {
    type View = CoveringDifferenceView<'a, L, R>;

    ghost can_view = { λ v. ⟦<CoveringDifferenceView<'a, L, R> as TrieView<'a>>⟧.valid v };

    ghost stands_for = { λ view v. view ≡ v };

    fn view(self) -> CoveringDifferenceView<'a, L, R> {
        self
    }

    ghost stands_law = { λ a b v. show_equal ⟦<CoveringDifferenceView<'a, L, R> as TrieView<'a>>⟧.told a b v };
}
