//! The pairs of one view whose prefix another lacks.

ghost use Rattle.std.specs.Prelude.{◌≡◌, ℕ, ◌+◌, ◌≤◌};
ghost use Rattle.trie_model.specs.Views.{depth_at};
ghost use Rattle.trie_model.proofs.Places.{show_equal};
ghost use Rattle.view_model.specs.Difference.{difference_told};
ghost use Rattle.view_model.specs.Sides.{IsAlignedSide, side_data_bits};
ghost use Rattle.view_model.proofs.DifferenceLaws.{difference_laws};

use crate::side::{side_child, side_clone, side_data, side_frugal};
use nl_core::NoMemory;
use std::marker::PhantomData;
use trie_map::{AsView, CloneView, PlainPrefix, Steps, TrieView};

/// The pairs of `left` whose prefix `right` lacks. It keeps the data bits of `right` in the node, as no
/// getter takes a pair out of them.
#[derive(Drop)]
pub struct DifferenceView<'a, L, R> {
    pub(crate) left: L,
    pub(crate) right: Option<R>,
    pub(crate) right_data: u32,
    pub(crate) of: PhantomData<&'a ()>,
}

impl<'a, L: TrieView<'a>, R: TrieView<'a, P = L::P>> TrieView<'a> for DifferenceView<'a, L, R> {
    type P = L::P;

    type T = L::T;

    ghost Item = { L.Item };

    ghost item = { L.item };

    ghost valid = { λ v.
        L.valid v.left
        × IsAlignedSide R.valid R.told L.P.Number.width (L.told v.left).place v.right
        × (v.right_data ≡ side_data_bits R.told (depth_at (L.told v.left).place.len) v.right) };

    ghost told = { λ v. difference_told R.told (L.told v.left) v.right };

    ghost cost = { L.cost + R.cost };

    fn depth(&self) -> u32 {
        self.left.depth()
    }

    fn key(&self) -> <L::P as PlainPrefix>::Number {
        self.left.key()
    }

    fn prefix_len(&self) -> u32 {
        self.left.prefix_len()
    }

    fn data_bitmap(&self) -> u32 {
        self.left.data_bitmap() & !self.right_data
    }

    fn child_bitmap(&self) -> u32 {
        self.left.child_bitmap()
    }

    fn get_data(&mut self, bit: u32) -> Result<L::T, NoMemory> {
        self.left.get_data(bit)
    }

    fn get_child<S>(&mut self, bit: u32, steps: &mut Steps<S>) -> Result<Self, NoMemory> {
        let depth = self.left.depth();
        let left = self.left.get_child(bit, steps)?;
        let right = side_child(&mut self.right, depth, bit, steps)?;
        let right_data = side_data(&right, left.depth());
        Ok(DifferenceView {
            left,
            right,
            right_data,
            of: PhantomData,
        })
    }

    fn reposition(&mut self, key: <L::P as PlainPrefix>::Number, prefix_len: u32) {
        self.left.reposition(key, prefix_len);
    }

    fn frugal(&self) -> bool {
        self.left.frugal() && side_frugal(&self.right)
    }

    ghost laws = { λ v ok.
        difference_laws L.P.Number.width R.valid R.told R.laws (L.told v.left) v.right (L.laws v.left ok.0) ok.1 };

    ghost onto = { L.onto };
}

impl<'a, L: CloneView<'a>, R: CloneView<'a, P = L::P>> CloneView<'a> for DifferenceView<'a, L, R> {
    fn clone_view(&self) -> Result<Self, NoMemory> {
        let left = self.left.clone_view()?;
        let right = side_clone(&self.right)?;
        Ok(DifferenceView {
            left,
            right,
            right_data: self.right_data,
            of: PhantomData,
        })
    }
}

impl<'a, L: TrieView<'a>, R: TrieView<'a, P = L::P>> AsView<'a> for DifferenceView<'a, L, R> {
    type View = DifferenceView<'a, L, R>;

    ghost can_view = { λ v. ⟦<DifferenceView<'a, L, R> as TrieView<'a>>⟧.valid v };

    ghost stands_for = { λ view v. view ≡ v };

    fn view(self) -> DifferenceView<'a, L, R> {
        self
    }

    ghost stands_law = { λ a b v. show_equal ⟦<DifferenceView<'a, L, R> as TrieView<'a>>⟧.told a b v };
}
