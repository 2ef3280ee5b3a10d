//! The prefixes that both views have.

ghost use Rattle.std.specs.Prelude.{◌≡◌, ℕ, ◌+◌, ◌≤◌};
ghost use Rattle.trie_model.proofs.Places.{show_equal};
ghost use Rattle.view_model.specs.Intersection.{intersection_told};
ghost use Rattle.view_model.proofs.IntersectionLaws.{intersection_laws};

use nl_core::NoMemory;
use std::marker::PhantomData;
use trie_map::{AsView, CloneView, PlainPrefix, Steps, TrieView};

/// The prefixes that both views have, with both items. Both stand at one place.
#[derive(Drop)]
pub struct IntersectionView<'a, L, R> {
    pub(crate) left: L,
    pub(crate) right: R,
    pub(crate) of: PhantomData<&'a ()>,
}

impl<'a, L: TrieView<'a>, R: TrieView<'a, P = L::P>> TrieView<'a> for IntersectionView<'a, L, R> {
    type P = L::P;

    type T = (L::T, R::T);

    ghost Item = { L.Item × R.Item };

    ghost item = { λ p. (L.item p.0, R.item p.1) };

    ghost valid = { λ v. L.valid v.left × R.valid v.right × ((R.told v.right).place ≡ (L.told v.left).place) };

    ghost told = { λ v. intersection_told (L.told v.left) (R.told v.right) };

    ghost cost = { L.cost + R.cost };

    fn depth(&self) -> u32 {
        self.left.depth()
    }

    fn key(&self) -> <L::P as PlainPrefix>::Number {
        self.left.key()
    }

    fn prefix_len(&self) -> u32 {
        self.left.prefix_len()
    }

    fn data_bitmap(&self) -> u32 {
        self.left.data_bitmap() & self.right.data_bitmap()
    }

    fn child_bitmap(&self) -> u32 {
        self.left.child_bitmap() & self.right.child_bitmap()
    }

    fn get_data(&mut self, bit: u32) -> Result<(L::T, R::T), NoMemory> {
        let left = self.left.get_data(bit)?;
        let right = self.right.get_data(bit)?;
        Ok((left, right))
    }

    fn get_child<S>(&mut self, bit: u32, steps: &mut Steps<S>) -> Result<Self, NoMemory> {
        let left = self.left.get_child(bit, steps)?;
        let right = self.right.get_child(bit, steps)?;
        Ok(IntersectionView {
            left,
            right,
            of: PhantomData,
        })
    }

    fn reposition(&mut self, key: <L::P as PlainPrefix>::Number, prefix_len: u32) {
        self.left.reposition(key, prefix_len);
        self.right.reposition(key, prefix_len);
    }

    fn frugal(&self) -> bool {
        self.left.frugal() && self.right.frugal()
    }

    ghost laws = { λ v ok.
        intersection_laws L.P.Number.width (L.told v.left) (R.told v.right) (L.laws v.left ok.0)
        (R.laws v.right ok.1) ok.2 };

    ghost onto = { λ p. (((L.onto p.0).0, (R.onto p.1).0), (λ i. ((L.onto p.0).1 i, (R.onto p.1).1 i))) };
}

impl<'a, L: CloneView<'a>, R: CloneView<'a, P = L::P>> CloneView<'a>
    for IntersectionView<'a, L, R> {
    fn clone_view(&self) -> Result<Self, NoMemory> {
        let left = self.left.clone_view()?;
        let right = self.right.clone_view()?;
        Ok(IntersectionView {
            left,
            right,
            of: PhantomData,
        })
    }
}

impl<'a, L: TrieView<'a>, R: TrieView<'a, P = L::P>> AsView<'a> for IntersectionView<'a, L, R> {
    type View = IntersectionView<'a, L, R>;

    ghost can_view = { λ v. ⟦<IntersectionView<'a, L, R> as TrieView<'a>>⟧.valid v };

    ghost stands_for = { λ view v. view ≡ v };

    fn view(self) -> IntersectionView<'a, L, R> {
        self
    }

    ghost stands_law = { λ a b v. show_equal ⟦<IntersectionView<'a, L, R> as TrieView<'a>>⟧.told a b v };
}
