//! The view whose items are copied.

ghost use Rattle.std.specs.Prelude.{◌≡◌, ℕ, ◌+◌, ◌≤◌, IsTrue, IfOk, IsOk};
ghost use Rattle.trie_model.proofs.Places.{show_equal};
ghost use Rattle.trie_adapters.specs.Answers.{TellsTarget};
ghost use Rattle.trie_adapters.specs.Mapped.{mapped, PointsTo};
ghost use Rattle.trie_adapters.specs.MappedLaws.{mapped_laws, target_function};

use nl_core::NoMemory;
use std::marker::PhantomData;
use trie_map::{AsView, CloneView, PlainPrefix, Steps, TrieView};

/// A view with the same prefixes, whose items are copies of what those of another view point to.
#[derive(Drop)]
pub struct CopiedView<'a, V, X> {
    pub(crate) view: V,
    pub(crate) of: PhantomData<&'a X>,
}

impl<'a, X: Copy + Drop, V: TrieView<'a, T = &'a X>> TrieView<'a> for CopiedView<'a, V, X> {
    type P = V::P;

    type T = X;

    ghost Item = { X };

    ghost item = { λ u. u };

    ghost valid = { λ v. V.valid v.view × TellsTarget V.item (λ r. r.now) };

    ghost told = { λ v. mapped (PointsTo V.item (λ r. r.now)) (V.told v.view).frugal (V.told v.view) };

    ghost cost = { V.cost };

    fn depth(&self) -> u32 {
        self.view.depth()
    }

    fn key(&self) -> <V::P as PlainPrefix>::Number {
        self.view.key()
    }

    fn prefix_len(&self) -> u32 {
        self.view.prefix_len()
    }

    fn data_bitmap(&self) -> u32 {
        self.view.data_bitmap()
    }

    fn child_bitmap(&self) -> u32 {
        self.view.child_bitmap()
    }

    fn get_data(&mut self, bit: u32) -> Result<X, NoMemory> {
        let item = self.view.get_data(bit)?;
        Ok(*item)
    }

    fn get_child<S>(&mut self, bit: u32, steps: &mut Steps<S>) -> Result<Self, NoMemory> {
        let view = self.view.get_child(bit, steps)?;
        Ok(CopiedView {
            view,
            of: PhantomData,
        })
    }

    fn reposition(&mut self, key: <V::P as PlainPrefix>::Number, prefix_len: u32) {
        self.view.reposition(key, prefix_len);
    }

    fn frugal(&self) -> bool {
        self.view.frugal()
    }

    ghost laws = { λ v ok.
        mapped_laws V.P.Number.width (PointsTo V.item (λ r. r.now)) (V.told v.view).frugal
        (V.told v.view) (V.laws v.view ok.0) (target_function V.item (λ r. r.now) V.onto ok.1) };

    ghost onto = { λ x. (x, λ i. x) };
}

impl<'a, X: Copy + Drop, V: CloneView<'a, T = &'a X>> CloneView<'a> for CopiedView<'a, V, X> {
    fn clone_view(&self) -> Result<Self, NoMemory> {
        let view = self.view.clone_view()?;
        Ok(CopiedView {
            view,
            of: PhantomData,
        })
    }
}

impl<'a, X: Copy + Drop, V: TrieView<'a, T = &'a X>> AsView<'a> for CopiedView<'a, V, X> {
    type View = CopiedView<'a, V, X>;

    ghost can_view = { λ v. ⟦<CopiedView<'a, V, X> as TrieView<'a>>⟧.valid v };

    ghost stands_for = { λ view v. view ≡ v };

    fn view(self) -> CopiedView<'a, V, X> {
        self
    }

    ghost stands_law = { λ a b v. show_equal ⟦<CopiedView<'a, V, X> as TrieView<'a>>⟧.told a b v };
}
