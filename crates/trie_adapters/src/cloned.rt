//! The view whose items are cloned.

ghost use Rattle.std.specs.Prelude.{◌≡◌, ℕ, ◌+◌, ◌≤◌, IsTrue, IfOk, IsOk, false};
ghost use Rattle.trie_model.proofs.Places.{show_equal};
ghost use Rattle.trie_adapters.specs.Answers.{TellsTarget};
ghost use Rattle.trie_adapters.specs.Mapped.{mapped, PointsTo};
ghost use Rattle.trie_adapters.specs.MappedLaws.{mapped_laws, target_function};

use nl_core::{NoMemory, TryClone};
use std::marker::PhantomData;
use trie_map::{AsView, CloneView, PlainPrefix, Steps, TrieView};

/// A view with the same prefixes, whose items are clones of what those of another view point to.
#[derive(Drop)]
pub struct ClonedView<'a, V, X> {
    pub(crate) view: V,
    pub(crate) of: PhantomData<&'a X>,
}

impl<'a, X: TryClone + Drop, V: TrieView<'a, T = &'a X>> TrieView<'a> for ClonedView<'a, V, X> {
    type P = V::P;

    type T = X;

    ghost Item = { X };

    ghost item = { λ u. u };

    ghost valid = { λ v. V.valid v.view × TellsTarget V.item (λ r. r.now) };

    ghost told = { λ v. mapped (PointsTo V.item (λ r. r.now)) false (V.told v.view) };

    ghost cost = { V.cost };

    fn depth(&self) -> u32 {
        self.view.depth()
    }

    fn key(&self) -> <V::P as PlainPrefix>::Number {
        self.view.key()
    }

    fn prefix_len(&self) -> u32 {
        self.view.prefix_len()
    }

    fn data_bitmap(&self) -> u32 {
        self.view.data_bitmap()
    }

    fn child_bitmap(&self) -> u32 {
        self.view.child_bitmap()
    }

    fn get_data(&mut self, bit: u32) -> Result<X, NoMemory> {
        let item = self.view.get_data(bit)?;
        item.clone_with()
    }

    fn get_child<S>(&mut self, bit: u32, steps: &mut Steps<S>) -> Result<Self, NoMemory> {
        let view = self.view.get_child(bit, steps)?;
        Ok(ClonedView {
            view,
            of: PhantomData,
        })
    }

    fn reposition(&mut self, key: <V::P as PlainPrefix>::Number, prefix_len: u32) {
        self.view.reposition(key, prefix_len);
    }

    fn frugal(&self) -> bool {
        false
    }

    ghost laws = { λ v ok.
        mapped_laws V.P.Number.width (PointsTo V.item (λ r. r.now)) false
        (V.told v.view) (V.laws v.view ok.0) (target_function V.item (λ r. r.now) V.onto ok.1) };

    ghost onto = { λ x. (x, λ i. x) };
}

impl<'a, X: TryClone + Drop, V: CloneView<'a, T = &'a X>> CloneView<'a> for ClonedView<'a, V, X> {
    fn clone_view(&self) -> Result<Self, NoMemory> {
        let view = self.view.clone_view()?;
        Ok(ClonedView {
            view,
            of: PhantomData,
        })
    }
}

impl<'a, X: TryClone + Drop, V: TrieView<'a, T = &'a X>> AsView<'a> for ClonedView<'a, V, X> {
    type View = ClonedView<'a, V, X>;

    ghost can_view = { λ v. ⟦<ClonedView<'a, V, X> as TrieView<'a>>⟧.valid v };

    ghost stands_for = { λ view v. view ≡ v };

    fn view(self) -> ClonedView<'a, V, X> {
        self
    }

    ghost stands_law = { λ a b v. show_equal ⟦<ClonedView<'a, V, X> as TrieView<'a>>⟧.told a b v };
}
