//! The view through a function.

ghost use Rattle.std.specs.Prelude.{◌≡◌, ℕ, ◌+◌, ◌≤◌, IsTrue, IfOk, IsOk};
ghost use Rattle.trie_model.proofs.Places.{show_equal};
ghost use Rattle.trie_adapters.specs.Answers.{AnswersByItem};
ghost use Rattle.trie_adapters.specs.Mapped.{mapped, AnswersOf};
ghost use Rattle.trie_adapters.specs.MappedLaws.{mapped_laws, answers_function};

use nl_core::NoMemory;
use std::marker::PhantomData;
use trie_map::{AsView, CloneView, PlainPrefix, Steps, TrieView};

/// A view with the same prefixes, whose items are what a function answers of those of another view.
#[derive(Drop)]
pub struct MapView<'a, V, F, U> {
    pub(crate) view: V,
    pub(crate) by: F,
    pub(crate) of: PhantomData<&'a U>,
}

impl<'a, V: TrieView<'a>, U: Drop, F: Fn(V::T) -> U + Copy> TrieView<'a> for MapView<'a, V, F, U> {
    type P = V::P;

    type T = U;

    ghost Item = { U };

    ghost item = { λ u. u };

    ghost valid = { λ v. V.valid v.view × F.IsAlwaysCallable v.by × AnswersByItem V.item (F.post v.by) };

    ghost told = { λ v. mapped (AnswersOf V.item (F.post v.by)) (V.told v.view).frugal (V.told v.view) };

    ghost cost = { V.cost };

    fn depth(&self) -> u32 {
        self.view.depth()
    }

    fn key(&self) -> <V::P as PlainPrefix>::Number {
        self.view.key()
    }

    fn prefix_len(&self) -> u32 {
        self.view.prefix_len()
    }

    fn data_bitmap(&self) -> u32 {
        self.view.data_bitmap()
    }

    fn child_bitmap(&self) -> u32 {
        self.view.child_bitmap()
    }

    fn get_data(&mut self, bit: u32) -> Result<U, NoMemory> {
        let x = self.view.get_data(bit)?;
        Ok((self.by)(x))
    }

    fn get_child<S>(&mut self, bit: u32, steps: &mut Steps<S>) -> Result<Self, NoMemory> {
        let view = self.view.get_child(bit, steps)?;
        Ok(MapView {
            view,
            by: self.by,
            of: PhantomData,
        })
    }

    fn reposition(&mut self, key: <V::P as PlainPrefix>::Number, prefix_len: u32) {
        self.view.reposition(key, prefix_len);
    }

    fn frugal(&self) -> bool {
        self.view.frugal()
    }

    ghost laws = { λ v ok.
        mapped_laws V.P.Number.width (AnswersOf V.item (F.post v.by)) (V.told v.view).frugal
        (V.told v.view) (V.laws v.view ok.0) (answers_function V.item (F.post v.by) V.onto ok.2) };

    ghost onto = { λ x. (x, λ i. x) };
}

impl<'a, V: CloneView<'a>, U: Drop, F: Fn(V::T) -> U + Copy> CloneView<'a>
    for MapView<'a, V, F, U> {
    fn clone_view(&self) -> Result<Self, NoMemory> {
        let view = self.view.clone_view()?;
        Ok(MapView {
            view,
            by: self.by,
            of: PhantomData,
        })
    }
}

impl<'a, V: TrieView<'a>, U: Drop, F: Fn(V::T) -> U + Copy> AsView<'a> for MapView<'a, V, F, U> {
    type View = MapView<'a, V, F, U>;

    ghost can_view = { λ v. ⟦<MapView<'a, V, F, U> as TrieView<'a>>⟧.valid v };

    ghost stands_for = { λ view v. view ≡ v };

    fn view(self) -> MapView<'a, V, F, U> {
        self
    }

    ghost stands_law = { λ a b v. show_equal ⟦<MapView<'a, V, F, U> as TrieView<'a>>⟧.told a b v };
}
