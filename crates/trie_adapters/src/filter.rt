//! The view of the items that a function accepts.

ghost use Rattle.std.specs.Prelude.{◌≡◌, ℕ, ◌+◌, ◌<◌, ◌≤◌, IsTrue, IfOk, IsOk};
ghost use Rattle.std.specs.Result.{OnOk};
ghost use Rattle.trie_model.proofs.Places.{show_equal};
ghost use Rattle.trie_adapters.specs.Filtered.{AcceptsPair, AnswersByPair, Filters, KeepsItems};
ghost use Rattle.trie_adapters.specs.Filtered.{TakesAccepted, filtered};
ghost use Rattle.trie_adapters.specs.FilterLaws.{filter_laws};

use crate::kept::Kept;
use nl_core::NoMemory;
use std::alloc::Global;
use std::marker::PhantomData;
use trie_map::{
    AsView, CloneView, KeyBits, PlainPrefix, Steps, TrieView, data_cover_mask, reconstruct_prefix,
};

/// A view of those pairs of another one that a function accepts. It tests the items of a node when it
/// comes to the node, and keeps them, since a getter takes an item out.
#[derive(Drop)]
pub struct FilterView<'a, V, T, F> {
    view: V,
    by: F,
    alloc: Global,
    data_bitmap: u32,
    kept: Kept<T>,
    of: PhantomData<&'a ()>,
}

// Takes the item of a data bit out, if there is one, and gives it where the function accepts it.
fn take_accepted<'a, V: TrieView<'a>, F: Fn(V::P, &V::T) -> bool>(
    view: &mut V,
    by: F,
    bit: u32,
) -> Result<Option<V::T>, NoMemory>
    requires usable { V.valid view.old }
    requires callable { F.IsAlwaysCallable by }
    requires answers { AnswersByPair V.item (F.post by) }
    requires bit { bit < 31 }
    ensures usable { OnOk result (V.valid view.new) }
    ensures taken { IfOk result
        (TakesAccepted V.item (AcceptsPair V.P.net V.P.raw V.item (F.post by)) V.P.Number.width bit
        (V.told view.old) (V.told view.new)) }
{
    if view.data_bitmap() >> bit & 1 == 0 {
        return Ok(None);
    }
    let prefix = reconstruct_prefix(view.depth(), view.key(), bit);
    let item = view.get_data(bit)?;
    if by(prefix, &item) {
        Ok(Some(item))
    } else {
        Ok(None)
    }
}

// The view of the pairs of a view that the function accepts.
pub(crate) fn filter_view<'a, V: TrieView<'a>, F: Fn(V::P, &V::T) -> bool + Copy>(
    alloc: Global,
    view: V,
    by: F,
) -> Result<FilterView<'a, V, V::T, F>, NoMemory>
    requires usable { V.valid view }
    requires callable { F.IsAlwaysCallable by }
    requires answers { AnswersByPair V.item (F.post by) }
    ensures usable { IfOk result (λ v. ⟦<FilterView<'a, V, V::T, F> as TrieView<'a>>⟧.valid v) }
    ensures filters { IfOk result (λ v.
        Filters (AcceptsPair V.P.net V.P.raw V.item (F.post by)) (V.told view)
        (⟦<FilterView<'a, V, V::T, F> as TrieView<'a>>⟧.told v)) }
{
    let mut rest = view;
    let mut kept = Kept::new(alloc);
    let mut data_bitmap = 0u32;
    let mut bit = 0u32;
    'bits: while rest.data_bitmap() != 0 {
        let accepted = take_accepted(&mut rest, by, bit)?;
        if accepted.is_some() {
            data_bitmap |= 1 << bit;
        }
        kept.push(accepted)?;
        bit += 1;
    }
    Ok(FilterView {
        view: rest,
        by,
        alloc,
        data_bitmap,
        kept,
        of: PhantomData,
    })
}

impl<'a, V: TrieView<'a>, F: Fn(V::P, &V::T) -> bool + Copy> TrieView<'a>
    for FilterView<'a, V, V::T, F> {
    type P = V::P;

    type T = V::T;

    ghost Item = { V.Item };

    ghost item = { V.item };

    ghost valid = { λ v.
        V.valid v.view × F.IsAlwaysCallable v.by × AnswersByPair V.item (F.post v.by)
        × KeepsItems V.P.Number.width v.data_bitmap v.kept (V.told v.view) };

    ghost told = { λ v.
        filtered V.item (AcceptsPair V.P.net V.P.raw V.item (F.post v.by)) V.P.Number.width
        v.data_bitmap v.kept (V.told v.view) };

    ghost cost = { V.cost };

    fn depth(&self) -> u32 {
        self.view.depth()
    }

    fn key(&self) -> <V::P as PlainPrefix>::Number {
        self.view.key()
    }

    fn prefix_len(&self) -> u32 {
        self.view.prefix_len()
    }

    fn data_bitmap(&self) -> u32 {
        self.data_bitmap
    }

    fn child_bitmap(&self) -> u32 {
        self.view.child_bitmap()
    }

    fn get_data(&mut self, bit: u32) -> Result<V::T, NoMemory> {
        self.data_bitmap &= !(1 << bit);
        Ok(self.kept.take(bit))
    }

    fn get_child<S>(&mut self, bit: u32, steps: &mut Steps<S>) -> Result<Self, NoMemory> {
        let child = self.view.get_child(bit, steps)?;
        filter_view(self.alloc, child, self.by)
    }

    fn reposition(&mut self, key: <V::P as PlainPrefix>::Number, prefix_len: u32) {
        self.data_bitmap &= data_cover_mask(self.view.depth(), key, prefix_len);
        self.view.reposition(key, prefix_len);
    }

    fn frugal(&self) -> bool {
        false
    }

    ghost laws = { λ v ok.
        filter_laws V.item (AcceptsPair V.P.net V.P.raw V.item (F.post v.by)) V.P.Number.width v.data_bitmap v.kept
        (V.told v.view) (V.laws v.view ok.0) ok.3 };

    ghost onto = { V.onto };
}

impl<'a, V: CloneView<'a>, F: Fn(V::P, &V::T) -> bool + Copy> CloneView<'a>
    for FilterView<'a, V, V::T, F>
where
    V::T: Copy,
{
    fn clone_view(&self) -> Result<Self, NoMemory> {
        let view = self.view.clone_view()?;
        let kept = self.kept.copied(self.alloc)?;
        Ok(FilterView {
            view,
            by: self.by,
            alloc: self.alloc,
            data_bitmap: self.data_bitmap,
            kept,
            of: PhantomData,
        })
    }
}

impl<'a, V: TrieView<'a>, F: Fn(V::P, &V::T) -> bool + Copy> AsView<'a>
    for FilterView<'a, V, V::T, F> {
    type View = FilterView<'a, V, V::T, F>;

    ghost can_view = { λ v. ⟦<FilterView<'a, V, V::T, F> as TrieView<'a>>⟧.valid v };

    ghost stands_for = { λ view v. view ≡ v };

    fn view(self) -> FilterView<'a, V, V::T, F> {
        self
    }

    ghost stands_law = { λ a b v. show_equal ⟦<FilterView<'a, V, V::T, F> as TrieView<'a>>⟧.told a b v };
}

/// The view of the pairs that a function accepts, after the crate prefix-trie.
pub trait FilterCalls<'a>: TrieView<'a> {
    /// The view of the pairs whose prefix and item the function accepts, at the same place. It has to answer
    /// as a function of the prefix and of what contracts see of the item. The items of a node are tested
    /// when a view comes to the node, which takes memory.
    fn filter<F: Fn(Self::P, &Self::T) -> bool + Copy>(
        self,
        alloc: Global,
        f: F,
    ) -> Result<FilterView<'a, Self, <Self as TrieView<'a>>::T, F>, NoMemory>
        requires usable { Self.valid self }
        requires callable { F.IsAlwaysCallable f }
        requires answers { AnswersByPair Self.item (F.post f) }
        ensures usable { IfOk result (λ v.
            ⟦<FilterView<'a, Self, <Self as TrieView<'a>>::T, F> as TrieView<'a>>⟧.valid v) }
        ensures filters { IfOk result (λ v.
            Filters (AcceptsPair Self.P.net Self.P.raw Self.item (F.post f)) (Self.told self)
            (⟦<FilterView<'a, Self, <Self as TrieView<'a>>::T, F> as TrieView<'a>>⟧.told v)) };
}

impl<'a, V: TrieView<'a>> FilterCalls<'a> for V {
    fn filter<F: Fn(Self::P, &Self::T) -> bool + Copy>(
        self,
        alloc: Global,
        f: F,
    ) -> Result<FilterView<'a, Self, <Self as TrieView<'a>>::T, F>, NoMemory> {
        filter_view(alloc, self, f)
    }
}
