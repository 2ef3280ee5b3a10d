//! The pairs of either view.

ghost use Rattle.std.specs.Prelude.{◌≡◌, ℕ, ◌+◌, ◌<◌, ◌≤◌};
ghost use Rattle.trie_model.specs.Nets.{Net, IsNet, net_of};
ghost use Rattle.trie_model.specs.Tries.{Cleared};
ghost use Rattle.trie_model.specs.Views.{depth_at};
ghost use Rattle.trie_model.proofs.Places.{show_equal};
ghost use Rattle.view_model.specs.Sides.{HasRoomForChild, IsInnerSide, IsUsableSide};
ghost use Rattle.view_model.specs.Union.{HasSomeSide, IsJoined, either_child_bits, either_data_bits};
ghost use Rattle.view_model.specs.Union.{union_told, union_value};
ghost use Rattle.view_model.specs.declared.items.UnionItem.{UnionItem};
ghost use Rattle.view_model.proofs.UnionLaws.{union_value_onto, union_laws};

use crate::side::{
    side_child, side_children, side_clone, side_data, side_frugal, side_move, side_take,
};
use nl_core::NoMemory;
use std::marker::PhantomData;
use trie_map::{AsView, CloneView, KeyBits, PlainPrefix, Steps, TrieView, extend_repr};
use view_model::UnionItem;

/// The pairs of either view, with the items of both where both have the prefix. Its place contains
/// those of both. It keeps the bits of either side in the node.
#[derive(Drop)]
pub struct UnionView<'a, P: PlainPrefix, L, R> {
    pub(crate) key: P::Number,
    pub(crate) len: u32,
    pub(crate) left: Option<L>,
    pub(crate) right: Option<R>,
    pub(crate) data_bitmap: u32,
    pub(crate) child_bitmap: u32,
    pub(crate) of: PhantomData<&'a ()>,
}

/// The data bits of either side in the node at this depth.
pub(crate) fn either_data<'a, L: TrieView<'a>, R: TrieView<'a, P = L::P>>(
    left: &Option<L>,
    right: &Option<R>,
    depth: u32,
) -> u32
    requires left { IsUsableSide L.valid left.now }
    requires right { IsUsableSide R.valid right.now }
    ensures { result ≡ either_data_bits L.told R.told depth left.now right.now }
{
    side_data(left, depth) | side_data(right, depth)
}

/// The children of the node at this depth below which either side may have a pair.
pub(crate) fn either_children<'a, L: TrieView<'a>, R: TrieView<'a, P = L::P>>(
    left: &Option<L>,
    right: &Option<R>,
    depth: u32,
) -> u32
    requires left { IsUsableSide L.valid left.now }
    requires right { IsUsableSide R.valid right.now }
    requires left_room { HasRoomForChild L.told L.P.Number.width depth left.now }
    requires right_room { HasRoomForChild R.told L.P.Number.width depth right.now }
    ensures { result ≡ either_child_bits L.told R.told L.P.Number.width depth left.now right.now }
{
    side_children(left, depth) | side_children(right, depth)
}

/// The bits that are left after one was taken.
pub(crate) fn without(bitmap: u32, bit: u32) -> u32
    requires { bit < 32 }
    ensures { Cleared bit bitmap result }
{
    bitmap & !(1 << bit)
}

/// The item of either side, or of both.
pub(crate) fn join<A: Drop, B: Drop>(left: Option<A>, right: Option<B>) -> UnionItem<A, B>
    requires { HasSomeSide left right }
    ensures { IsJoined left right result }
{
    match left {
        Some(left) => match right {
            Some(right) => UnionItem::Both(left, right),
            None => UnionItem::Left(left),
        },
        None => match right {
            Some(right) => UnionItem::Right(right),
            None => unreachable!(),
        },
    }
}

impl<'a, L: TrieView<'a>, R: TrieView<'a, P = L::P>> TrieView<'a> for UnionView<'a, L::P, L, R> {
    type P = L::P;

    type T = UnionItem<L::T, R::T>;

    ghost Item = { UnionItem L.Item R.Item };

    ghost item = { union_value L.item R.item };

    ghost valid = { λ v.
        IsNet L.P.Number.width (net_of (L.P.Number.number v.key) v.len)
        × IsInnerSide L.valid L.told L.P.Number.width (net_of (L.P.Number.number v.key) v.len) v.left
        × IsInnerSide R.valid R.told L.P.Number.width (net_of (L.P.Number.number v.key) v.len) v.right
        × (v.data_bitmap ≡ either_data_bits L.told R.told (depth_at v.len) v.left v.right)
        × (v.child_bitmap ≡ either_child_bits L.told R.told L.P.Number.width (depth_at v.len) v.left v.right) };

    ghost told = { λ v.
        union_told L.P.Number.width L.told R.told (net_of (L.P.Number.number v.key) v.len) v.left v.right };

    ghost cost = { L.cost + R.cost };

    fn depth(&self) -> u32 {
        self.len / 5 * 5
    }

    fn key(&self) -> <L::P as PlainPrefix>::Number {
        self.key
    }

    fn prefix_len(&self) -> u32 {
        self.len
    }

    fn data_bitmap(&self) -> u32 {
        self.data_bitmap
    }

    fn child_bitmap(&self) -> u32 {
        self.child_bitmap
    }

    fn get_data(&mut self, bit: u32) -> Result<UnionItem<L::T, R::T>, NoMemory> {
        let depth = self.len / 5 * 5;
        let left = side_take(&mut self.left, depth, bit)?;
        let right = side_take(&mut self.right, depth, bit)?;
        self.data_bitmap = without(self.data_bitmap, bit);
        Ok(join(left, right))
    }

    fn get_child<S>(&mut self, bit: u32, steps: &mut Steps<S>) -> Result<Self, NoMemory> {
        let _width = <<L::P as PlainPrefix>::Number as KeyBits>::bits();
        let depth = self.len / 5 * 5;
        let key = extend_repr(self.key, depth, bit);
        let left = side_child(&mut self.left, depth, bit, steps)?;
        let right = side_child(&mut self.right, depth, bit, steps)?;
        self.child_bitmap = without(self.child_bitmap, bit);
        Ok(UnionView {
            data_bitmap: either_data(&left, &right, depth + 5),
            child_bitmap: either_children(&left, &right, depth + 5),
            key,
            len: depth + 5,
            left,
            right,
            of: PhantomData,
        })
    }

    fn reposition(&mut self, key: <L::P as PlainPrefix>::Number, prefix_len: u32) {
        side_move(&mut self.left, key, prefix_len);
        side_move(&mut self.right, key, prefix_len);
        let depth = prefix_len / 5 * 5;
        self.data_bitmap = either_data(&self.left, &self.right, depth);
        self.child_bitmap = either_children(&self.left, &self.right, depth);
        self.key = key;
        self.len = prefix_len;
    }

    fn frugal(&self) -> bool {
        side_frugal(&self.left) && side_frugal(&self.right)
    }

    ghost laws = { λ v ok.
        union_laws L.P.Number.width L.valid L.told L.laws R.valid R.told R.laws
        (net_of (L.P.Number.number v.key) v.len) v.left v.right ok.0 ok.1 ok.2 };

    ghost onto = { union_value_onto L.item R.item L.onto R.onto };
}

impl<'a, L: CloneView<'a>, R: CloneView<'a, P = L::P>> CloneView<'a> for UnionView<'a, L::P, L, R> {
    fn clone_view(&self) -> Result<Self, NoMemory> {
        let left = side_clone(&self.left)?;
        let right = side_clone(&self.right)?;
        Ok(UnionView {
            key: self.key,
            len: self.len,
            left,
            right,
            data_bitmap: self.data_bitmap,
            child_bitmap: self.child_bitmap,
            of: PhantomData,
        })
    }
}

impl<'a, L: TrieView<'a>, R: TrieView<'a, P = L::P>> AsView<'a> for UnionView<'a, L::P, L, R> {
    type View = UnionView<'a, L::P, L, R>;

    ghost can_view = { λ v. ⟦<UnionView<'a, L::P, L, R> as TrieView<'a>>⟧.valid v };

    ghost stands_for = { λ view v. view ≡ v };

    fn view(self) -> UnionView<'a, L::P, L, R> {
        self
    }

    ghost stands_law = { λ a b v. show_equal ⟦<UnionView<'a, L::P, L, R> as TrieView<'a>>⟧.told a b v };
}
