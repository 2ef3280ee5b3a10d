//! The pairs of either view, those of one alone with the longest pair of the other that contains their prefix.

ghost use Rattle.std.specs.Prelude.{◌≡◌, ◌↔◌, ℕ, ◌+◌, ◌<◌, ◌≤◌, ◌&&◌, IsTrue, IfOk, IsOk};
ghost use Rattle.trie_model.specs.Nets.{Net, IsNet, masked};
ghost use Rattle.trie_model.specs.Views.{depth_at};
ghost use Rattle.trie_model.proofs.Places.{show_equal};
ghost use Rattle.view_model.specs.Sides.{IsInnerSide, IsAlignedSide, IsUsableSide, side_frugal};
ghost use Rattle.view_model.specs.Union.{IsLongestCommon, either_child_bits, either_data_bits};
ghost use Rattle.view_model.specs.CoveringUnion.{HasPlainPairs, InNode, IsPairAbove, WithLongest, WithPrefixes};
ghost use Rattle.view_model.specs.CoveringUnion.{covering_pairs, covering_told, covering_value, pair_value};
ghost use Rattle.view_model.specs.LongestMatch.{net_of};
ghost use Rattle.view_model.specs.Pairs.{GivesPairs};
ghost use Rattle.view_model.specs.Through.{through_told};
ghost use Rattle.view_model.specs.declared.items.CoveringUnionItem.{CoveringUnionItem};
ghost use Rattle.view_model.proofs.CoveringItems.{covering_onto, covering_view_laws};

use crate::common::common_len;
use crate::longest::longest_here;
use crate::side::{side_child, side_clone, side_frugal, side_move, side_take};
use crate::union::{either_children, either_data, join, without};
use nl_core::NoMemory;
use std::marker::PhantomData;
use trie_map::{
    AsView, CloneView, KeyBits, PlainPrefix, Steps, TrieView, extend_repr, reconstruct_prefix,
};
use view_model::{CoveringUnionItem, UnionItem};

/// The pairs of either view, those of one alone with the longest pair of the other that contains their
/// prefix. Beside each side it keeps a copy of that side at the node, from which nothing is taken, and
/// the longest pair of the side above the node that contains it.
#[derive(Drop)]
pub struct CoveringUnionView<'a, P: PlainPrefix, L, R, S, T> {
    pub(crate) key: P::Number,
    pub(crate) len: u32,
    pub(crate) left: Option<L>,
    pub(crate) right: Option<R>,
    pub(crate) data_bitmap: u32,
    pub(crate) child_bitmap: u32,
    pub(crate) left_all: Option<L>,
    pub(crate) right_all: Option<R>,
    pub(crate) left_above: Option<(P, S)>,
    pub(crate) right_above: Option<(P, T)>,
    pub(crate) of: PhantomData<&'a ()>,
}

/// The covering union of two views.
type CoveringUnionOf<'a, L, R> = CoveringUnionView<
    'a,
    <L as TrieView<'a>>::P,
    L,
    R,
    <L as TrieView<'a>>::T,
    <R as TrieView<'a>>::T,
>;

/// A union's item with the longest pair of the other side that contains its prefix.
fn with_longest<'a, L: CloneView<'a>, R: CloneView<'a, P = L::P>>(
    item: UnionItem<L::T, R::T>,
    left_all: &Option<L>,
    right_all: &Option<R>,
    depth: u32,
    key: <L::P as PlainPrefix>::Number,
    len: u32,
    left_above: Option<(L::P, L::T)>,
    right_above: Option<(L::P, R::T)>,
) -> Result<CoveringUnionItem<L::P, L::T, R::T>, NoMemory>
    requires left { IsUsableSide L.valid left_all.now }
    requires right { IsUsableSide R.valid right_all.now }
    requires net { IsNet L.P.Number.width (net_of (L.P.Number.number key) len) }
    requires low { depth ≤ len }
    requires left_above { IsPairAbove L.P.Number.width L.P.net L.P.raw left_above }
    requires right_above { IsPairAbove L.P.Number.width L.P.net L.P.raw right_above }
    ensures plain { IfOk result (λ found. HasPlainPairs L.P.net L.P.raw found) }
    ensures with_longest { (place : Net) → depth_at place.len ≡ depth
        → IsAlignedSide L.valid L.told L.P.Number.width place left_all.now
        → IsAlignedSide R.valid R.told L.P.Number.width place right_all.now
        → masked L.P.Number.width (L.P.Number.number key) depth ≡ masked L.P.Number.width place.bits depth
        → IfOk result (λ found. WithLongest L.P.Number.width L.P.net L.item R.item
        (InNode L.told left_all.now depth) (InNode R.told right_all.now depth) left_above right_above
        (net_of (L.P.Number.number key) len) item found) }
    ensures frugal { IsTrue (side_frugal L.told left_all.now && side_frugal R.told right_all.now) → IsOk result }
{
    match item {
        UnionItem::Left(left) => {
            let right_lpm = longest_here(right_all, depth, key, len, right_above)?;
            Ok(CoveringUnionItem::Left { left, right_lpm })
        }
        UnionItem::Right(right) => {
            let left_lpm = longest_here(left_all, depth, key, len, left_above)?;
            Ok(CoveringUnionItem::Right { left_lpm, right })
        }
        UnionItem::Both(left, right) => Ok(CoveringUnionItem::Both { left, right }),
    }
}

impl<'a, L: CloneView<'a>, R: CloneView<'a, P = L::P>> TrieView<'a>
    for CoveringUnionView<'a, L::P, L, R, L::T, R::T>
where
    L::T: Copy,
    R::T: Copy,
{
    type P = L::P;

    type T = CoveringUnionItem<L::P, L::T, R::T>;

    ghost Item = { CoveringUnionItem L.P L.Item R.Item };

    ghost item = { covering_value (λ p. p) L.item R.item };

    ghost valid = { λ v.
        IsNet L.P.Number.width (net_of (L.P.Number.number v.key) v.len)
        × IsInnerSide L.valid L.told L.P.Number.width (net_of (L.P.Number.number v.key) v.len) v.left
        × IsInnerSide R.valid R.told L.P.Number.width (net_of (L.P.Number.number v.key) v.len) v.right
        × IsAlignedSide L.valid L.told L.P.Number.width (net_of (L.P.Number.number v.key) v.len) v.left_all
        × IsAlignedSide R.valid R.told L.P.Number.width (net_of (L.P.Number.number v.key) v.len) v.right_all
        × IsPairAbove L.P.Number.width L.P.net L.P.raw v.left_above
        × IsPairAbove L.P.Number.width L.P.net L.P.raw v.right_above
        × (v.data_bitmap ≡ either_data_bits L.told R.told (depth_at v.len) v.left v.right)
        × (v.child_bitmap ≡ either_child_bits L.told R.told L.P.Number.width (depth_at v.len) v.left v.right) };

    ghost told = { λ v.
        through_told (WithPrefixes L.P.net L.P.raw)
        (covering_told L.P.Number.width L.told R.told (net_of (L.P.Number.number v.key) v.len) v.left v.right
        (record { all = v.left_all; above = pair_value L.P.net L.item v.left_above })
        (record { all = v.right_all; above = pair_value L.P.net R.item v.right_above })) };

    ghost cost = { L.cost + R.cost };

    fn depth(&self) -> u32 {
        self.len / 5 * 5
    }

    fn key(&self) -> <L::P as PlainPrefix>::Number {
        self.key
    }

    fn prefix_len(&self) -> u32 {
        self.len
    }

    fn data_bitmap(&self) -> u32 {
        self.data_bitmap
    }

    fn child_bitmap(&self) -> u32 {
        self.child_bitmap
    }

    fn get_data(&mut self, bit: u32) -> Result<CoveringUnionItem<L::P, L::T, R::T>, NoMemory> {
        let depth = self.len / 5 * 5;
        let left = side_take(&mut self.left, depth, bit)?;
        let right = side_take(&mut self.right, depth, bit)?;
        self.data_bitmap = without(self.data_bitmap, bit);
        let prefix: L::P = reconstruct_prefix(depth, self.key, bit);
        let key = prefix.number();
        let len = prefix.length() as u32;
        let item = with_longest(
            join(left, right),
            &self.left_all,
            &self.right_all,
            depth,
            key,
            len,
            self.left_above,
            self.right_above,
        )?;
        Ok(item)
    }

    fn get_child<S>(&mut self, bit: u32, steps: &mut Steps<S>) -> Result<Self, NoMemory> {
        let _width = <<L::P as PlainPrefix>::Number as KeyBits>::bits();
        let depth = self.len / 5 * 5;
        let key = extend_repr(self.key, depth, bit);
        let left_above = longest_here(&self.left_all, depth, key, depth + 5, self.left_above)?;
        let right_above = longest_here(&self.right_all, depth, key, depth + 5, self.right_above)?;
        let left = side_child(&mut self.left, depth, bit, steps)?;
        let right = side_child(&mut self.right, depth, bit, steps)?;
        let left_all = side_clone(&left)?;
        let right_all = side_clone(&right)?;
        self.child_bitmap = without(self.child_bitmap, bit);
        Ok(CoveringUnionView {
            data_bitmap: either_data(&left, &right, depth + 5),
            child_bitmap: either_children(&left, &right, depth + 5),
            key,
            len: depth + 5,
            left,
            right,
            left_all,
            right_all,
            left_above,
            right_above,
            of: PhantomData,
        })
    }

    fn reposition(&mut self, key: <L::P as PlainPrefix>::Number, prefix_len: u32) {
        side_move(&mut self.left, key, prefix_len);
        side_move(&mut self.right, key, prefix_len);
        let depth = prefix_len / 5 * 5;
        self.data_bitmap = either_data(&self.left, &self.right, depth);
        self.child_bitmap = either_children(&self.left, &self.right, depth);
        self.key = key;
        self.len = prefix_len;
    }

    fn frugal(&self) -> bool {
        side_frugal(&self.left)
            && side_frugal(&self.right)
            && (side_frugal(&self.left_all) && side_frugal(&self.right_all))
    }

    ghost laws = { λ v ok.
        covering_view_laws L.P.Number.width L.P.net L.P.raw L.P.one_law L.P.net_onto
        L.valid L.told L.laws L.item R.valid R.told R.laws R.item
        (net_of (L.P.Number.number v.key) v.len) v.left v.right v.left_all v.right_all v.left_above v.right_above
        ok.0 ok.1 ok.2 ok.3 ok.4 ok.5 ok.6 };

    ghost onto = { covering_onto L.item R.item L.onto R.onto };
}

impl<'a, L: CloneView<'a>, R: CloneView<'a, P = L::P>> CloneView<'a>
    for CoveringUnionView<'a, L::P, L, R, L::T, R::T>
where
    L::T: Copy,
    R::T: Copy,
{
    fn clone_view(&self) -> Result<Self, NoMemory> {
        let left = side_clone(&self.left)?;
        let right = side_clone(&self.right)?;
        let left_all = side_clone(&self.left_all)?;
        let right_all = side_clone(&self.right_all)?;
        Ok(CoveringUnionView {
            key: self.key,
            len: self.len,
            left,
            right,
            data_bitmap: self.data_bitmap,
            child_bitmap: self.child_bitmap,
            left_all,
            right_all,
            left_above: self.left_above,
            right_above: self.right_above,
            of: PhantomData,
        })
    }
}

impl<'a, L: CloneView<'a>, R: CloneView<'a, P = L::P>> AsView<'a>
    for CoveringUnionView<'a, L::P, L, R, L::T, R::T>
where
    L::T: Copy,
    R::T: Copy,
{
    type View = CoveringUnionView<'a, L::P, L, R, L::T, R::T>;

    ghost can_view = { λ v. ⟦<CoveringUnionView<'a, L::P, L, R, L::T, R::T> as TrieView<'a>>⟧.valid v };

    ghost stands_for = { λ view v. view ≡ v };

    fn view(self) -> CoveringUnionView<'a, L::P, L, R, L::T, R::T> {
        self
    }

    ghost stands_law = { λ a b v.
        show_equal ⟦<CoveringUnionView<'a, L::P, L, R, L::T, R::T> as TrieView<'a>>⟧.told a b v };
}

/// The pairs of either view, at the longest prefix that contains both places, those of one alone with the
/// longest pair of the other that contains their prefix.
pub(crate) fn covering_union_of<'a, L: CloneView<'a>, R: CloneView<'a, P = L::P>>(
    left: L,
    right: R,
) -> Result<CoveringUnionOf<'a, L, R>, NoMemory>
where
    L::T: Copy,
    R::T: Copy,
    requires left { L.valid left }
    requires right { R.valid right }
    ensures usable { IfOk result (λ v. ⟦<CoveringUnionOf<'a, L, R> as TrieView<'a>>⟧.valid v) }
    ensures place { IfOk result (λ v.
        IsLongestCommon L.P.Number.width (L.told left).place (R.told right).place
        (⟦<CoveringUnionOf<'a, L, R> as TrieView<'a>>⟧.told v).place) }
    ensures pairs { GivesPairs ⟦<CoveringUnionOf<'a, L, R> as TrieView<'a>>⟧.told result
        (covering_pairs L.P.Number.width L.P.net L.P.raw (L.told left) (R.told right)) }
    ensures frugal { IsTrue ((L.told left).frugal && (R.told right).frugal) → IsOk result }
{
    let key = left.key();
    let len = left.prefix_len();
    let other_key = right.key();
    let other_len = right.prefix_len();
    let common = common_len(key, len, other_key, other_len);
    let common_key = key.first_bits(common);
    let left_all = left.clone_view()?;
    let right_all = right.clone_view()?;
    let left = Some(left);
    let right = Some(right);
    let depth = common / 5 * 5;
    Ok(CoveringUnionView {
        data_bitmap: either_data(&left, &right, depth),
        child_bitmap: either_children(&left, &right, depth),
        key: common_key,
        len: common,
        left,
        right,
        left_all: Some(left_all),
        right_all: Some(right_all),
        left_above: None,
        right_above: None,
        of: PhantomData,
    })
}

/// The calls of every view that can be had again, with a second one.
pub trait CloneViewPairs<'a, R: CloneView<'a, P = <Self as TrieView<'a>>::P>>: CloneView<'a>
where
    <Self as TrieView<'a>>::T: Copy,
    R::T: Copy,
{
    /// The pairs of either view, at the longest prefix that contains both places, those of one alone with
    /// the longest pair of the other that contains their prefix.
    fn covering_union(self, other: R) -> Result<CoveringUnionOf<'a, Self, R>, NoMemory>
        requires usable { Self.TrieView.valid self }
        requires other { R.valid other }
        ensures usable { IfOk result
            ⟦<CoveringUnionOf<'a, Self, R> as TrieView<'a>>⟧.valid }
        ensures place { IfOk result (λ v.
            IsLongestCommon Self.P.Number.width (Self.TrieView.told self).place (R.told other).place
            (⟦<CoveringUnionOf<'a, Self, R> as TrieView<'a>>⟧.told v).place) }
        ensures pairs { GivesPairs
            ⟦<CoveringUnionOf<'a, Self, R> as TrieView<'a>>⟧.told result
            (covering_pairs Self.P.Number.width Self.P.net Self.P.raw (Self.TrieView.told self) (R.told other)) }
        ensures frugal { IsTrue ((Self.TrieView.told self).frugal && (R.told other).frugal) → IsOk result };
}

impl<'a, V: CloneView<'a>, R: CloneView<'a, P = V::P>> CloneViewPairs<'a, R> for V
where
    V::T: Copy,
    R::T: Copy,
{
    fn covering_union(self, other: R) -> Result<CoveringUnionOf<'a, V, R>, NoMemory> {
        covering_union_of(self, other)
    }
}
