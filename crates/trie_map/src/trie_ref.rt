//! The plain view of a trie.

ghost use Rattle.trie_map.specs.Shape.{node_shape};
ghost use Rattle.trie_model.specs.Maps.{pairs};
ghost use Rattle.trie_model.specs.Inside.{SomeIn};
ghost use Rattle.trie_model.specs.Nets.{net_of};
ghost use Rattle.trie_model.specs.Views.{root_place};
ghost use Rattle.trie_model.specs.Tries.{Cleared, Full, Good};
ghost use Rattle.trie_model.proofs.Places.{show_equal};
ghost use Rattle.trie_model.proofs.TrieLaws.{ref_laws};
ghost use Rattle.std.specs.Int.{bit_at};
ghost use Rattle.std.specs.Prelude.{refl, ◌≡◌, ℕ, ◌+◌, ◌-◌, ◌^◌, ◌<◌, ◌≤◌, min, IfNone, IfOk, IfSome, IsOk, IsTrue, OnOk, OnSome};
ghost use Rattle.trie_map.specs.TrieRefs.{list_of_trie, IsRef, ref_value, HasPairsOf, HasPairsInTrie, IsRefChild, TookRefChild, IsRefAt};

use crate::masks::{child_cover_mask, data_cover_mask};
use crate::node::{Node, Steps, Visited, node_of, visit};
use crate::prefix::{KeyBits, PlainPrefix};
use crate::view::{AsView, CloneView, TrieView};
use nl_core::NoMemory;
use std::marker::PhantomData;

/// The bits without one.
fn without(bitmap: u32, bit: u32) -> u32
    requires { bit < 32 }
    ensures { Cleared bit bitmap result }
{
    bitmap & !(1 << bit)
}

/// A place in a trie, with the bits of its node that are still to be taken.
#[derive(Drop)]
pub struct TrieRef<'a, P: PlainPrefix, T> {
    pub(crate) node: Visited<'a, T>,
    pub(crate) key: P::Number,
    pub(crate) len: u32,
    pub(crate) data_bitmap: u32,
    pub(crate) child_bitmap: u32,
    pub(crate) of: PhantomData<P>,
}

/// The view of a whole trie. It visits the root.
pub(crate) fn root_view<'a, P: PlainPrefix, T, L>(
    node: &'a Node<T>,
    steps: &mut Steps<L>,
) -> TrieRef<'a, P, T>
    requires good { (k : ℕ) → Good node_shape P.Number.width k 0 node.now }
    requires full { (k : ℕ) → Full node_shape k node.now }
    ensures usable { ⟦<TrieRef<'a, P, T> as TrieView<'a>>⟧.valid result }
    ensures place { IsRefAt P.Number.number P.Number.width root_place result }
    ensures pairs { HasPairsOf P.Number.number P.Number.width (list_of_trie P.Number.width node.now) result }
    ensures counted { steps.new ≡ min (steps.old + 1) (2 ^ 64 - 1) }
{
    let root = visit(node, steps);
    TrieRef {
        key: P::Number::zero(),
        len: 0,
        data_bitmap: root.data_bitmap(),
        child_bitmap: root.child_bitmap(),
        node: root,
        of: PhantomData,
    }
}

/// The view of what lies in a prefix of a whole trie, if anything does.
pub(crate) fn view_inside<'a, P: PlainPrefix, T>(
    node: &'a Node<T>,
    prefix: &P,
) -> Option<TrieRef<'a, P, T>>
    requires good { (k : ℕ) → Good node_shape P.Number.width k 0 node.now }
    requires full { (k : ℕ) → Full node_shape k node.now }
    requires len { (P.net prefix.now).len ≤ P.Number.width }
    ensures found { OnSome result (SomeIn P.Number.width (P.net prefix.now) (list_of_trie P.Number.width node.now)) }
    ensures none { IfNone result (¬ SomeIn P.Number.width (P.net prefix.now) (list_of_trie P.Number.width node.now)) }
    ensures usable { IfSome result (λ view. ⟦<TrieRef<'a, P, T> as TrieView<'a>>⟧.valid view) }
    ensures place { IfSome result (IsRefAt P.Number.number P.Number.width (P.net prefix.now)) }
    ensures pairs { IfSome result (HasPairsInTrie P.Number.number P.Number.width (P.net prefix.now) node.now) }
{
    let key = prefix.number();
    let len = prefix.length() as u32;
    let Some(node) = node_of(node, 0, key, len, &mut Steps::start()) else {
        return None;
    };
    let depth = len / 5 * 5;
    let data_bitmap = node.data_bitmap() & data_cover_mask(depth, key, len);
    let child_bitmap = node.child_bitmap() & child_cover_mask(depth, key, len);
    if data_bitmap == 0 && child_bitmap == 0 {
        return None;
    }
    Some(TrieRef {
        node,
        key,
        len,
        data_bitmap,
        child_bitmap,
        of: PhantomData,
    })
}

impl<'a, P: PlainPrefix, T> TrieView<'a> for TrieRef<'a, P, T> {
    type P = P;

    type T = &'a T;

    ghost Item = { T };

    ghost item = { λ r. r.now };

    ghost valid = { IsRef P.Number.number P.Number.width };

    ghost told = { ref_value P.Number.number P.Number.width };

    ghost cost = { 1 };

    fn depth(&self) -> u32 {
        self.len / 5 * 5
    }

    fn key(&self) -> P::Number {
        self.key
    }

    fn prefix_len(&self) -> u32 {
        self.len
    }

    fn data_bitmap(&self) -> u32 {
        self.data_bitmap
    }

    fn child_bitmap(&self) -> u32 {
        self.child_bitmap
    }

    fn get_data(&mut self, bit: u32) -> Result<&'a T, NoMemory> {
        self.data_bitmap = without(self.data_bitmap, bit);
        Ok(self.node.item(bit))
    }

    fn get_child<S>(&mut self, bit: u32, steps: &mut Steps<S>) -> Result<Self, NoMemory>
        requires usable { ⟦<TrieRef<'a, P, T> as TrieView<'a>>⟧.valid self.old }
        requires set { bit_at (ref_value P.Number.number P.Number.width self.old).child_bits bit ≡ 1 }
        ensures child { IfOk result (IsRefChild P.Number.number P.Number.width bit self.old) }
        ensures usable { OnOk result (⟦<TrieRef<'a, P, T> as TrieView<'a>>⟧.valid self.new) }
        ensures rest { OnOk result (TookRefChild P.Number.number P.Number.width bit self.old self.new) }
        ensures forward { steps.old ≤ steps.new }
        ensures cost { steps.new ≤ steps.old + 1 }
        ensures frugal { IsTrue (ref_value P.Number.number P.Number.width self.old).frugal → IsOk result }
        ensures counted { steps.new ≡ min (steps.old + 1) (2 ^ 64 - 1) }
    {
        let _width = <P::Number as KeyBits>::bits();
        let key = self.key.with_bits(self.len / 5 * 5, 5, bit);
        self.child_bitmap = without(self.child_bitmap, bit);
        let child = visit(self.node.child(bit), steps);
        Ok(TrieRef {
            key,
            len: self.len / 5 * 5 + 5,
            data_bitmap: child.data_bitmap(),
            child_bitmap: child.child_bitmap(),
            node: child,
            of: PhantomData,
        })
    }

    fn reposition(&mut self, key: P::Number, prefix_len: u32) {
        let depth = self.len / 5 * 5;
        self.data_bitmap &= data_cover_mask(depth, key, prefix_len);
        self.child_bitmap &= child_cover_mask(depth, key, prefix_len);
        self.key = key;
        self.len = prefix_len;
    }

    fn frugal(&self) -> bool {
        true
    }

    ghost laws = { λ v ok.
        ref_laws node_shape P.Number.width (net_of (P.Number.number v.key) v.len)
        v.data_bitmap v.child_bitmap v.node.node.now ok };

    ghost onto = { λ x. (record { ref_ptr = (0, 0); now = x }, refl) };
}

impl<'a, P: PlainPrefix, T> CloneView<'a> for TrieRef<'a, P, T> {
    fn clone_view(&self) -> Result<Self, NoMemory>
        ensures equal { IfOk result (λ copy. copy ≡ self.now) }
        ensures frugal { IsOk result }
    {
        Ok(TrieRef {
            node: self.node.again(),
            key: self.key,
            len: self.len,
            data_bitmap: self.data_bitmap,
            child_bitmap: self.child_bitmap,
            of: PhantomData,
        })
    }
}

impl<'a, P: PlainPrefix, T> AsView<'a> for TrieRef<'a, P, T> {
    type View = TrieRef<'a, P, T>;

    ghost can_view = { λ v. ⟦<TrieRef<'a, P, T> as TrieView<'a>>⟧.valid v };

    ghost stands_for = { λ view v. view ≡ v };

    fn view(self) -> TrieRef<'a, P, T> {
        self
    }

    ghost stands_law = { λ a b v. show_equal (ref_value P.Number.number P.Number.width) a b v };
}
