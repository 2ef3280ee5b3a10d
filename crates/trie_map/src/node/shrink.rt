//! Removal from a trie. A child that is left with nothing is dropped.

ghost use Rattle.std.specs.Prelude.{◌≡◌, ℕ, ◌+◌, ◌<◌, ◌≤◌, length, count_ones};
ghost use Rattle.std.specs.Int.{bit_at};
ghost use Rattle.trie_map.specs.Shape.{node_shape, ChildrenFit};
ghost use Rattle.trie_model.specs.Nets.{IsNet, net_of};
ghost use Rattle.trie_model.specs.Puts.{TakeIn, TakenAt, KeepsBelow};
ghost use Rattle.trie_model.specs.Tries.{Good, Full, FullBut};

use super::{Node, child_toward, item_at, slot};
use crate::masks::data_bit;
use crate::prefix::KeyBits;

/// Takes the item of a set bit out, and gives the bitmap without the bit.
fn detach<X>(bitmap: u32, bit: u32, items: &mut Vec<X>) -> (u32, X)
    requires compact { length items.old.items ≡ count_ones bitmap }
    requires set { bit_at bitmap bit ≡ 1 }
    requires bit { bit < 32 }
    ensures { TakenAt bit result.1 bitmap items.old.items result.0 items.new.items }
{
    let item = items.remove(slot(bitmap, bit));
    (bitmap & !(1 << bit), item)
}

/// Takes an item out of the node itself.
fn take_here<W: KeyBits, T>(node: &mut Node<T>, depth: u32, key: W, len: u32) -> Option<T>
    requires good { (k : ℕ) → Good node_shape W.width k depth node.old }
    requires net { IsNet W.width (net_of (W.number key) len) }
    requires low { depth ≤ len }
    requires high { len < depth + 5 }
    ensures good { (k : ℕ) → Good node_shape W.width k depth node.new }
    ensures take { TakeIn node_shape W.width depth (net_of (W.number key) len) node.old node.new result }
    ensures child_bits { node_shape.child_bits node.new ≡ node_shape.child_bits node.old }
    ensures children { node_shape.children node.new ≡ node_shape.children node.old }
{
    let bit = data_bit(depth, key, len);
    if node.data_bitmap >> bit & 1 == 1 {
        let (data_bitmap, was) = detach(node.data_bitmap, bit, &mut node.items);
        node.data_bitmap = data_bitmap;
        return Some(was);
    }
    None
}

/// Drops the child of a set bit if it has nothing.
fn prune<T: Drop>(node: &mut Node<T>, bit: u32)
    requires compact { ChildrenFit node.old }
    requires set { bit_at (node_shape.child_bits node.old) bit ≡ 1 }
    requires bit { bit < 32 }
    requires full { (k : ℕ) → FullBut node_shape bit k node.old }
    ensures good { (w d : ℕ) → ((k : ℕ) → Good node_shape w k d node.old) → (k : ℕ) → Good node_shape w k d node.new }
    ensures keeps { KeepsBelow {X = T} node_shape bit node.old node.new }
    ensures full { (k : ℕ) → Full node_shape k node.new }
{
    let child = item_at(node.child_bitmap, bit, &node.children);
    if child.data_bitmap == 0 && child.child_bitmap == 0 {
        let (child_bitmap, _gone) = detach(node.child_bitmap, bit, &mut node.children);
        node.child_bitmap = child_bitmap;
    }
}

/// Takes an item out of the node or from below it.
pub fn remove_below<W: KeyBits, T: Drop>(
    node: &mut Node<T>,
    depth: u32,
    key: W,
    len: u32,
) -> Option<T>
    requires good { (k : ℕ) → Good node_shape W.width k depth node.old }
    requires full { (k : ℕ) → Full node_shape k node.old }
    requires net { IsNet W.width (net_of (W.number key) len) }
    requires low { depth ≤ len }
    ensures good { (k : ℕ) → Good node_shape W.width k depth node.new }
    ensures full { (k : ℕ) → Full node_shape k node.new }
    ensures take { TakeIn node_shape W.width depth (net_of (W.number key) len) node.old node.new result }
{
    if len - depth < 5 {
        return take_here(node, depth, key, len);
    }
    let bit = child_toward(depth, key);
    if node.child_bitmap >> bit & 1 == 1 {
        let was = remove_below(
            &mut node.children[slot(node.child_bitmap, bit)],
            depth + 5,
            key,
            len,
        );
        prune(node, bit);
        return was;
    }
    None
}
