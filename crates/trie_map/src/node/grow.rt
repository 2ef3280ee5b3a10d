//! Growth of a trie. Each node's room is taken before anything is written.

ghost use Rattle.std.specs.Prelude.{◌≡◌, ℕ, ◌+◌, ◌<◌, ◌≤◌, length, count_ones, vec_len, vec_capacity};
ghost use Rattle.std.specs.Result.{OnErr, OnOk};
ghost use Rattle.std.specs.Int.{bit_at};
ghost use Rattle.trie_map.specs.Shape.{node_shape, NodePuts};
ghost use Rattle.trie_model.specs.Nets.{IsNet, net_of};
ghost use Rattle.trie_model.specs.Puts.{PutAt, HoldsAt};
ghost use Rattle.trie_model.specs.Tries.{Good, Full};

use super::{Node, child_toward, empty, slot};
use crate::masks::data_bit;
use crate::prefix::KeyBits;
use std::alloc::{AllocError, AllocFailed, Global};
use std::mem::replace;

/// Makes room for one more, where there is none, and then for as many more as there are.
fn widen<X>(items: &mut Vec<X>) -> Result<(), AllocError>
    ensures items { items.new.items ≡ items.old.items }
    ensures len { vec_len items.new ≡ vec_len items.old }
    ensures room { OnOk result (vec_len items.new < vec_capacity items.new) }
{
    let len = items.len();
    if len < items.capacity() {
        return Ok(());
    }
    items.reserve_exact(if len == 0 { 1 } else { len })
}

/// Puts an item at a bit that isn't set, where there is room, and gives the bitmap with the bit.
fn attach<X: Drop>(bitmap: u32, bit: u32, items: &mut Vec<X>, item: X) -> u32
    requires compact { length items.old.items ≡ count_ones bitmap }
    requires clear { bit_at bitmap bit ≡ 0 }
    requires bit { bit < 32 }
    requires room { vec_len items.old < vec_capacity items.old }
    ensures put { PutAt bit item bitmap items.old.items result items.new.items }
{
    match items.insert(slot(bitmap, bit), item) {
        Ok(()) => bitmap | 1 << bit,
        Err(_) => bitmap,
    }
}

/// Puts an item at a set bit, and gives the one that was there.
fn exchange<X>(bitmap: u32, bit: u32, items: &mut Vec<X>, item: X) -> X
    requires compact { length items.old.items ≡ count_ones bitmap }
    requires set { bit_at bitmap bit ≡ 1 }
    requires bit { bit < 32 }
    ensures put { PutAt bit item bitmap items.old.items bitmap items.new.items }
    ensures was { HoldsAt bitmap items.old.items bit result }
{
    replace(&mut items[slot(bitmap, bit)], item)
}

/// Puts an item into the node itself, and gives the one that was there.
fn put_here<W: KeyBits, T: Drop>(
    node: &mut Node<T>,
    depth: u32,
    key: W,
    len: u32,
    value: T,
) -> Result<Option<T>, AllocFailed<T>>
    requires good { (k : ℕ) → Good node_shape W.width k depth node.old }
    requires net { IsNet W.width (net_of (W.number key) len) }
    requires low { depth ≤ len }
    requires high { len < depth + 5 }
    ensures good { (k : ℕ) → Good node_shape W.width k depth node.new }
    ensures put { NodePuts W.width depth (net_of (W.number key) len) value node.old node.new result }
    ensures child_bits { node_shape.child_bits node.new ≡ node_shape.child_bits node.old }
    ensures children { node_shape.children node.new ≡ node_shape.children node.old }
    ensures refused { OnErr result (node_shape.data_bits node.new ≡ node_shape.data_bits node.old) }
{
    let bit = data_bit(depth, key, len);
    if node.data_bitmap >> bit & 1 == 1 {
        return Ok(Some(exchange(node.data_bitmap, bit, &mut node.items, value)));
    }
    if widen(&mut node.items).is_err() {
        return Err(AllocFailed { value });
    }
    node.data_bitmap = attach(node.data_bitmap, bit, &mut node.items, value);
    Ok(None)
}

/// Puts an item into the node or below it, and gives the one that was there. A new child is built
/// aside, after the room for it was taken.
pub fn insert_below<W: KeyBits, T: Drop>(
    alloc: Global,
    node: &mut Node<T>,
    depth: u32,
    key: W,
    len: u32,
    value: T,
) -> Result<Option<T>, AllocFailed<T>>
    requires good { (k : ℕ) → Good node_shape W.width k depth node.old }
    requires full { (k : ℕ) → Full node_shape k node.old }
    requires net { IsNet W.width (net_of (W.number key) len) }
    requires low { depth ≤ len }
    ensures good { (k : ℕ) → Good node_shape W.width k depth node.new }
    ensures full { (k : ℕ) → Full node_shape k node.new }
    ensures put { NodePuts W.width depth (net_of (W.number key) len) value node.old node.new result }
    ensures refused { OnErr result (node_shape.data_bits node.new ≡ node_shape.data_bits node.old) }
    ensures kept { OnErr result (node_shape.child_bits node.new ≡ node_shape.child_bits node.old) }
{
    if len - depth < 5 {
        return put_here(node, depth, key, len, value);
    }
    let bit = child_toward(depth, key);
    if node.child_bitmap >> bit & 1 == 1 {
        return insert_below(
            alloc,
            &mut node.children[slot(node.child_bitmap, bit)],
            depth + 5,
            key,
            len,
            value,
        );
    }
    if widen(&mut node.children).is_err() {
        return Err(AllocFailed { value });
    }
    let mut child = empty(alloc);
    let was = match insert_below(alloc, &mut child, depth + 5, key, len, value) {
        Ok(was) => was,
        Err(refused) => return Err(refused),
    };
    node.child_bitmap = attach(node.child_bitmap, bit, &mut node.children, child);
    Ok(was)
}
