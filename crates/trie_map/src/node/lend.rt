//! Items that are lent to be written.

ghost use Rattle.std.specs.Prelude.{◌≡◌, ℕ, ◌+◌, ◌-◌, ◌/◌, ◌<◌, ◌≤◌, Some, slice_get, vec_len};
ghost use Rattle.std.specs.Borrow.{sem};
ghost use Rattle.trie_map.specs.declared.node.Node.{out-Node};
ghost use Rattle.trie_map.specs.Shape.{node_shape};
ghost use Rattle.trie_map.specs.Lending.{LendsBelow, LendsChildren, LendsPlace};
ghost use Rattle.trie_model.specs.Nets.{IsNet, net_of};
ghost use Rattle.trie_model.specs.Puts.{HasItem};
ghost use Rattle.trie_model.specs.Tries.{Good};

use super::{Node, child_toward, slot};
use crate::masks::data_bit;
use crate::prefix::KeyBits;
use std::marker::PhantomData;

/// What stands at a place.
fn nth<X>(items: &mut Vec<X>, place: usize) -> &mut X
    requires { place < vec_len items.old }
    ensures* lends { sem 𝓛 (LendsPlace X.row items.entry place result) }
    ensures item { slice_get items.old.items place ≡ Some result.now }
{
    &mut items[place]
}

/// The children of a node.
fn children<T>(node: &mut Node<T>) -> &mut Vec<Node<T>>
    ensures* lends { sem 𝓛 (LendsChildren T.row node.entry result) }
    ensures whole { result.now ≡ (out-Node T node.old).children }
{
    &mut node.children
}

/// The item of a prefix of the node itself that has one.
fn own_item<W: KeyBits, T>(node: &mut Node<T>, depth: u32, key: W, len: u32) -> &mut T
    requires net { IsNet W.width (net_of (W.number key) len) }
    requires low { depth ≤ len }
    requires high { len < depth + 5 }
    requires there { (x : T) × HasItem node_shape W.width depth node.old (net_of (W.number key) len) x }
    ensures* lends { sem 𝓛 (LendsBelow T.row W.width depth (net_of (W.number key) len) node.entry result) }
    ensures item { HasItem node_shape W.width depth node.old (net_of (W.number key) len) result.now }
{
    let place = slot(node.data_bitmap, data_bit(depth, key, len));
    nth(&mut node.items, place)
}

/// How many levels of nodes a descent can go down.
pub trait Descent {
    /// The levels.
    ghost levels: { ℕ };

    /// The item of a prefix that has one.
    fn lend_item<W: KeyBits, T>(node: &mut Node<T>, depth: u32, key: W, len: u32) -> &mut T
        requires good { (k : ℕ) → Good node_shape W.width k depth node.old }
        requires net { IsNet W.width (net_of (W.number key) len) }
        requires low { depth ≤ len }
        requires near { (len - depth) / 5 ≤ levels }
        requires there { (x : T) × HasItem node_shape W.width depth node.old (net_of (W.number key) len) x }
        ensures* lends { sem 𝓛 (LendsBelow T.row W.width depth (net_of (W.number key) len) node.entry result) }
        ensures item { HasItem node_shape W.width depth node.old (net_of (W.number key) len) result.now };
}

/// No level.
pub struct Last;

/// One level more.
pub struct Next<L> {
    of: PhantomData<L>,
}

impl Descent for Last {
    ghost levels = { 0 };

    fn lend_item<W: KeyBits, T>(node: &mut Node<T>, depth: u32, key: W, len: u32) -> &mut T {
        own_item(node, depth, key, len)
    }
}

impl<L: Descent> Descent for Next<L> {
    ghost levels = { L.levels + 1 };

    fn lend_item<W: KeyBits, T>(node: &mut Node<T>, depth: u32, key: W, len: u32) -> &mut T {
        if len - depth < 5 {
            return own_item(node, depth, key, len);
        }
        let place = slot(node.child_bitmap, child_toward(depth, key));
        let child = nth(children(node), place);
        L::lend_item(child, depth + 5, key, len)
    }
}

/// Five levels more.
type Five<L> = Next<Next<Next<Next<Next<L>>>>>;

/// As many levels as the widest prefix has below the root.
pub type Deepest = Five<Five<Five<Five<Five<Last>>>>>;
