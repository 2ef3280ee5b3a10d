//! The nodes of a trie. Outside of this module they are read only by `visit`, which counts.

mod grow;
mod lend;
mod look;
mod shrink;

ghost use Rattle.std.specs.Prelude.{◌≡◌, ℕ, ◌+◌, ◌-◌, ◌<◌, ◌≤◌, ◌^◌, min, length, count_ones};
ghost use Rattle.std.specs.Int.{bit_at};
ghost use Rattle.trie_map.specs.Shape.{node_shape, ItemsFit, ChildrenFit, HoldsItem, HoldsChild};
ghost use Rattle.trie_model.specs.Spots.{bits_toward};
ghost use Rattle.trie_model.specs.Puts.{HoldsAt};
ghost use Rattle.trie_model.specs.Tries.{slot_of, Good, Full};

use crate::masks::child_bit;
use crate::prefix::KeyBits;
pub use grow::insert_below;
pub use lend::{Deepest, Descent};
pub use look::{get_below, lpm_below, node_of};
pub use shrink::remove_below;
use std::alloc::Global;
use std::marker::{Model, PhantomData};

/// The mark of a counter that begins at 0.
pub struct Start;

/// How many nodes were read. At `u64::MAX` it stays.
#[derive(Drop)]
pub struct Steps<L> {
    taken: u64,
    of: PhantomData<L>,
}

impl<L> Model for Steps<L> {
    ghost Value = { ℕ };

    ghost view = { λ s. s.taken };
}

impl Steps<Start> {
    /// A counter at 0.
    pub fn start() -> Steps<Start>
        ensures { result ≡ 0 }
    {
        Steps {
            taken: 0,
            of: PhantomData,
        }
    }
}

impl<L> Steps<L> {
    /// How many nodes were read so far.
    pub fn count(&self) -> u64
        ensures { result ≡ self.now }
    {
        self.taken
    }

    fn add_one(&mut self)
        ensures more { self.new ≡ min (self.old + 1) (2 ^ 64 - 1) }
        ensures forward { self.old ≤ self.new }
    {
        self.taken = self.taken.saturating_add(1);
    }
}

/// Five levels of prefixes, and up to 32 nodes below. What stands at a set bit of a bitmap stands
/// in the vector at the count of set bits below.
#[derive(Drop)]
pub struct Node<T> {
    data_bitmap: u32,
    child_bitmap: u32,
    items: Vec<T>,
    children: Vec<Node<T>>,
}

/// A node that was counted, and so may be read.
#[derive(Drop)]
pub struct Visited<'a, T> {
    node: &'a Node<T>,
}

/// Counts a node, and lets it be read.
pub fn visit<'a, T, L>(node: &'a Node<T>, steps: &mut Steps<L>) -> Visited<'a, T>
    ensures node { result.node.now ≡ node.now }
    ensures counted { steps.new ≡ min (steps.old + 1) (2 ^ 64 - 1) }
    ensures forward { steps.old ≤ steps.new }
{
    steps.add_one();
    Visited { node }
}

impl<'a, T> Visited<'a, T> {
    /// The same node, which was counted already.
    pub fn again(&self) -> Self
        ensures { result ≡ self.now }
    {
        Visited { node: self.node }
    }

    /// The data bits of the node.
    pub fn data_bitmap(&self) -> u32
        ensures { result ≡ node_shape.data_bits self.now.node.now }
    {
        self.node.data_bitmap
    }

    /// The bits of the node's children.
    pub fn child_bitmap(&self) -> u32
        ensures { result ≡ node_shape.child_bits self.now.node.now }
    {
        self.node.child_bitmap
    }

    /// The item of a set data bit.
    pub fn item(&self, bit: u32) -> &'a T
        requires compact { ItemsFit self.now.node.now }
        requires set { bit_at (node_shape.data_bits self.now.node.now) bit ≡ 1 }
        requires bit { bit < 32 }
        ensures { HoldsItem self.now.node.now bit result.now }
    {
        item_at(self.node.data_bitmap, bit, &self.node.items)
    }

    /// The child of a set child bit, which isn't visited yet.
    pub fn child(&self, bit: u32) -> &'a Node<T>
        requires compact { ChildrenFit self.now.node.now }
        requires set { bit_at (node_shape.child_bits self.now.node.now) bit ≡ 1 }
        requires bit { bit < 32 }
        ensures { HoldsChild self.now.node.now bit result.now }
    {
        item_at(self.node.child_bitmap, bit, &self.node.children)
    }
}

/// The child on the way to a key.
fn child_toward<W: KeyBits>(depth: u32, key: W) -> u32
    requires fits { W.number key < 2 ^ W.width }
    requires depth { depth + 5 ≤ W.width }
    ensures bit { result ≡ bits_toward W.width depth 5 (W.number key) }
    ensures small { result < 32 }
{
    child_bit(depth, key)
}

/// The place of a bit among the set bits.
fn slot(bitmap: u32, bit: u32) -> usize
    requires { bit < 32 }
    ensures { result ≡ slot_of bitmap bit }
{
    (bitmap & ((1 << bit) - 1)).count_ones() as usize
}

/// What stands at a set bit.
fn item_at<X>(bitmap: u32, bit: u32, items: &Vec<X>) -> &X
    requires compact { length items.now.items ≡ count_ones bitmap }
    requires set { bit_at bitmap bit ≡ 1 }
    requires bit { bit < 32 }
    ensures { HoldsAt bitmap items.now.items bit result.now }
{
    &items[slot(bitmap, bit)]
}

/// A node with nothing.
pub fn empty<T>(alloc: Global) -> Node<T>
    ensures data_bits { node_shape.data_bits result ≡ 0 }
    ensures child_bits { node_shape.child_bits result ≡ 0 }
    ensures good { (w d k : ℕ) → Good node_shape w k d result }
    ensures full { (k : ℕ) → Full node_shape k result }
{
    Node {
        data_bitmap: 0,
        child_bitmap: 0,
        items: Vec::new(alloc),
        children: Vec::new(alloc),
    }
}
