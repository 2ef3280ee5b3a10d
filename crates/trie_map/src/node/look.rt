//! Look-ups in a trie.

ghost use Rattle.std.specs.Prelude.{ℕ, ◌+◌, ◌-◌, ◌/◌, ◌≤◌, min};
ghost use Rattle.trie_map.specs.Shape.{node_shape, NodeLongest};
ghost use Rattle.trie_model.specs.Nets.{IsNet, net_of};
ghost use Rattle.trie_model.specs.Puts.{Gets};
ghost use Rattle.trie_model.specs.Inside.{Reaches};
ghost use Rattle.trie_model.specs.Tries.{Full, Good, NodeOk};

use super::{Node, Steps, Visited, child_toward, visit};
use crate::masks::{data_bit, data_lpm_mask, level};
use crate::prefix::KeyBits;

/// The item of a prefix. It reads at most one node for each five bits on the way, and the last one.
pub fn get_below<'a, W: KeyBits, T, L>(
    node: &'a Node<T>,
    depth: u32,
    key: W,
    len: u32,
    steps: &mut Steps<L>,
) -> Option<&'a T>
    requires good { (k : ℕ) → Good node_shape W.width k depth node.now }
    requires net { IsNet W.width (net_of (W.number key) len) }
    requires low { depth ≤ len }
    ensures item { Gets (λ r. r.now) node_shape W.width depth (net_of (W.number key) len) node.now result }
    ensures cost { steps.new ≤ steps.old + ((len - depth) / 5 + 1) }
{
    let here = visit(node, steps);
    if len - depth < 5 {
        let bit = data_bit(depth, key, len);
        if here.data_bitmap() >> bit & 1 == 1 {
            return Some(here.item(bit));
        }
        return None;
    }
    let bit = child_toward(depth, key);
    if here.child_bitmap() >> bit & 1 == 1 {
        return get_below(here.child(bit), depth + 5, key, len, steps);
    }
    None
}

/// The longest prefix of a key in the node itself that has an item: its length, and the item.
fn longest_here<'a, W: KeyBits, T>(
    here: &Visited<'a, T>,
    depth: u32,
    key: W,
    len: u32,
) -> Option<(u32, &'a T)>
    requires node { NodeOk node_shape W.width depth here.now.node.now }
    requires net { IsNet W.width (net_of (W.number key) len) }
    requires low { depth ≤ len }
    ensures { NodeLongest W.width depth (W.number key) here.now.node.now depth (min len (depth + 4)) result }
{
    let inside = here.data_bitmap() & data_lpm_mask(depth, key, len);
    if inside == 0 {
        return None;
    }
    let bit = 31 - inside.leading_zeros();
    Some((depth + level(bit), here.item(bit)))
}

/// The longest prefix of a key that has an item in the node or below it: its length, and the item.
pub fn lpm_below<'a, W: KeyBits, T, L>(
    node: &'a Node<T>,
    depth: u32,
    key: W,
    len: u32,
    steps: &mut Steps<L>,
) -> Option<(u32, &'a T)>
    requires good { (k : ℕ) → Good node_shape W.width k depth node.now }
    requires net { IsNet W.width (net_of (W.number key) len) }
    requires low { depth ≤ len }
    ensures longest { NodeLongest W.width depth (W.number key) node.now depth len result }
    ensures cost { steps.new ≤ steps.old + ((len - depth) / 5 + 1) }
{
    let here = visit(node, steps);
    if len - depth < 5 {
        return longest_here(&here, depth, key, len);
    }
    let bit = child_toward(depth, key);
    if here.child_bitmap() >> bit & 1 == 1 {
        return match lpm_below(here.child(bit), depth + 5, key, len, steps) {
            Some(found) => Some(found),
            None => longest_here(&here, depth, key, len),
        };
    }
    longest_here(&here, depth, key, len)
}

/// The node that has a prefix's place, unless a node on the way there is missing.
pub fn node_of<'a, W: KeyBits, T, L>(
    node: &'a Node<T>,
    depth: u32,
    key: W,
    len: u32,
    steps: &mut Steps<L>,
) -> Option<Visited<'a, T>>
    requires good { (k : ℕ) → Good node_shape W.width k depth node.now }
    requires full { (k : ℕ) → Full node_shape k node.now }
    requires net { IsNet W.width (net_of (W.number key) len) }
    requires low { depth ≤ len }
    ensures node { Reaches (λ r. r.node.now) node_shape W.width depth (net_of (W.number key) len) node.now result }
    ensures cost { steps.new ≤ steps.old + ((len - depth) / 5 + 1) }
{
    let here = visit(node, steps);
    if len - depth < 5 {
        return Some(here);
    }
    let bit = child_toward(depth, key);
    if here.child_bitmap() >> bit & 1 == 1 {
        return node_of(here.child(bit), depth + 5, key, len, steps);
    }
    None
}
