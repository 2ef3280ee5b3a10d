//! The longest pair of a node that contains a prefix.

ghost use Rattle.std.specs.Prelude.{◌≡◌, ℕ, ◌<◌, ◌≤◌, IsTrue, IfOk, IsOk};
ghost use Rattle.trie_model.specs.Nets.{Net, IsNet, masked, net_of};
ghost use Rattle.trie_model.specs.Views.{depth_at};
ghost use Rattle.view_model.specs.Sides.{IsAlignedSide, IsUsableSide, side_frugal};
ghost use Rattle.view_model.specs.CoveringUnion.{InNode, IsPairAbove, Longest, pair_value};

use nl_core::NoMemory;
use trie_map::{CloneView, KeyBits, PlainPrefix, data_lpm_mask, reconstruct_prefix};

/// The longest pair of a side in the node at this depth that contains a prefix below the node, or what
/// stands above the node. It looks at a copy, so that the side keeps its pairs.
pub(crate) fn longest_here<'a, V: CloneView<'a>>(
    side: &Option<V>,
    depth: u32,
    key: <V::P as PlainPrefix>::Number,
    len: u32,
    above: Option<(V::P, V::T)>,
) -> Result<Option<(V::P, V::T)>, NoMemory>
    requires usable { IsUsableSide V.valid side.now }
    requires net { IsNet V.P.Number.width (net_of (V.P.Number.number key) len) }
    requires low { depth ≤ len }
    requires above { IsPairAbove V.P.Number.width V.P.net V.P.raw above }
    ensures above { IfOk result (λ found. IsPairAbove V.P.Number.width V.P.net V.P.raw found) }
    ensures longest { (place : Net) → depth_at place.len ≡ depth
        → IsAlignedSide V.valid V.told V.P.Number.width place side.now
        → masked V.P.Number.width (V.P.Number.number key) depth ≡ masked V.P.Number.width place.bits depth
        → IfOk result (λ found. Longest V.P.Number.width (InNode V.told side.now depth)
        (pair_value V.P.net V.item above) (net_of (V.P.Number.number key) len)
        (pair_value V.P.net V.item found)) }
    ensures frugal { IsTrue (side_frugal V.told side.now) → IsOk result }
{
    let Some(view) = side else {
        return Ok(above);
    };
    if view.depth() != depth {
        return Ok(above);
    }
    let inside = view.data_bitmap() & data_lpm_mask(depth, key, len);
    if inside == 0 {
        return Ok(above);
    }
    let bit = 31 - inside.leading_zeros();
    let prefix = reconstruct_prefix(depth, key, bit);
    let mut copy = view.clone_view()?;
    let item = copy.get_data(bit)?;
    Ok(Some((prefix, item)))
}
