//! The bits of a node that lie in the prefixes of some of its data bits.

ghost use Rattle.std.specs.Prelude.{◌≡◌, ℕ, ◌+◌, ◌^◌, ◌<◌, ◌≤◌, false};
ghost use Rattle.trie_model.specs.Spots.{children_below, rows_below};
ghost use Rattle.trie_model.specs.Nets.{Net};
ghost use Rattle.trie_model.specs.Views.{depth_at};
ghost use Rattle.view_model.specs.CoveringDifference.{CoveredBits, IsCoverOf};
ghost use Rattle.view_model.specs.Sides.{IsAlignedSide, IsUsableSide};

use crate::side::side_data;
use trie_map::{TrieView, child_cover_mask_for_bit, data_cover_mask_for_bit};

/// The data bits and the children that lie in the prefixes of these data bits.
fn cover_masks(bits: u32) -> (u32, u32)
    requires { bits < 2 ^ 31 }
    ensures covered_data { IsCoverOf rows_below bits result.0 }
    ensures covered_children { IsCoverOf children_below bits result.1 }
    ensures data_fit { result.0 < 2 ^ 32 }
    ensures children_fit { result.1 < 2 ^ 32 }
{
    let mut covered_data = 0;
    let mut covered_children = 0;
    let mut rest = bits;
    while rest != 0 {
        let bit = rest.trailing_zeros();
        covered_data |= data_cover_mask_for_bit(bit);
        covered_children |= child_cover_mask_for_bit(bit);
        rest &= !(1 << bit);
    }
    (covered_data, covered_children)
}

/// The data bits and the children of the node at this depth that lie in a prefix of a side.
pub(crate) fn side_cover_masks<'a, V: TrieView<'a>>(side: &Option<V>, depth: u32) -> (u32, u32)
    requires { IsUsableSide V.valid side.now }
    ensures { (place : Net) → depth_at place.len ≡ depth
        → IsAlignedSide V.valid V.told V.P.Number.width place side.now
        → CoveredBits V.P.Number.width place V.told false side.now result.0 result.1 }
{
    cover_masks(side_data(side, depth))
}

/// The same, where a prefix above the node may contain its place, so that all bits lie in one.
pub(crate) fn search_cover_masks<'a, V: TrieView<'a>>(
    covered: bool,
    side: &Option<V>,
    depth: u32,
) -> (u32, u32)
    requires { IsUsableSide V.valid side.now }
    ensures { (place : Net) → depth_at place.len ≡ depth
        → IsAlignedSide V.valid V.told V.P.Number.width place side.now
        → CoveredBits V.P.Number.width place V.told covered side.now result.0 result.1 }
{
    if covered {
        (u32::MAX, u32::MAX)
    } else {
        side_cover_masks(side, depth)
    }
}
