//! The search for the longest pair that contains a prefix.

ghost use Rattle.std.specs.Prelude.{◌≡◌, ◌↔◌, ℕ, ◌+◌, ◌-◌, ◌*◌, ◌/◌, ◌^◌, ◌<◌, ◌≤◌, true, Some};
ghost use Rattle.std.specs.Prelude.{None, IsTrue, IfOk, IsOk};
ghost use Rattle.std.specs.Result.{OnOk};
ghost use Rattle.trie_model.specs.Nets.{Net, IsNet, covers};
ghost use Rattle.trie_model.specs.Views.{depth_at};
ghost use Rattle.view_model.specs.CoveringUnion.{InNode, Longest, pair_value};
ghost use Rattle.view_model.specs.LongestMatch.{HasNoHostBits, KeepsBelow, LongestMatchOf, net_of};

use nl_core::NoMemory;
use trie_map::{
    KeyBits, PlainPrefix, Steps, TrieView, child_bit, data_lpm_mask, lies_in, reconstruct_prefix,
};

/// Takes the longest pair of the view's node that contains a prefix. Where there is none, it gives what
/// was found above.
fn take_longest<'a, V: TrieView<'a>>(
    view: &mut V,
    depth: u32,
    key: <V::P as PlainPrefix>::Number,
    len: u32,
    above: Option<(V::P, V::T)>,
) -> Result<Option<(V::P, V::T)>, NoMemory>
    requires usable { V.valid view.old }
    requires node { depth ≡ depth_at (V.told view.old).place.len }
    requires net { IsNet V.P.Number.width (net_of (V.P.Number.number key) len) }
    requires inside { covers V.P.Number.width (V.told view.old).place (net_of (V.P.Number.number key) len) ≡ true }
    requires plain { HasNoHostBits V.P.net V.P.raw above }
    ensures longest { IfOk result (λ found.
        Longest V.P.Number.width (InNode V.told (Some view.old) depth) (pair_value V.P.net V.item above)
        (net_of (V.P.Number.number key) len) (pair_value V.P.net V.item found)) }
    ensures plain { IfOk result (λ found. HasNoHostBits V.P.net V.P.raw found) }
    ensures usable { OnOk result (V.valid view.new) }
    ensures below { OnOk result (KeepsBelow depth (V.told view.old) (V.told view.new)) }
    ensures frugal { IsTrue (V.told view.old).frugal → IsOk result }
{
    let inside = view.data_bitmap() & data_lpm_mask(depth, key, len);
    if inside == 0 {
        return Ok(above);
    }
    let bit = 31 - inside.leading_zeros();
    let prefix = reconstruct_prefix(depth, key, bit);
    let item = view.get_data(bit)?;
    Ok(Some((prefix, item)))
}

/// The longest pair of a view that contains a prefix. It goes down one node for each five bits.
pub(crate) fn longest_match<'a, V: TrieView<'a>, S>(
    view: V,
    key: <V::P as PlainPrefix>::Number,
    len: u32,
    steps: &mut Steps<S>,
) -> Result<Option<(V::P, V::T)>, NoMemory>
    requires usable { V.valid view }
    requires net { IsNet V.P.Number.width (net_of (V.P.Number.number key) len) }
    ensures longest { IfOk result (λ found.
        LongestMatchOf V.P.Number.width V.P.net V.item (V.told view) (net_of (V.P.Number.number key) len) found) }
    ensures plain { IfOk result (λ found. HasNoHostBits V.P.net V.P.raw found) }
    ensures forward { steps.old ≤ steps.new }
    ensures cost { steps.new ≤ steps.old + V.cost * ((len - depth_at (V.told view).place.len) / 5) }
    ensures frugal { IsTrue (V.told view).frugal → IsOk result }
{
    let mut view = view;
    if !lies_in(view.key(), view.prefix_len(), key, len) {
        return Ok(None);
    }
    let mut depth = view.depth();
    let mut found = take_longest(&mut view, depth, key, len, None)?;
    while len - depth >= 5 {
        let bit = child_bit(depth, key);
        if view.child_bitmap() >> bit & 1 == 0 {
            return Ok(found);
        }
        let mut child = view.get_child(bit, steps)?;
        depth += 5;
        found = take_longest(&mut child, depth, key, len, found)?;
        view = child;
    }
    Ok(found)
}
