//! The way down to a prefix.

ghost use Rattle.std.specs.Prelude.{◌≡◌, ℕ, ◌+◌, ◌-◌, ◌*◌, ◌/◌, ◌^◌, ◌<◌, ◌≤◌, IsTrue, IfOk, IsOk};
ghost use Rattle.trie_model.specs.Nets.{IsNet, net_of};
ghost use Rattle.view_model.specs.Find.{FindsPart, CoverFound};

use nl_core::NoMemory;
use trie_map::{KeyBits, PlainPrefix, Steps, TrieView, child_bit, data_lpm_mask, lies_in};

/// The view of what lies in a prefix, at the longer of its place and the prefix. None only where nothing does.
pub(crate) fn find_part<'a, V: TrieView<'a>, S>(
    view: V,
    key: <V::P as PlainPrefix>::Number,
    len: u32,
    steps: &mut Steps<S>,
) -> Result<Option<V>, NoMemory>
    requires usable { V.valid view }
    requires net { IsNet V.P.Number.width (net_of (V.P.Number.number key) len) }
    ensures found { IfOk result (λ found.
        FindsPart V.valid V.told V.P.Number.width (net_of (V.P.Number.number key) len) (V.told view) found) }
    ensures frugal { IsTrue (V.told view).frugal → IsOk result }
{
    let mut view = view;
    let place = view.key();
    let place_len = view.prefix_len();
    if len <= place_len {
        if lies_in(key, len, place, place_len) {
            return Ok(Some(view));
        }
        return Ok(None);
    }
    if !lies_in(place, place_len, key, len) {
        return Ok(None);
    }
    let mut depth = view.depth();
    while len - depth >= 5 {
        let bit = child_bit(depth, key);
        if view.child_bitmap() >> bit & 1 == 0 {
            return Ok(None);
        }
        let child = view.get_child(bit, steps)?;
        view = child;
        depth += 5;
    }
    view.reposition(key, len);
    Ok(Some(view))
}

/// Goes down to a prefix, and stops where a pair on the way contains it. It tells whether one does, and
/// else gives the side that has all other pairs that contain what lies in the prefix.
pub(crate) fn find_cover<'a, V: TrieView<'a>, S>(
    view: V,
    key: <V::P as PlainPrefix>::Number,
    len: u32,
    steps: &mut Steps<S>,
) -> Result<(bool, Option<V>), NoMemory>
    requires usable { V.valid view }
    requires net { IsNet V.P.Number.width (net_of (V.P.Number.number key) len) }
    ensures met { IfOk result (λ met.
        CoverFound V.valid V.told V.P.Number.width (net_of (V.P.Number.number key) len) (V.told view) met.0 met.1) }
    ensures frugal { IsTrue (V.told view).frugal → IsOk result }
{
    let mut view = view;
    let place = view.key();
    let place_len = view.prefix_len();
    if len <= place_len {
        if lies_in(key, len, place, place_len) {
            return Ok((false, Some(view)));
        }
        return Ok((false, None));
    }
    if !lies_in(place, place_len, key, len) {
        return Ok((false, None));
    }
    let mut depth = view.depth();
    while len - depth >= 5 {
        if view.data_bitmap() & data_lpm_mask(depth, key, len) != 0 {
            return Ok((true, None));
        }
        let bit = child_bit(depth, key);
        if view.child_bitmap() >> bit & 1 == 0 {
            return Ok((false, None));
        }
        let child = view.get_child(bit, steps)?;
        view = child;
        depth += 5;
    }
    Ok((false, Some(view)))
}
