//! A side of a composed view, which may be missing.

ghost use Rattle.std.specs.Prelude.{◌≡◌, ℕ, ◌+◌, ◌^◌, ◌<◌, ◌≤◌, ◌↔◌, true, IsTrue, IfOk, IsOk};
ghost use Rattle.std.specs.Result.{OnOk};
ghost use Rattle.trie_model.specs.Nets.{Net, IsNet, covers, net_of};
ghost use Rattle.trie_model.specs.Views.{depth_at, CanMove};
ghost use Rattle.view_model.specs.Sides.{HasRoomForChild, IsAlignedSide, IsInnerSide};
ghost use Rattle.view_model.specs.Sides.{IsUsableSide, SideMoved, SideSplit};
ghost use Rattle.view_model.specs.Sides.{side_child_bits, side_data_bits, side_frugal};
ghost use Rattle.view_model.specs.Union.{SideTook};

use nl_core::NoMemory;
use trie_map::{CloneView, KeyBits, PlainPrefix, Steps, TrieView, child_bit, lies_in};

/// Takes the child of a side, beside the child of this bit of the node at this depth.
pub(crate) fn side_child<'a, V: TrieView<'a>, S>(
    side: &mut Option<V>,
    depth: u32,
    bit: u32,
    steps: &mut Steps<S>,
) -> Result<Option<V>, NoMemory>
    requires usable { IsUsableSide V.valid side.old }
    requires deep { depth + 5 ≤ V.P.Number.width }
    requires bit { bit < 32 }
    ensures split { (place : Net) → depth_at place.len ≡ depth
        → IsAlignedSide V.valid V.told V.P.Number.width place side.old
        → IfOk result (λ child. SideSplit V.valid V.told V.P.Number.width place bit side.old child side.new) }
    ensures forward { steps.old ≤ steps.new }
    ensures cost { steps.new ≤ steps.old + V.cost }
    ensures frugal { IsTrue (side_frugal V.told side.old) → IsOk result }
{
    let Some(view) = side else {
        return Ok(None);
    };
    if view.depth() == depth {
        if view.child_bitmap() >> bit & 1 == 0 {
            return Ok(None);
        }
        let child = view.get_child(bit, steps)?;
        return Ok(Some(child));
    }
    if child_bit(depth, view.key()) == bit {
        return Ok(side.take());
    }
    Ok(None)
}

/// The data bits of a side in the node at this depth.
pub(crate) fn side_data<'a, V: TrieView<'a>>(side: &Option<V>, depth: u32) -> u32
    requires { IsUsableSide V.valid side.now }
    ensures { result ≡ side_data_bits V.told depth side.now }
{
    let Some(view) = side else {
        return 0;
    };
    if view.depth() == depth {
        view.data_bitmap()
    } else {
        0
    }
}

/// The children of the node at this depth below which a side may have a pair.
pub(crate) fn side_children<'a, V: TrieView<'a>>(side: &Option<V>, depth: u32) -> u32
    requires usable { IsUsableSide V.valid side.now }
    requires room { HasRoomForChild V.told V.P.Number.width depth side.now }
    ensures { result ≡ side_child_bits V.told V.P.Number.width depth side.now }
{
    let Some(view) = side else {
        return 0;
    };
    if view.depth() == depth {
        view.child_bitmap()
    } else {
        1 << child_bit(depth, view.key())
    }
}

/// Whether a side takes no memory.
pub(crate) fn side_frugal<'a, V: TrieView<'a>>(side: &Option<V>) -> bool
    requires { IsUsableSide V.valid side.now }
    ensures { result ≡ side_frugal V.told side.now }
{
    match side {
        None => true,
        Some(view) => view.frugal(),
    }
}

/// A copy of a side.
pub(crate) fn side_clone<'a, V: CloneView<'a>>(side: &Option<V>) -> Result<Option<V>, NoMemory>
    ensures equal { IfOk result (λ copy. copy ≡ side.now) }
    ensures frugal { IsTrue (side_frugal V.told side.now) → IsOk result }
{
    match side {
        None => Ok(None),
        Some(view) => {
            let copy = view.clone_view()?;
            Ok(Some(copy))
        }
    }
}

/// Takes the item of a data bit out of a side, if it is there.
pub(crate) fn side_take<'a, V: TrieView<'a>>(
    side: &mut Option<V>,
    depth: u32,
    bit: u32,
) -> Result<Option<V::T>, NoMemory>
    requires usable { IsUsableSide V.valid side.old }
    requires bit { bit < 31 }
    ensures took { (place : Net) → depth_at place.len ≡ depth
        → IsInnerSide V.valid V.told V.P.Number.width place side.old
        → IfOk result (λ found. SideTook V.valid V.told V.item V.P.Number.width place bit side.old side.new found) }
    ensures frugal { IsTrue (side_frugal V.told side.old) → IsOk result }
{
    if side_data(side, depth) >> bit & 1 == 0 {
        return Ok(None);
    }
    let Some(view) = side else {
        return Ok(None);
    };
    let item = view.get_data(bit)?;
    Ok(Some(item))
}

/// Narrows a side to a place in the same node. A side that has nothing there goes.
pub(crate) fn side_move<'a, V: TrieView<'a>>(
    side: &mut Option<V>,
    key: <V::P as PlainPrefix>::Number,
    len: u32,
)
    requires place { (place : Net) × (CanMove V.P.Number.width place (net_of (V.P.Number.number key) len)
        × IsInnerSide V.valid V.told V.P.Number.width place side.old) }
    ensures { SideMoved V.valid V.told V.P.Number.width (net_of (V.P.Number.number key) len) side.old side.new }
{
    let Some(mut view) = side.take() else {
        return;
    };
    let view_key = view.key();
    let view_len = view.prefix_len();
    if lies_in(key, len, view_key, view_len) {
        *side = Some(view);
        return;
    }
    if lies_in(view_key, view_len, key, len) {
        view.reposition(key, len);
        *side = Some(view);
    }
}
