//! The pair of a view's own place, and of a prefix.

ghost use Rattle.std.specs.Prelude.{◌≡◌, ◌↔◌, ℕ, ◌+◌, ◌-◌, ◌*◌, ◌/◌, ◌^◌, ◌<◌, ◌≤◌, IsTrue, IfOk, IsOk};
ghost use Rattle.trie_model.specs.Nets.{Net, IsNet};
ghost use Rattle.trie_model.specs.Views.{Has, data_net, depth_at};
ghost use Rattle.view_model.specs.Find.{FindsEntry};
ghost use Rattle.view_model.specs.LongestMatch.{HasNoHostBits, ItemOf, PairOf, net_of};

use crate::find::find_part;
use nl_core::NoMemory;
use trie_map::{PlainPrefix, Steps, TrieView, data_bit};

/// The data bit of a view's own place.
fn own_bit<'a, V: TrieView<'a>>(view: &V) -> u32
    requires { V.valid view.now }
    ensures net { data_net V.P.Number.width (V.told view.now).place result ≡ (V.told view.now).place }
    ensures small { result < 31 }
{
    data_bit(view.depth(), view.key(), view.prefix_len())
}

/// Whether a view has a pair at its own place.
fn has_own<'a, V: TrieView<'a>>(view: &V) -> bool
    requires { V.valid view.now }
    ensures { IsTrue result ↔ Has (V.told view.now) (V.told view.now).place }
{
    let bit = own_bit(view);
    if view.data_bitmap() >> bit & 1 == 1 {
        return true;
    }
    false
}

/// The prefix of a network.
fn prefix_at<P: PlainPrefix>(number: P::Number, len: u32) -> P
    requires { IsNet P.Number.width (net_of (P.Number.number number) len) }
    ensures net { P.net result ≡ net_of (P.Number.number number) len }
    ensures plain { P.raw result ≡ P.Number.number number }
{
    P::from_number(number, len as u8)
}

/// The view's own place.
pub(crate) fn own_prefix<'a, V: TrieView<'a>>(view: &V) -> V::P
    requires { V.valid view.now }
    ensures net { V.P.net result ≡ (V.told view.now).place }
    ensures plain { V.P.raw result ≡ (V.told view.now).place.bits }
{
    let key = view.key();
    let len = view.prefix_len();
    prefix_at(key, len)
}

/// The item of a view's own place.
pub(crate) fn own_item<'a, V: TrieView<'a>>(view: V) -> Result<Option<V::T>, NoMemory>
    requires { V.valid view }
    ensures item { IfOk result (λ found. ItemOf V.item (V.told view) (V.told view).place found) }
    ensures frugal { IsTrue (V.told view).frugal → IsOk result }
{
    let mut view = view;
    let bit = own_bit(&view);
    if view.data_bitmap() >> bit & 1 == 0 {
        return Ok(None);
    }
    let item = view.get_data(bit)?;
    Ok(Some(item))
}

/// The pair of a view's own place.
pub(crate) fn own_pair<'a, V: TrieView<'a>>(view: V) -> Result<Option<(V::P, V::T)>, NoMemory>
    requires { V.valid view }
    ensures pair { IfOk result (λ found. PairOf V.P.net V.item (V.told view) (V.told view).place found) }
    ensures plain { IfOk result (λ found. HasNoHostBits V.P.net V.P.raw found) }
    ensures frugal { IsTrue (V.told view).frugal → IsOk result }
{
    let prefix = own_prefix(&view);
    let found = own_item(view)?;
    match found {
        Some(item) => Ok(Some((prefix, item))),
        None => Ok(None),
    }
}

/// The view of what lies in a prefix that has a pair. None exactly where it has none.
pub(crate) fn find_entry<'a, V: TrieView<'a>, S>(
    view: V,
    key: <V::P as PlainPrefix>::Number,
    len: u32,
    steps: &mut Steps<S>,
) -> Result<Option<V>, NoMemory>
    requires usable { V.valid view }
    requires net { IsNet V.P.Number.width (net_of (V.P.Number.number key) len) }
    ensures found { IfOk result (λ found.
        FindsEntry V.valid V.told V.P.Number.width (net_of (V.P.Number.number key) len) (V.told view) found) }
    ensures frugal { IsTrue (V.told view).frugal → IsOk result }
{
    let part = find_part(view, key, len, steps)?;
    match part {
        None => Ok(None),
        Some(inside) => {
            if inside.prefix_len() != len {
                return Ok(None);
            }
            if !has_own(&inside) {
                return Ok(None);
            }
            Ok(Some(inside))
        }
    }
}
