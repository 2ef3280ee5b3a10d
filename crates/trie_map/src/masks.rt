//! The bits of a node and the masks over them.
//!
//! A node at depth d holds the prefixes of length d to d + 4 in 31 data bits and has up to 32
//! children at depth d + 5. The data bit of a prefix of length d + l is `2^l - 1` plus the next l
//! bits of its key, as in the crate prefix-trie. Key bits past the end count as 0.

ghost use Rattle.std.specs.Prelude.{◌≡◌, ℕ, ◌+◌, ◌<◌, ◌^◌, ◌≤◌};
ghost use Rattle.trie_model.specs.Nets.{covers};
ghost use Rattle.trie_model.specs.Views.{level_of, net_of_bit};
ghost use Rattle.trie_model.specs.Spots.{bits_toward, level_at, data_bit_of, five_bits, row_below, rows_below, children_below, bit_above, bits_above, child_at, prefix_net};
ghost use Rattle.trie_model.specs.Masks.{IsDataMask, IsChildMask, IsWholeMask, covers_bit, covers_child, bit_covers};

use crate::prefix::{KeyBits, PlainPrefix};

/// The data bit of a prefix of the node at `depth`.
pub fn data_bit<W: KeyBits>(depth: u32, key: W, len: u32) -> u32
    requires fits { W.number key < 2 ^ W.width }
    requires low { depth ≤ len }
    requires high { len ≤ depth + 4 }
    requires end { len ≤ W.width }
    ensures bit { result ≡ data_bit_of W.width depth (W.number key) len }
    ensures small { result < 31 }
    ensures net { net_of_bit W.width depth (W.number key) result ≡ prefix_net W.width (W.number key) len }
{
    let level = len - depth;
    (1 << level) - 1 + (key.five_bits(depth) >> (5 - level))
}

/// The child that a key leads to: the next five bits of the key.
pub fn child_bit<W: KeyBits>(depth: u32, key: W) -> u32
    requires fits { W.number key < 2 ^ W.width }
    requires depth { depth ≤ W.width }
    ensures bit { result ≡ five_bits W.width depth (W.number key) }
    ensures small { result < 32 }
    ensures toward { depth + 5 ≤ W.width → result ≡ bits_toward W.width depth 5 (W.number key) }
{
    key.five_bits(depth)
}

/// The key of a child of the node at `depth` on the way to `key`.
pub fn extend_repr<W: KeyBits>(key: W, depth: u32, child: u32) -> W
    requires fits { W.number key < 2 ^ W.width }
    requires depth { depth + 5 ≤ W.width }
    requires child { child < 32 }
    ensures { W.number result ≡ (child_at W.width depth (W.number key) child).bits }
{
    key.with_bits(depth, 5, child)
}

/// The prefix of a data bit of the node at `depth` on the way to `key`.
pub fn reconstruct_prefix<P: PlainPrefix>(depth: u32, key: P::Number, bit: u32) -> P
    requires fits { P.Number.number key < 2 ^ P.Number.width }
    requires bit { bit < 31 }
    requires end { depth + level_of bit ≤ P.Number.width }
    ensures net { P.net result ≡ net_of_bit P.Number.width depth (P.Number.number key) bit }
    ensures raw { P.raw result ≡ (P.net result).bits }
{
    let level = level(bit);
    let number = key.with_bits(depth, level, bit + 1 - (1 << level));
    P::from_number(number, (depth + level) as u8)
}

/// The data bits `rows` levels below a spot.
fn row(spot: u32, rows: u32) -> u32
    requires spot { 1 ≤ spot }
    requires small { spot < 32 }
    requires rows { rows < 5 }
    ensures { result ≡ row_below spot rows }
{
    let count = 1u32 << rows;
    let ones = (1u64 << count) - 1;
    let first = spot << rows;
    if first < 32 {
        (ones << (first - 1)) as u32
    } else {
        0
    }
}

/// The data bits inside the prefix of a data bit.
pub fn data_cover_mask_for_bit(bit: u32) -> u32
    requires { bit < 31 }
    ensures mask { (w d k : ℕ) → IsDataMask w d result (λ b. covers w (net_of_bit w d k bit) (net_of_bit w d k b)) }
    ensures small { result < 2 ^ 31 }
    ensures rows { result ≡ rows_below (bit + 1) }
{
    let spot = bit + 1;
    row(spot, 0) + row(spot, 1) + row(spot, 2) + row(spot, 3) + row(spot, 4)
}

/// The level of a data bit.
pub(crate) fn level(bit: u32) -> u32
    requires { bit < 31 }
    ensures { result ≡ level_at (bit + 1) }
{
    if bit >= 15 {
        4
    } else if bit >= 7 {
        3
    } else if bit >= 3 {
        2
    } else if bit >= 1 {
        1
    } else {
        0
    }
}

/// The children inside the prefix of a data bit.
pub fn child_cover_mask_for_bit(bit: u32) -> u32
    requires { bit < 31 }
    ensures mask { (w d k : ℕ) → IsChildMask w d result (λ c. covers w (net_of_bit w d k bit) (child_at w d k c)) }
    ensures small { result < 2 ^ 32 }
    ensures rows { result ≡ children_below (bit + 1) }
{
    let rest = 5 - level(bit);
    let count = 1u32 << rest;
    let ones = (1u64 << count) - 1;
    let first = ((bit + 1) << rest) - 32;
    (ones << first) as u32
}

/// The data bit `rows` levels above a spot.
fn above(spot: u32, rows: u32) -> u32
    requires small { spot < 64 }
    requires rows { rows < 6 }
    ensures { result ≡ bit_above spot rows }
{
    let at = spot >> rows;
    if at > 0 && at < 32 { 1 << (at - 1) } else { 0 }
}

/// The data bits of the prefixes that contain a spot's.
fn all_above(spot: u32) -> u32
    requires spot { 1 ≤ spot }
    requires small { spot < 64 }
    ensures { result ≡ bits_above spot }
{
    above(spot, 0)
        + above(spot, 1)
        + above(spot, 2)
        + above(spot, 3)
        + above(spot, 4)
        + above(spot, 5)
}

/// The data bits of the node's prefixes inside a prefix of the node.
pub fn data_cover_mask<W: KeyBits>(depth: u32, key: W, len: u32) -> u32
    requires fits { W.number key < 2 ^ W.width }
    requires low { depth ≤ len }
    requires high { len ≤ depth + 4 }
    requires end { len ≤ W.width }
    ensures mask { IsDataMask W.width depth result (covers_bit W.width depth (W.number key) len) }
    ensures small { result < 2 ^ 31 }
    ensures rows { result ≡ rows_below (data_bit_of W.width depth (W.number key) len + 1) }
{
    data_cover_mask_for_bit(data_bit(depth, key, len))
}

/// The children of the node inside a prefix of the node.
pub fn child_cover_mask<W: KeyBits>(depth: u32, key: W, len: u32) -> u32
    requires fits { W.number key < 2 ^ W.width }
    requires low { depth ≤ len }
    requires high { len ≤ depth + 4 }
    requires end { len ≤ W.width }
    ensures mask { IsChildMask W.width depth result (covers_child W.width depth (W.number key) len) }
    ensures small { result < 2 ^ 32 }
    ensures rows { result ≡ children_below (data_bit_of W.width depth (W.number key) len + 1) }
{
    child_cover_mask_for_bit(data_bit(depth, key, len))
}

/// The data bits of the node's prefixes that contain a prefix.
pub fn data_lpm_mask<W: KeyBits>(depth: u32, key: W, len: u32) -> u32
    requires fits { W.number key < 2 ^ W.width }
    requires low { depth ≤ len }
    requires end { len ≤ W.width }
    ensures mask { IsWholeMask result (bit_covers W.width depth (W.number key) len) }
    ensures small { result < 2 ^ 31 }
{
    if len - depth < 5 {
        all_above(data_bit(depth, key, len) + 1)
    } else {
        all_above(32 + key.five_bits(depth))
    }
}
