//! Bits of prefixes in JSON.

ghost use Rattle.std.specs.Prelude.{◌≡◌, ◌^◌, ◌<◌, ◌≤◌, IfOk, IfSome, IfNone};
ghost use Rattle.serde_json.specs.View.{view};
ghost use Rattle.trie_json.specs.Writing.{bits_data};
ghost use Rattle.trie_json.specs.Reading.{IsBits, IsNoBits};

use crate::hex_digits::{read_hex, write_hex};
use nl_core::NoMemory;
use serde_json::Value;
use std::alloc::Global;
use trie_map::KeyBits;

// How many bits come next: the longest piece, or fewer where fewer are left.
fn piece_len(longest: u32, left: u32) -> u32
    requires some { 0 < longest }
    requires left { 0 < left }
    ensures some { 0 < result }
    ensures longest { result ≤ longest }
    ensures left { result ≤ left }
{
    if left < longest { left } else { longest }
}

/// The number that the bits are.
pub(crate) fn number_of<W: KeyBits>(key: W) -> u128
    requires { W.number key < 2 ^ W.width }
    ensures { result ≡ W.number key }
{
    let width = W::bits();
    let mut number = 0u128;
    let mut depth = 0u32;
    'fives: while depth < width {
        let count = piece_len(5, width - depth);
        let five = key.five_bits(depth);
        let bits = five >> (5 - count);
        number = number * (1u128 << count) + bits as u128;
        depth += count;
    }
    number
}

/// The bits that the number is.
pub(crate) fn key_of<W: KeyBits>(number: u128) -> W
    requires { number < 2 ^ W.width }
    ensures { W.number result ≡ number }
{
    let width = W::bits();
    let mut key = W::zero();
    let mut depth = 0u32;
    'words: while depth < width {
        let count = piece_len(16, width - depth);
        let bits = (number >> (width - (depth + count))) % (1u128 << count);
        key = key.with_bits(depth, count, bits as u32);
        depth += count;
    }
    key
}

/// The bits in JSON.
pub(crate) fn write_bits(alloc: Global, width: u32, bits: u128) -> Result<Value, NoMemory>
    requires { bits < 2 ^ width }
    ensures { IfOk result (λ value. view value ≡ bits_data width bits) }
{
    if width <= 64 {
        return Ok(Value::from(bits as u64));
    }
    let text = write_hex(alloc, bits)?;
    Ok(Value::from(text))
}

// The number that a value is, if it has the form of bits of this width.
fn read_number(width: u32, value: &Value) -> Option<u128>
    ensures number { IfSome result (λ number. view value.now ≡ bits_data width number) }
    ensures fits { IfSome result (λ number. number < 2 ^ 128) }
    ensures other { IfNone result (IsNoBits width (view value.now)) }
{
    if width <= 64 {
        let Some(number) = value.as_u64() else {
            return None;
        };
        return Some(number as u128);
    }
    let Some(text) = value.as_str() else {
        return None;
    };
    read_hex(text.as_bytes())
}

/// The bits of this width that a value is.
pub(crate) fn read_bits(width: u32, value: &Value) -> Option<u128>
    requires { width ≤ 128 }
    ensures bits { IfSome result (IsBits width (view value.now)) }
    ensures other { IfNone result (IsNoBits width (view value.now)) }
{
    let Some(number) = read_number(width, value) else {
        return None;
    };
    if width < 128 && number >> width != 0 {
        return None;
    }
    Some(number)
}
