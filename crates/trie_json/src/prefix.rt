//! Prefixes in JSON.

ghost use Rattle.std.specs.Prelude.{◌≡◌, ◌≤◌, IfOk, IfSome, IfNone};
ghost use Rattle.serde_json.specs.View.{view};
ghost use Rattle.trie_json.specs.Writing.{net_data, pair_data};
ghost use Rattle.trie_json.specs.Reading.{IsNoPair, IsNoPrefix, ReadsNet};

use crate::bits::{key_of, number_of, read_bits, write_bits};
use nl_core::NoMemory;
use serde_json::Value;
use std::alloc::Global;
use trie_map::{KeyBits, PlainPrefix};

/// A list of two.
pub(crate) fn write_pair(alloc: Global, first: Value, second: Value) -> Result<Value, NoMemory>
    ensures { IfOk result (λ value. view value ≡ pair_data (view first) (view second)) }
{
    let mut pair = Vec::with_capacity(alloc, 2)?;
    pair.push(first)?;
    pair.push(second)?;
    Ok(Value::from(pair))
}

/// Both elements of a list of two.
pub(crate) fn read_pair(value: &Value) -> Option<(&Value, &Value)>
    ensures pair { IfSome result (λ pair. view value.now ≡ pair_data (view pair.0.now) (view pair.1.now)) }
    ensures other { IfNone result (IsNoPair (view value.now)) }
{
    let Some(list) = value.as_array() else {
        return None;
    };
    let pair = list.as_slice();
    if pair.len() != 2 {
        return None;
    }
    Some((&pair[0], &pair[1]))
}

/// A prefix, without its host bits.
pub(crate) fn write_prefix<P: PlainPrefix>(alloc: Global, prefix: &P) -> Result<Value, NoMemory>
    requires { (P.net prefix.now).len ≤ P.Number.width }
    ensures { IfOk result (λ value. view value ≡ net_data P.Number.width (P.net prefix.now)) }
{
    let number = number_of(prefix.number());
    let bits = write_bits(alloc, P::Number::bits(), number)?;
    write_pair(alloc, bits, Value::from(prefix.length()))
}

/// The prefix that a value is. Its host bits are dropped.
pub(crate) fn read_prefix<P: PlainPrefix>(value: &Value) -> Option<P>
    ensures net { IfSome result (λ prefix. ReadsNet P.Number.width (view value.now) (P.net prefix)) }
    ensures other { IfNone result (IsNoPrefix P.Number.width (view value.now)) }
{
    let width = P::Number::bits();
    let Some((bits, length)) = read_pair(value) else {
        return None;
    };
    let Some(number) = read_bits(width, bits) else {
        return None;
    };
    let Some(len) = length.as_u64() else {
        return None;
    };
    if len > width as u64 {
        return None;
    }
    Some(P::from_number(key_of(number), len as u8))
}
