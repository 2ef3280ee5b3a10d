//! Maps in JSON.

ghost use Rattle.std.specs.Prelude.{◌≡◌, ◌≤◌, IfOk, IfErr, OnOk};
ghost use Rattle.serde_json.specs.View.{view};
ghost use Rattle.trie_model.specs.Maps.{inserted};
ghost use Rattle.trie_json.specs.Writing.{entry_data, map_data};
ghost use Rattle.trie_json.specs.Reading.{ReadsEntry, IsBadEntry, ReadsMap, RefusesMap};
ghost use Rattle.trie_json.specs.declared.refusal.JsonRefusal.TheVariants.{NoMemory as OutOfMemory};

use crate::item::JsonItem;
use crate::prefix::{read_pair, read_prefix, write_pair, write_prefix};
use crate::refusal::JsonRefusal;
use nl_core::NoMemory;
use serde_json::Value;
use std::alloc::Global;
use trie_map::{PlainPrefix, PrefixMap};

// An entry.
fn write_entry<P: PlainPrefix, T: JsonItem>(
    alloc: Global,
    prefix: &P,
    item: &T,
) -> Result<Value, NoMemory>
    requires { (P.net prefix.now).len ≤ P.Number.width }
    ensures { IfOk result (λ value. view value ≡ entry_data P.Number.width T.written (P.net prefix.now, item.now)) }
{
    let first = write_prefix(alloc, prefix)?;
    let second = item.to_item(alloc)?;
    write_pair(alloc, first, second)
}

// The entry that the element at a place is.
fn read_entry<P: PlainPrefix, T: JsonItem>(
    alloc: Global,
    element: &Value,
    at: usize,
) -> Result<(P, T), JsonRefusal>
    ensures entry { IfOk result (λ r. ReadsEntry P.Number.width T.read (view element.now) (P.net r.0) r.1) }
    ensures refused { IfErr result (IsBadEntry P.Number.width T.read (view element.now) at) }
{
    let Some((first, second)) = read_pair(element) else {
        return Err(JsonRefusal::NotPair { at });
    };
    let Some(prefix) = read_prefix(first) else {
        return Err(JsonRefusal::BadPrefix { at });
    };
    let Some(item) = T::from_item(alloc, second)? else {
        return Err(JsonRefusal::BadItem { at });
    };
    Ok((prefix, item))
}

/// The map as a list of `[prefix, item]` in the order of the prefixes, where a prefix is `[bits, length]`.
/// The bits of up to 64 bits are a number, those of more are 32 lower-case hex digits.
pub fn map_to_json<P: PlainPrefix, T: JsonItem>(
    alloc: Global,
    map: &PrefixMap<P, T>,
) -> Result<Value, NoMemory>
    ensures { IfOk result (λ value. view value ≡ map_data P.Number.width T.written map.now) }
{
    map.in_order();
    let mut entries = Vec::with_capacity(alloc, map.len())?;
    let mut walk = map.iter()?;
    'entries: while let Some(pair) = walk.next() {
        let (prefix, item) = pair?;
        let entry = write_entry(alloc, &prefix, item)?;
        entries.push(entry)?;
    }
    Ok(Value::from(entries))
}

// Puts an entry into a map.
fn put<P: PlainPrefix, T: Drop>(
    map: &mut PrefixMap<P, T>,
    prefix: P,
    item: T,
) -> Result<(), NoMemory>
    requires { (P.net prefix).len ≤ P.Number.width }
    ensures { OnOk result (map.new ≡ inserted P.Number.width map.old (P.net prefix) item) }
{
    match map.insert(prefix, item) {
        Ok(_) => Ok(()),
        Err((refusal, _, _)) => Err(refusal),
    }
}

/// The map that a list of `[prefix, item]` is. Host bits are dropped, and a later entry of a prefix
/// wins.
pub fn map_from_json<P: PlainPrefix, T: JsonItem>(
    alloc: Global,
    value: &Value,
) -> Result<PrefixMap<P, T>, JsonRefusal>
    ensures read { IfOk result (λ map. ReadsMap P.Number.width T.read (view value.now) map) }
    ensures refused { IfErr result (RefusesMap P.Number.width T.read (view value.now)) }
{
    let Some(list) = value.as_array() else {
        return Err(JsonRefusal::NotList);
    };
    let mut map = PrefixMap::new(alloc);
    'elements: for (at, element) in list.iter().enumerate() {
        let (prefix, item) = read_entry(alloc, element, at)?;
        put(&mut map, prefix, item)?;
    }
    Ok(map)
}

/// The map that is read from what is written of a map: it is equal, and nothing is refused but memory.
pub fn map_reads_back<P: PlainPrefix, T: JsonItem>(
    alloc: Global,
    map: &PrefixMap<P, T>,
) -> Result<PrefixMap<P, T>, JsonRefusal>
    ensures equal { IfOk result (λ read. read ≡ map.now) }
    ensures refused { IfErr result (λ e. e ≡ OutOfMemory) }
{
    map.in_order();
    let value = map_to_json(alloc, map)?;
    map_from_json(alloc, &value)
}
