//! Sets in JSON.

ghost use Rattle.std.specs.Prelude.{◌≡◌, IfOk, IfErr};
ghost use Rattle.serde_json.specs.View.{view};
ghost use Rattle.trie_model.specs.Nets.{Net, IsNet};
ghost use Rattle.trie_model.specs.Walks.{Within};
ghost use Rattle.trie_json.specs.Writing.{set_data};
ghost use Rattle.trie_json.specs.Reading.{ReadsSet, RefusesSet};
ghost use Rattle.trie_json.specs.declared.refusal.JsonRefusal.TheVariants.{NoMemory as OutOfMemory};

use crate::prefix::{read_prefix, write_prefix};
use crate::refusal::JsonRefusal;
use nl_core::NoMemory;
use serde_json::Value;
use std::alloc::Global;
use trie_map::{PlainPrefix, PrefixSet};

// Each prefix of the set is without host bits. It does nothing.
fn has_nets<P: PlainPrefix>(set: &PrefixSet<P>)
    ensures { (n : Net) (x : Unit {0}) → Within set.now n x → IsNet P.Number.width n }
{
    let _view = set.view();
}

/// The set as a list of its prefixes `[bits, length]` in order.
pub fn set_to_json<P: PlainPrefix>(alloc: Global, set: &PrefixSet<P>) -> Result<Value, NoMemory>
    ensures { IfOk result (λ value. view value ≡ set_data P.Number.width set.now) }
{
    has_nets(set);
    let mut members = Vec::with_capacity(alloc, set.len())?;
    let mut walk = set.iter()?;
    'members: while let Some(pair) = walk.next() {
        let (prefix, _) = pair?;
        let member = write_prefix(alloc, &prefix)?;
        members.push(member)?;
    }
    Ok(Value::from(members))
}

/// The set that a list of prefixes is. Host bits are dropped.
pub fn set_from_json<P: PlainPrefix>(
    alloc: Global,
    value: &Value,
) -> Result<PrefixSet<P>, JsonRefusal>
    ensures read { IfOk result (λ set. ReadsSet P.Number.width (view value.now) set) }
    ensures refused { IfErr result (RefusesSet P.Number.width (view value.now)) }
{
    let Some(list) = value.as_array() else {
        return Err(JsonRefusal::NotList);
    };
    let mut set = PrefixSet::new(alloc);
    'elements: for (at, element) in list.iter().enumerate() {
        let Some(prefix) = read_prefix(element) else {
            return Err(JsonRefusal::BadPrefix { at });
        };
        match set.insert(prefix) {
            Ok(_) => {}
            Err(_) => return Err(JsonRefusal::NoMemory),
        }
    }
    Ok(set)
}

/// The set that is read from what is written of a set: it is equal, and nothing is refused but memory.
pub fn set_reads_back<P: PlainPrefix>(
    alloc: Global,
    set: &PrefixSet<P>,
) -> Result<PrefixSet<P>, JsonRefusal>
    ensures equal { IfOk result (λ read. read ≡ set.now) }
    ensures refused { IfErr result (λ e. e ≡ OutOfMemory) }
{
    has_nets(set);
    let _walk = set.iter()?;
    let value = set_to_json(alloc, set)?;
    set_from_json(alloc, &value)
}
