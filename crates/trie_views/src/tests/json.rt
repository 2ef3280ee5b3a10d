//! Maps and sets in JSON, worked by hand, of each width.

use serde_json::Value;
use std::process::Abort;
use std::test::Fail;
use trie_json::{
    JsonItem, JsonRefusal, map_from_json, map_reads_back, map_to_json, set_from_json,
    set_reads_back, set_to_json,
};
use trie_map::{PrefixMap, PrefixSet};

#[test]
fn a_map_of_32_bits(rt: HostRuntime) -> Result<(), Fail> {
    let mut map: PrefixMap<(u32, u8), u64> = PrefixMap::new(rt.alloc());
    assert_eq!(rt; map.insert((0x0A00_0000, 8), 1), Ok(None));
    let value = map_to_json(rt.alloc(), &map)?;
    assert_eq!(rt;
        value.to_string(rt.alloc())?.as_str(),
        "[[[167772160,8],1]]"
    );
    let read: PrefixMap<(u32, u8), u64> = map_from_json(rt.alloc(), &value)?;
    assert_eq!(rt; read.len(), 1);
    assert_eq!(rt; read.get(&(0x0A00_0000, 8)).copied(), Some(1));
    let again = map_reads_back(rt.alloc(), &map)?;
    assert_eq!(rt; again.len(), 1);
    Ok(())
}

#[test]
fn a_map_of_128_bits(rt: HostRuntime) -> Result<(), Fail> {
    let mut map: PrefixMap<(u128, u8), u64> = PrefixMap::new(rt.alloc());
    assert_eq!(rt; map.insert((0x2001_0DB8 << 96, 32), 1), Ok(None));
    let value = map_to_json(rt.alloc(), &map)?;
    assert_eq!(rt;
        value.to_string(rt.alloc())?.as_str(),
        "[[[\"20010db8000000000000000000000000\",32],1]]"
    );
    let read: PrefixMap<(u128, u8), u64> = map_from_json(rt.alloc(), &value)?;
    assert_eq!(rt; read.get(&(0x2001_0DB8 << 96, 32)).copied(), Some(1));
    let upper = Value::from_str(
        rt.alloc(),
        "[[[\"20010DB8000000000000000000000000\",32],1]]",
    )?;
    let read = map_from_json::<(u128, u8), u64>(rt.alloc(), &upper);
    assert_eq!(rt; read.err(), Some(JsonRefusal::BadPrefix { at: 0 }));
    Ok(())
}

#[test]
fn sets_of_32_and_64_bits(rt: HostRuntime) -> Result<(), Fail> {
    let mut set: PrefixSet<(u32, u8)> = PrefixSet::new(rt.alloc());
    assert_eq!(rt; set.insert((0x0A00_0000, 8)), Ok(true));
    let value = set_to_json(rt.alloc(), &set)?;
    assert_eq!(rt; value.to_string(rt.alloc())?.as_str(), "[[167772160,8]]");
    let read: PrefixSet<(u64, u8)> = set_from_json(rt.alloc(), &value)?;
    assert!(rt; read.contains(&(0, 8)));
    let again = set_reads_back(rt.alloc(), &set)?;
    assert!(rt; again.contains(&(0x0A00_0000, 8)));
    Ok(())
}

// What the text is refused for, as a map of numbers.
fn refusal(rt: &HostRuntime, text: &str) -> Result<Option<JsonRefusal>, Fail> {
    let value = Value::from_str(rt.alloc(), text)?;
    let read = map_from_json::<(u32, u8), u64>(rt.alloc(), &value);
    Ok(read.err())
}

#[test]
fn refusals(rt: HostRuntime) -> Result<(), Fail> {
    let rows: [(&str, Option<JsonRefusal>); 7] = [
        ("[[[167772161,8],1]]", None),
        (
            "[[[167772160.5,8],1]]",
            Some(JsonRefusal::BadPrefix { at: 0 }),
        ),
        (
            "[[[167772160,33],1]]",
            Some(JsonRefusal::BadPrefix { at: 0 }),
        ),
        (
            "[[[4294967296,8],1]]",
            Some(JsonRefusal::BadPrefix { at: 0 }),
        ),
        (
            "[[[167772160,8],1],7]",
            Some(JsonRefusal::NotPair { at: 1 }),
        ),
        (
            "[[[167772160,8],\"a\"]]",
            Some(JsonRefusal::BadItem { at: 0 }),
        ),
        ("{}", Some(JsonRefusal::NotList)),
    ];
    for (text, expected) in rows {
        assert_eq!(rt; refusal(&rt, text)?, expected);
    }
    Ok(())
}

#[test]
fn host_bits_and_a_later_entry(rt: HostRuntime) -> Result<(), Fail> {
    let value = Value::from_str(rt.alloc(), "[[[167772161,8],1],[[167772160,8],2]]")?;
    let read: PrefixMap<(u32, u8), u64> = map_from_json(rt.alloc(), &value)?;
    assert_eq!(rt; read.len(), 1);
    assert_eq!(rt; read.get(&(0x0A00_0000, 8)).copied(), Some(2));
    Ok(())
}

#[test]
fn items(rt: HostRuntime) -> Result<(), Fail> {
    let value = true.to_item(rt.alloc())?;
    assert_eq!(rt; bool::from_item(rt.alloc(), &value)?, Some(true));
    assert_eq!(rt; u64::from_item(rt.alloc(), &value)?, None);
    let value = u64::MAX.to_item(rt.alloc())?;
    assert_eq!(rt; u64::from_item(rt.alloc(), &value)?, Some(u64::MAX));
    Ok(())
}
