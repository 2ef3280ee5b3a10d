//! The calls of views: worked look-ups, operations beside the same over plain lists, nested views, and prefixes of
//! all widths.

ghost use Rattle.std.specs.Prelude.{◌≡◌, leb};

mod adapters;
mod json;
mod maps;

use crate::{
    CloneViewPairs, CoveringUnionItem, FilterCalls, PrefixMap, Steps, TrieView, ViewCalls,
    ViewPairs, walk_gives_the_list,
};
use nl_core::NoMemory;
use std::alloc::Global;
use std::process::Abort;
use std::test::Fail;

type Address = (u32, u8);

// Maps that the generator makes for each operation.
const ROUNDS: u32 = 6;

/// A map of some 20 short prefixes, many of which contain one another.
fn map_of_seed(alloc: Global, seed: u32) -> Result<PrefixMap<Address, u64>, NoMemory> {
    let mut map = PrefixMap::new(alloc);
    let mut state = seed;
    for item in 0..20u64 {
        state = state.wrapping_mul(1_664_525).wrapping_add(1_013_904_223);
        let len = ((state >> 8) % 13) as u8;
        if len <= 32 {
            match map.insert((state & 0xC3F0_0000, len), item) {
                Ok(_) => {}
                Err((refusal, _, _)) => return Err(refusal),
            }
        }
    }
    Ok(map)
}

/// The entries of a map as a plain list, in order.
fn list_of(alloc: Global, map: &PrefixMap<Address, u64>) -> Result<Vec<(Address, u64)>, NoMemory> {
    let mut list = Vec::new(alloc);
    for (prefix, item) in walk_gives_the_list(alloc, map.view())?.iter() {
        list.push((*prefix, **item))?;
    }
    Ok(list)
}

/// Whether one prefix contains another, by their bits.
fn contains(a: Address, b: Address) -> bool {
    let rest = 32u32.saturating_sub(a.1 as u32);
    a.1 <= b.1 && (a.0 ^ b.0).checked_shr(rest).unwrap_or(0) == 0
}

/// The item of a prefix in a list.
fn item_in(list: &[(Address, u64)], prefix: Address) -> Option<u64> {
    for (other, item) in list {
        if *other == prefix {
            return Some(*item);
        }
    }
    None
}

/// The last entry of a list in order that contains a prefix, which is the longest.
fn longest_in(list: &[(Address, u64)], prefix: Address) -> Option<(Address, u64)> {
    let mut found = None;
    for (other, item) in list {
        if contains(*other, prefix) {
            found = Some((*other, *item));
        }
    }
    found
}

#[test]
fn differences_are_those_of_lists(rt: HostRuntime) -> Result<(), Fail> {
    let alloc = rt.alloc();
    for round in 0..ROUNDS {
        let a = map_of_seed(alloc, round)?;
        let b = map_of_seed(alloc, round + 100)?;
        let left = list_of(alloc, &a)?;
        let right = list_of(alloc, &b)?;
        let mut other = Vec::new(alloc);
        let mut outside = Vec::new(alloc);
        for (prefix, item) in left.iter() {
            if item_in(&right, *prefix).is_none() {
                other.push((*prefix, *item))?;
            }
            if longest_in(&right, *prefix).is_none() {
                outside.push((*prefix, *item))?;
            }
        }
        let mut found = Vec::new(alloc);
        for (prefix, item) in walk_gives_the_list(alloc, a.view().difference(b.view())?)?.iter() {
            found.push((*prefix, **item))?;
        }
        assert!(rt; found == other);
        found.clear();
        let view = a.view().covering_difference(b.view())?;
        for (prefix, item) in walk_gives_the_list(alloc, view)?.iter() {
            found.push((*prefix, **item))?;
        }
        assert!(rt; found == outside);
    }
    Ok(())
}

#[test]
fn unions_and_intersections_are_those_of_lists(rt: HostRuntime) -> Result<(), Fail> {
    let alloc = rt.alloc();
    for round in 0..ROUNDS {
        let a = map_of_seed(alloc, round)?;
        let b = map_of_seed(alloc, round + 200)?;
        let left = list_of(alloc, &a)?;
        let right = list_of(alloc, &b)?;
        let mut both = 0usize;
        let mut last = None;
        for (prefix, item) in walk_gives_the_list(alloc, a.view().union(b.view()))?.iter() {
            let (first, second) = item.into_both();
            assert_eq!(rt; first.map(|item| *item), item_in(&left, *prefix));
            assert_eq!(rt; second.map(|item| *item), item_in(&right, *prefix));
            assert!(rt; last < Some(*prefix));
            last = Some(*prefix);
            if item.both().is_some() {
                both = both.wrapping_add(1);
            }
        }
        let Some(common) = a.view().intersection(b.view())? else {
            assert!(rt; false);
            return Ok(());
        };
        let pairs = walk_gives_the_list(alloc, common)?;
        assert_eq!(rt; pairs.len(), both);
        for (prefix, items) in pairs.iter() {
            assert_eq!(rt; Some(*items.0), item_in(&left, *prefix));
            assert_eq!(rt; Some(*items.1), item_in(&right, *prefix));
        }
    }
    Ok(())
}

#[test]
fn covering_unions_are_those_of_lists(rt: HostRuntime) -> Result<(), Fail> {
    let alloc = rt.alloc();
    for round in 0..ROUNDS {
        let a = map_of_seed(alloc, round)?;
        let b = map_of_seed(alloc, round + 300)?;
        let left = list_of(alloc, &a)?;
        let right = list_of(alloc, &b)?;
        let view = a.view().covering_union(b.view())?;
        for (prefix, item) in walk_gives_the_list(alloc, view)?.iter() {
            let (first, second) = match item {
                CoveringUnionItem::Left { left, right_lpm } => {
                    (
                        Some((*prefix, **left)),
                        right_lpm.map(|pair| (pair.0, *pair.1)),
                    )
                }
                CoveringUnionItem::Right { left_lpm, right } => {
                    (
                        left_lpm.map(|pair| (pair.0, *pair.1)),
                        Some((*prefix, **right)),
                    )
                }
                CoveringUnionItem::Both { left, right } => {
                    (Some((*prefix, **left)), Some((*prefix, **right)))
                }
            };
            assert_eq!(rt; first, longest_in(&left, *prefix));
            assert_eq!(rt; second, longest_in(&right, *prefix));
        }
    }
    Ok(())
}

#[test]
fn three_views_nest(rt: HostRuntime) -> Result<(), Fail> {
    let alloc = rt.alloc();
    let a = map_of_seed(alloc, 1)?;
    let b = map_of_seed(alloc, 2)?;
    let c = map_of_seed(alloc, 3)?;
    let d = map_of_seed(alloc, 4)?;
    let left = list_of(alloc, &a)?;
    let right = list_of(alloc, &b)?;
    let outside = list_of(alloc, &c)?;
    let lacked = list_of(alloc, &d)?;
    let both = a.view().union(b.view());
    let view = both.difference(d.view())?.covering_difference(c.view())?;
    for (prefix, item) in walk_gives_the_list(alloc, view)?.iter() {
        assert_eq!(rt; item.left().map(|item| **item), item_in(&left, *prefix));
        assert_eq!(rt; item.right().map(|item| **item), item_in(&right, *prefix));
        assert_eq!(rt; item_in(&lacked, *prefix), None);
        assert_eq!(rt; longest_in(&outside, *prefix), None);
    }
    Ok(())
}

/// Whether an item is at least 7.
fn is_high(_: Address, item: &&u64) -> bool
    ensures { result ≡ leb 7 item.now.now }
{
    **item >= 7
}

/// Whether an item is at most 14.
fn is_low(_: Address, item: &&u64) -> bool
    ensures { result ≡ leb item.now.now 14 }
{
    **item <= 14
}

/// The entries of a list that lie in a prefix, with items from 7 on.
fn high_inside(
    alloc: Global,
    list: &[(Address, u64)],
    place: Address,
    last: u64,
) -> Result<Vec<(Address, u64)>, NoMemory> {
    let mut inside = Vec::new(alloc);
    for (prefix, item) in list {
        if contains(place, *prefix) && *item >= 7 && *item <= last {
            inside.push((*prefix, *item))?;
        }
    }
    Ok(inside)
}

/// The entries of a view that lie in a prefix.
fn entries_inside<'a, V: TrieView<'a, P = Address, T = &'a u64>>(
    alloc: Global,
    view: V,
    place: Address,
) -> Result<Vec<(Address, u64)>, NoMemory>
    requires { V.valid view }
{
    let mut inside = Vec::new(alloc);
    if place.1 <= 32 {
        if let Some(part) = view.find(&place)? {
            for (prefix, item) in walk_gives_the_list(alloc, part)?.iter() {
                inside.push((*prefix, **item))?;
            }
        }
    }
    Ok(inside)
}

#[test]
fn narrowed_filters_are_those_of_lists(rt: HostRuntime) -> Result<(), Fail> {
    let alloc = rt.alloc();
    for round in 0..ROUNDS {
        let map = map_of_seed(alloc, round)?;
        let list = list_of(alloc, &map)?;
        for place in [(0, 0), (0xC000_0000, 2), (0x8000_0000, 6)] {
            let once = map.view().filter(alloc, is_high)?;
            let expected = high_inside(alloc, &list, place, u64::MAX)?;
            assert!(rt; entries_inside(alloc, once, place)? == expected);
            let twice = map.view().filter(alloc, is_high)?.filter(alloc, is_low)?;
            let expected = high_inside(alloc, &list, place, 14)?;
            assert!(rt; entries_inside(alloc, twice, place)? == expected);
        }
    }
    Ok(())
}

#[test]
fn longest_matches_of_the_widest_prefixes(rt: HostRuntime) -> Result<(), Fail> {
    let alloc = rt.alloc();
    let mut map: PrefixMap<(u128, u8), u64> = PrefixMap::new(alloc);
    let _old = map.insert((0, 0), 1);
    let _old = map.insert((u128::MAX, 128), 2);
    let mut steps = Steps::start();
    let longest = map.view().find_lpm_value(&(u128::MAX, 128), &mut steps)?;
    assert_eq!(rt;
        longest.map(|pair| (pair.0, *pair.1)),
        Some(((u128::MAX, 128), 2))
    );
    let shorter = map
        .view()
        .find_lpm_value(&(u128::MAX - 1, 128), &mut steps)?;
    assert_eq!(rt; shorter.map(|pair| (pair.0, *pair.1)), Some(((0, 0), 1)));
    Ok(())
}

#[test]
fn a_prefix_above_the_place_covers_it(rt: HostRuntime) -> Result<(), Fail> {
    let alloc = rt.alloc();
    let mut left: PrefixMap<(u64, u8), u64> = PrefixMap::new(alloc);
    let mut right: PrefixMap<(u64, u8), u64> = PrefixMap::new(alloc);
    let place = (0x0A01_0000_0000_0000, 16);
    let _old = left.insert(place, 1);
    let _old = left.insert((0x0B00_0000_0000_0000, 8), 2);
    let _old = right.insert((0x0A00_0000_0000_0000, 8), 0);
    let outside = left.view().covering_difference(right.view())?;
    let pairs = walk_gives_the_list(alloc, outside)?;
    assert_eq!(rt; pairs.len(), 1);
    assert!(rt;
        left.view()
            .covering_difference(right.view())?
            .find_exact(&place)?
            .is_none()
    );
    let Some(inner) = left.view_at(&place) else {
        assert!(rt; false);
        return Ok(());
    };
    assert!(rt; inner.covering_difference(right.view())?.value()?.is_none());
    Ok(())
}

/// Some of what was asked, with its item.
fn found(pair: Option<(Address, &u64)>) -> Option<(Address, u64)> {
    pair.map(|pair| (pair.0, *pair.1))
}

#[test]
fn look_ups_of_one_view(rt: HostRuntime) -> Result<(), Fail> {
    let alloc = rt.alloc();
    let mut map: PrefixMap<Address, u64> = PrefixMap::new(alloc);
    let _old = map.insert((0, 0), 1);
    let _old = map.insert((u32::MAX, 32), 2);
    let mut steps = Steps::start();
    let longest = map.view().find_lpm_value(&(u32::MAX - 1, 32), &mut steps)?;
    assert_eq!(rt; found(longest), Some(((0, 0), 1)));
    let exact = map.view().find_exact_value(&(u32::MAX, 32))?;
    assert_eq!(rt; found(exact), Some(((u32::MAX, 32), 2)));
    assert!(rt; map.view().find_exact(&(0, 1))?.is_none());
    assert_eq!(rt; map.view().prefix(), (0, 0));
    assert_eq!(rt; found(map.view().prefix_value()?), Some(((0, 0), 1)));
    assert_eq!(rt; map.view().value()?.map(|item| *item), Some(1));
    Ok(())
}

#[test]
fn walks_of_one_view(rt: HostRuntime) -> Result<(), Fail> {
    let alloc = rt.alloc();
    let mut map: PrefixMap<Address, u64> = PrefixMap::new(alloc);
    let _old = map.insert((0, 0), 1);
    let _old = map.insert((u32::MAX, 32), 2);
    assert_eq!(rt; map.view().keys(alloc)?.next(), Some(Ok((0, 0))));
    assert_eq!(rt;
        map.view()
            .values(alloc)?
            .next()
            .map(|item| item.map(|item| *item)),
        Some(Ok(1))
    );
    let mut rest = map.view().iter_from(alloc, &(0, 0), false)?;
    assert_eq!(rt;
        rest.next().map(|pair| pair.map(|pair| pair.0)),
        Some(Ok((u32::MAX, 32)))
    );
    let mut whole = map.view().iter(alloc)?;
    assert_eq!(rt;
        whole.next().map(|pair| pair.map(|pair| pair.0)),
        Some(Ok((0, 0)))
    );
    Ok(())
}
