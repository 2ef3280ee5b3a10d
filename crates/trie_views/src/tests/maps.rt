//! Each public call once, the edges of nodes, and maps beside plain lists.

ghost use Rattle.std.specs.Prelude.{◌≡◌, ◌≤◌, IsSome, None};
ghost use Rattle.trie_model.specs.Maps.{inserted, value_at};

use std::process::Abort;
use std::test::Fail;
use trie_map::{
    AsView, CloneView, KeyBits, PlainPrefix, Prefix, PrefixMap, PrefixSet, Steps, TrieView,
    TryClone, ViewIter, child_bit, child_cover_mask, child_cover_mask_for_bit, data_bit,
    data_cover_mask, data_cover_mask_for_bit, data_lpm_mask, extend_repr, lies_in,
    mask_from_prefix_len, reconstruct_prefix, walk_gives_the_list,
};

#[test]
fn masks_of_a_node(rt: HostRuntime) -> Result<(), Fail> {
    assert_eq!(rt; data_bit(0, 0xC000_0000u32, 2), 6);
    assert_eq!(rt; data_bit(30, 3u32, 32), 6);
    assert_eq!(rt; child_bit(0, 0xF800_0000u32), 31);
    assert_eq!(rt; child_bit(30, 3u32), 24);
    assert_eq!(rt; data_lpm_mask(0, 0xC000_0000u32, 2), 69);
    assert_eq!(rt; data_lpm_mask(0, 0xC000_0000u32, 9), 0x0800_2045);
    assert_eq!(rt; data_cover_mask(0, 0x8000_0000u32, 1), 0x7F80_7864);
    assert_eq!(rt; child_cover_mask(0, 0x8000_0000u32, 1), 0xFFFF_0000);
    assert_eq!(rt; data_cover_mask_for_bit(0), 0x7FFF_FFFF);
    assert_eq!(rt; data_cover_mask_for_bit(2), 0x7F80_7864);
    assert_eq!(rt; child_cover_mask_for_bit(2), 0xFFFF_0000);
    assert_eq!(rt; extend_repr(0x0800_0000u32, 5, 1), 0x0840_0000);
    let prefix: (u32, u8) = reconstruct_prefix(5, 0x0800_0000u32, 2);
    assert_eq!(rt; prefix, (0x0C00_0000, 6));
    assert_eq!(rt; mask_from_prefix_len::<u32>(8), 0xFF00_0000);
    assert_eq!(rt; mask_from_prefix_len::<u128>(0), 0);
    Ok(())
}

#[test]
fn prefixes_of_three_widths(rt: HostRuntime) -> Result<(), Fail> {
    let prefix: (u32, u8) = Prefix::from_repr_len(0x0A01_0203, 16);
    assert_eq!(rt; prefix, (0x0A01_0000, 16));
    assert_eq!(rt; (0x0A01_0203u32, 8u8).mask(), 0x0A00_0000);
    assert_eq!(rt; (0x0A01_0203u32, 8u8).repr(), 0x0A01_0203);
    assert_eq!(rt; (0x0A01_0203u32, 8u8).prefix_len(), 8);
    assert_eq!(rt; <(u64, u8) as Prefix>::num_bits(), 64);
    assert!(rt; (7u64, 0u8).contains(&(9, 64)));
    assert!(rt; !(1u128 << 127, 1u8).contains(&(1, 128)));
    assert!(rt; lies_in(0x0A00_0000u32, 8, 0x0A01_0203, 32));
    assert!(rt; !lies_in(0x0A00_0000u32, 8, 0x0B01_0203, 32));
    assert!(rt; !lies_in(0x0A00_0000u32, 8, 0x0A00_0000, 7));
    assert_eq!(rt; 0x0A01_0203u32.common_bits(0x0A01_8203), 16);
    assert_eq!(rt; 5u64.common_bits(5), 64);
    assert_eq!(rt; 1u128.common_bits(1 << 127), 0);
    Ok(())
}

/// The longest entry that contains a prefix.
fn best<P: PlainPrefix>(map: &PrefixMap<P, u32>, prefix: P) -> Option<(P, u32)>
    requires { (P.net prefix).len ≤ P.Number.width }
{
    map.get_lpm(&prefix).map(|found| (found.0, *found.1))
}

#[test]
fn longest_matches(rt: HostRuntime) -> Result<(), Fail> {
    let mut map: PrefixMap<(u32, u8), u32> = PrefixMap::new(rt.alloc());
    assert_eq!(rt; best(&map, (0x0A01_0203, 32)), None);
    assert_eq!(rt; map.insert((0, 0), 1), Ok(None));
    assert_eq!(rt; map.insert((0xFFFF_FFFF, 32), 2), Ok(None));
    assert_eq!(rt; best(&map, (0xFFFF_FFFF, 32)), Some(((0xFFFF_FFFF, 32), 2)));
    assert_eq!(rt; best(&map, (0xFFFF_FFFE, 32)), Some(((0, 0), 1)));
    assert_eq!(rt; map.insert((0x0A00_0000, 8), 3), Ok(None));
    assert_eq!(rt; map.insert((0x0A01_0000, 16), 4), Ok(None));
    assert_eq!(rt; best(&map, (0x0A01_0204, 32)), Some(((0x0A01_0000, 16), 4)));
    assert_eq!(rt; best(&map, (0x0A02_0304, 32)), Some(((0x0A00_0000, 8), 3)));
    assert_eq!(rt; best(&map, (0x0A01_0203, 15)), Some(((0x0A00_0000, 8), 3)));
    assert_eq!(rt; best(&map, (0xFFFF_FFFF, 0)), Some(((0, 0), 1)));
    Ok(())
}

#[test]
fn longest_matches_of_128_bits(rt: HostRuntime) -> Result<(), Fail> {
    let mut map: PrefixMap<(u128, u8), u32> = PrefixMap::new(rt.alloc());
    assert_eq!(rt; map.insert((0, 0), 1), Ok(None));
    assert_eq!(rt; map.insert((u128::MAX, 128), 2), Ok(None));
    assert_eq!(rt; best(&map, (u128::MAX, 128)), Some(((u128::MAX, 128), 2)));
    assert_eq!(rt; best(&map, (u128::MAX - 1, 128)), Some(((0, 0), 1)));
    assert_eq!(rt; map.insert((u128::MAX, 127), 3), Ok(None));
    assert_eq!(rt;
        best(&map, (u128::MAX - 1, 128)),
        Some(((u128::MAX - 1, 127), 3))
    );
    Ok(())
}

#[test]
fn sets(rt: HostRuntime) -> Result<(), Fail> {
    let mut set: PrefixSet<(u32, u8)> = PrefixSet::new(rt.alloc());
    assert!(rt; set.is_empty());
    assert_eq!(rt; set.insert((0x0A00_00FF, 24)), Ok(true));
    assert_eq!(rt; set.insert((0x0A00_0000, 24)), Ok(false));
    assert!(rt; set.contains(&(0x0A00_0001, 24)));
    assert_eq!(rt; set.len(), 1);
    assert!(rt; set.remove(&(0x0A00_0000, 24)));
    assert!(rt; !set.remove(&(0x0A00_0000, 24)));
    Ok(())
}

#[test]
fn walks_in_order(rt: HostRuntime) -> Result<(), Fail> {
    let sorted: [((u32, u8), u32); 5] = [
        ((0, 0), 1),
        ((0x0A00_0000, 8), 2),
        ((0x0A01_0000, 16), 3),
        ((0x0A01_0203, 32), 4),
        ((0xC0A8_0100, 24), 5),
    ];
    let mut map: PrefixMap<(u32, u8), u32> = PrefixMap::new(rt.alloc());
    for at in [4usize, 0, 2, 1, 3] {
        assert_eq!(rt; map.insert(sorted[at].0, sorted[at].1), Ok(None));
    }
    let mut walk = map.iter()?;
    assert_eq!(rt;
        walk.next()
            .map(|pair| pair.map(|found| (found.0, *found.1))),
        Some(Ok(sorted[0]))
    );
    let pairs = walk_gives_the_list(rt.alloc(), AsView::view(&map))?;
    assert_eq!(rt; pairs.len(), sorted.len());
    for (pair, entry) in pairs.iter().zip(sorted.iter()) {
        assert_eq!(rt; (pair.0, *pair.1), *entry);
    }
    Ok(())
}

#[test]
fn views_count_their_nodes(rt: HostRuntime) -> Result<(), Fail> {
    let mut set: PrefixSet<(u32, u8)> = PrefixSet::new(rt.alloc());
    assert_eq!(rt; set.insert((0x0800_0000, 5)), Ok(true));
    let mut steps = Steps::start();
    let view = set.view_counted(&mut steps);
    assert_eq!(rt; (view.depth(), view.key(), view.prefix_len()), (0, 0, 0));
    assert_eq!(rt; (view.data_bitmap(), view.child_bitmap()), (0, 2));
    assert!(rt; view.frugal());
    assert_eq!(rt; steps.count(), 1);
    Ok(())
}

#[test]
fn views_and_walks_from_a_prefix(rt: HostRuntime) -> Result<(), Fail> {
    let mut map: PrefixMap<(u64, u8), u32> = PrefixMap::new(rt.alloc());
    assert_eq!(rt; map.insert((1 << 59, 5), 1), Ok(None));
    assert_eq!(rt; map.insert((1 << 54, 10), 2), Ok(None));
    assert_eq!(rt; map.insert((3 << 54, 64), 3), Ok(None));
    assert!(rt; map.view_at(&(1 << 63, 1)).is_none());
    assert!(rt; map.view_at(&(1 << 59, 6)).is_none());
    let Some(view) = map.view_at(&(0, 5)) else {
        return Err("entries lie in it".into());
    };
    assert_eq!(rt; (view.key(), view.prefix_len()), (0, 5));
    assert_eq!(rt; (view.data_bitmap(), view.child_bitmap()), (0, 10));
    let Ok(mut walk) = map.iter_from(&(1 << 54, 10), true) else {
        return Err("no memory".into());
    };
    assert_eq!(rt;
        walk.next().map(|pair| pair.map(|found| *found.1)),
        Some(Ok(2))
    );
    let Ok(mut walk) = map.iter_from(&(1 << 54, 10), false) else {
        return Err("no memory".into());
    };
    assert_eq!(rt;
        walk.next().map(|pair| pair.map(|found| *found.1)),
        Some(Ok(3))
    );
    assert_eq!(rt;
        walk.next().map(|pair| pair.map(|found| *found.1)),
        Some(Ok(1))
    );
    assert!(rt; walk.next().is_none());
    Ok(())
}

#[test]
fn clones(rt: HostRuntime) -> Result<(), Fail> {
    let mut map: PrefixMap<(u32, u8), u32> = PrefixMap::new(rt.alloc());
    assert_eq!(rt; map.insert((0x0A00_0000, 8), 2), Ok(None));
    assert_eq!(rt; map.insert((0x0A01_0203, 32), 4), Ok(None));
    let copy = map.clone_with(|item| Ok(*item))?;
    assert_eq!(rt; map.insert((0x0A01_0203, 32), 5), Ok(Some(4)));
    assert_eq!(rt; copy.len(), 2);
    assert_eq!(rt; copy.get(&(0x0A00_0000, 8)).copied(), Some(2));
    assert_eq!(rt; copy.get(&(0x0A01_0203, 32)).copied(), Some(4));
    let again = TryClone::clone_with(&map)?;
    assert_eq!(rt; again.get(&(0x0A01_0203, 32)).copied(), Some(5));
    let mut set: PrefixSet<(u32, u8)> = PrefixSet::new(rt.alloc());
    assert_eq!(rt; set.insert((0x0A00_0000, 24)), Ok(true));
    let copy = set.clone_with()?;
    assert!(rt; copy.contains(&(0x0A00_0000, 24)));
    assert_eq!(rt; (true.clone_with()?, 7u8.clone_with()?), (true, 7));
    Ok(())
}

/// Writes the value of a prefix that has one: what a caller of `get_mut` knows.
fn overwrite<P: PlainPrefix, T: Drop>(map: &mut PrefixMap<P, T>, prefix: &P, value: T)
    requires { (P.net prefix.now).len ≤ P.Number.width }
    ensures there { IsSome (value_at map.old (P.net prefix.now))
        → map.new ≡ inserted P.Number.width map.old (P.net prefix.now) value }
    ensures not_there { value_at map.old (P.net prefix.now) ≡ None → map.new ≡ map.old }
{
    if let Some(item) = map.get_mut(prefix) {
        *item = value;
    }
}

#[test]
fn items_are_written_in_place(rt: HostRuntime) -> Result<(), Fail> {
    let mut map: PrefixMap<(u128, u8), u32> = PrefixMap::new(rt.alloc());
    assert_eq!(rt; map.insert((0, 0), 1), Ok(None));
    assert_eq!(rt; map.insert((5, 128), 2), Ok(None));
    assert!(rt; map.get_mut(&(4, 127)).is_none());
    overwrite(&mut map, &(5, 128), 7);
    overwrite(&mut map, &(4, 127), 8);
    assert_eq!(rt; map.get(&(5, 128)).copied(), Some(7));
    assert_eq!(rt; map.get(&(0, 0)).copied(), Some(1));
    assert_eq!(rt; map.len(), 2);
    Ok(())
}

/// The value of the longest prefix in a plain list of masks, bits and values that contains a number.
fn longest_of(list: &[(u32, u32, u32)], number: u32) -> Option<u32> {
    let mut longest = (0, None);
    for (mask, bits, value) in list {
        if number & *mask == *bits && longest.0 <= *mask {
            longest = (*mask, Some(*value));
        }
    }
    longest.1
}

/// Sets or takes out the value of a prefix, in a map and in a plain list, and compares them.
fn change(
    rt: &impl Abort,
    map: &mut PrefixMap<(u32, u8), u32>,
    list: &mut Vec<(u32, u32, u32)>,
    prefix: (u32, u8),
    value: Option<u32>,
) -> Result<(), Fail>
    requires { prefix.1 ≤ 32 }
{
    let mask = mask_from_prefix_len::<u32>(prefix.1);
    let bits = prefix.0 & mask;
    let was = list
        .iter()
        .find(|entry| entry.0 == mask && entry.1 == bits)
        .map(|entry| entry.2);
    list.retain(|entry| entry.0 != mask || entry.1 != bits);
    if let Some(item) = value {
        assert_eq!(rt; map.insert(prefix, item), Ok(was));
        list.push((mask, bits, item))?;
    } else {
        assert_eq!(rt; map.remove(&prefix), was);
    }
    assert_eq!(rt; map.len(), list.len());
    assert_eq!(rt; map.get(&prefix).copied(), value);
    assert_eq!(rt;
        map.get_lpm(&(prefix.0, 32)).map(|found| *found.1),
        longest_of(list, prefix.0)
    );
    Ok(())
}

#[test]
fn every_length_beside_a_plain_list(rt: HostRuntime) -> Result<(), Fail> {
    let branches = [0xC0A8_0101u32, 0xC0A8_8101, 0xC0A8_0102, 0x3FFF_FFFF];
    let mut map: PrefixMap<(u32, u8), u32> = PrefixMap::new(rt.alloc());
    let mut list: Vec<(u32, u32, u32)> = Vec::new(rt.alloc());
    // 132 prefixes are set and taken out, each time in an order that leaps.
    for step in 0..264u32 {
        let pick = step * 61 % 132;
        let prefix = (branches[(pick % 4) as usize], (pick / 4) as u8);
        let value = if step < 132 { Some(step) } else { None };
        change(&rt, &mut map, &mut list, prefix, value)?;
    }
    assert!(rt; map.is_empty());
    assert_eq!(rt; map.view().child_bitmap(), 0);
    Ok(())
}

#[test]
fn edges_of_nodes(rt: HostRuntime) -> Result<(), Fail> {
    let mut map: PrefixMap<(u32, u8), u32> = PrefixMap::new(rt.alloc());
    let mut list: Vec<(u32, u32, u32)> = Vec::new(rt.alloc());
    for value in [Some(1), Some(2), None] {
        for edge in 0..7u8 {
            // The last bit above the edge, the first below it, and both lengths.
            let last = 0xA5A5_A5A5u32 ^ (1u32 << (32 - 5 * edge as u32).min(31));
            change(&rt, &mut map, &mut list, (last, 5 * edge), value)?;
            let first = 0xA5A5_A5A5u32 ^ (1u32 << (31 - 5 * edge as u32));
            change(&rt, &mut map, &mut list, (first, 5 * edge + 1), value)?;
            change(&rt, &mut map, &mut list, (first, 5 * edge), value)?;
        }
    }
    assert!(rt; map.is_empty());
    Ok(())
}

#[test]
fn the_last_entry_of_a_chain(rt: HostRuntime) -> Result<(), Fail> {
    let mut set: PrefixSet<(u128, u8)> = PrefixSet::new(rt.alloc());
    assert_eq!(rt; set.insert((7, 128)), Ok(true));
    let view = set.view().clone_view()?;
    assert_eq!(rt; view.child_bitmap(), 1);
    assert!(rt; set.remove(&(7, 128)));
    assert!(rt; set.view_at(&(0, 0)).is_none());
    let view = set.view();
    assert_eq!(rt; (view.data_bitmap(), view.child_bitmap()), (0, 0));
    Ok(())
}

#[test]
fn walks_of_a_set(rt: HostRuntime) -> Result<(), Fail> {
    let mut set: PrefixSet<(u32, u8)> = PrefixSet::new(rt.alloc());
    assert_eq!(rt; set.insert((0x0A00_0000, 8)), Ok(true));
    let Ok(mut walk) = set.iter() else {
        return Err("no memory".into());
    };
    assert_eq!(rt;
        walk.next().map(|pair| pair.map(|found| found.0)),
        Some(Ok((0x0A00_0000, 8)))
    );
    let Ok(mut walk) = set.iter_from(&(0x0A00_0000, 8), false) else {
        return Err("no memory".into());
    };
    assert!(rt; walk.next().is_none());
    Ok(())
}

#[test]
fn walks_of_a_view(rt: HostRuntime) -> Result<(), Fail> {
    let mut map: PrefixMap<(u32, u8), u32> = PrefixMap::new(rt.alloc());
    assert_eq!(rt; map.insert((0x0A00_0000, 8), 2), Ok(None));
    let Ok(mut walk) = ViewIter::new(rt.alloc(), map.view()) else {
        return Err("no memory".into());
    };
    assert_eq!(rt;
        walk.next().map(|pair| pair.map(|found| *found.1)),
        Some(Ok(2))
    );
    let Ok(mut walk) = ViewIter::starting(rt.alloc(), map.view(), &(0x0A00_0001, 32), true) else {
        return Err("no memory".into());
    };
    assert!(rt; walk.next().is_none());
    Ok(())
}

#[test]
fn getters_of_a_view(rt: HostRuntime) -> Result<(), Fail> {
    let mut map: PrefixMap<(u32, u8), u32> = PrefixMap::new(rt.alloc());
    assert_eq!(rt; map.insert((0x8000_0000, 1), 1), Ok(None));
    assert_eq!(rt; map.insert((0x0800_0000, 5), 2), Ok(None));
    let mut view = map.view();
    assert_eq!(rt; view.data_bitmap(), 4);
    let Ok(item) = view.get_data(2) else {
        return Err("no memory".into());
    };
    assert_eq!(rt; *item, 1);
    assert_eq!(rt; view.child_bitmap(), 2);
    let mut steps = Steps::start();
    let child = view.get_child(1, &mut steps)?;
    assert_eq!(rt; (child.key(), child.prefix_len()), (0x0800_0000, 5));
    assert_eq!(rt; steps.count(), 1);
    Ok(())
}

#[test]
fn a_narrowed_view(rt: HostRuntime) -> Result<(), Fail> {
    let mut set: PrefixSet<(u32, u8)> = PrefixSet::new(rt.alloc());
    assert_eq!(rt; set.insert((0x8000_0000, 1)), Ok(true));
    assert_eq!(rt; set.insert((0, 1)), Ok(true));
    let mut view = set.view();
    assert_eq!(rt; (view.key(), view.prefix_len()), (0, 0));
    view.reposition(0x8000_0000, 1);
    assert_eq!(rt; (view.key(), view.prefix_len()), (0x8000_0000, 1));
    assert_eq!(rt; view.data_bitmap(), 4);
    Ok(())
}

/// With one allocation refused at a time this test runs through each refusal of an insert.
#[test]
fn a_refused_insert_changes_nothing(rt: HostRuntime) -> Result<(), Fail> {
    let mut map: PrefixMap<(u32, u8), u32> = PrefixMap::new(rt.alloc());
    for len in [32u8, 0, 31, 16, 8, 24] {
        let count = map.len();
        let before = best(&map, (0xC0A8_0101, len));
        match map.insert((0xC0A8_0101, len), len as u32) {
            Ok(was) => {
                assert_eq!(rt; was, None);
                assert_eq!(rt; map.len(), count.wrapping_add(1));
            }
            Err((_, prefix, value)) => {
                assert_eq!(rt; (prefix, value), ((0xC0A8_0101, len), len as u32));
                assert_eq!(rt; best(&map, prefix), before);
                assert!(rt; !map.contains_key(&prefix));
                assert_eq!(rt; map.len(), count);
            }
        }
    }
    Ok(())
}
