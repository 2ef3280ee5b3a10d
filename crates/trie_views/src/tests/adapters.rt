//! Mapped, copied and cloned views of one map, at a concrete type, and each nested in another.

ghost use Rattle.std.specs.Prelude.{◌≡◌, ◌*◌, ◌%◌, leb};

use nl_core::NoMemory;
use std::alloc::Global;
use std::process::Abort;
use std::test::Fail;
use trie_adapters::{ClonedCalls, CopiedCalls, EqualViews, FilterCalls, MapCalls};
use trie_map::{AsView, CloneView, PrefixMap, TrieView, walk_gives_the_list};

// The map of 10.0.0.0/8, 10.1.0.0/16 and 10.2.0.0/16.
fn three(alloc: Global) -> Result<PrefixMap<(u32, u8), u32>, NoMemory> {
    let mut map: PrefixMap<(u32, u8), u32> = PrefixMap::new(alloc);
    for (prefix, item) in [
        ((0x0A00_0000, 8), 1),
        ((0x0A01_0000, 16), 2),
        ((0x0A02_0000, 16), 3),
    ] {
        if map.insert(prefix, item).is_err() {
            return Err(NoMemory);
        }
    }
    Ok(map)
}

// Ten times an item.
fn tenfold(item: u32) -> u32
    ensures { result ≡ item * 10 % 4294967296 }
{
    item.wrapping_mul(10)
}

#[test]
fn mapped(rt: HostRuntime) -> Result<(), Fail> {
    let map = three(rt.alloc())?;
    let view = AsView::view(&map).copied().map(tenfold);
    assert!(rt; view.frugal());
    assert!(rt; view.clone_view().is_ok());
    let pairs = walk_gives_the_list(rt.alloc(), view)?;
    let expected: [((u32, u8), u32); 3] = [
        ((0x0A00_0000, 8), 10),
        ((0x0A01_0000, 16), 20),
        ((0x0A02_0000, 16), 30),
    ];
    for (pair, entry) in pairs.iter().zip(expected.iter()) {
        assert_eq!(rt; *pair, *entry);
    }
    assert_eq!(rt; pairs.len(), expected.len());
    Ok(())
}

#[test]
fn copied_and_cloned(rt: HostRuntime) -> Result<(), Fail> {
    let map = three(rt.alloc())?;
    let expected: [((u32, u8), u32); 3] = [
        ((0x0A00_0000, 8), 1),
        ((0x0A01_0000, 16), 2),
        ((0x0A02_0000, 16), 3),
    ];
    let copied = walk_gives_the_list(rt.alloc(), AsView::view(&map).copied())?;
    let cloned = walk_gives_the_list(rt.alloc(), AsView::view(&map).cloned())?;
    assert_eq!(rt; (copied.len(), cloned.len()), (3, 3));
    for ((copy, clone), entry) in copied.iter().zip(cloned.iter()).zip(expected.iter()) {
        assert_eq!(rt; (*copy, *clone), (*entry, *entry));
    }
    Ok(())
}

#[test]
fn equal_views(rt: HostRuntime) -> Result<(), Fail> {
    let map = three(rt.alloc())?;
    let mut other: PrefixMap<(u32, u8), u32> = PrefixMap::new(rt.alloc());
    assert_eq!(rt; other.insert((0x0A00_0000, 8), 7), Ok(None));
    assert_eq!(rt; other.insert((0x0A01_0000, 16), 2), Ok(None));
    assert!(rt; !AsView::view(&map).eq_keys(rt.alloc(), AsView::view(&other))?);
    assert!(rt; !AsView::view(&other).eq_keys(rt.alloc(), AsView::view(&map))?);
    assert_eq!(rt; other.insert((0x0A02_0000, 16), 3), Ok(None));
    assert!(rt; AsView::view(&map).eq_keys(rt.alloc(), AsView::view(&other))?);
    let same = |a: &u32, b: &u32| *a == *b;
    assert!(rt; !AsView::view(&map).eq_by(rt.alloc(), AsView::view(&other), same)?);
    assert_eq!(rt; other.insert((0x0A00_0000, 8), 1), Ok(Some(7)));
    assert!(rt; AsView::view(&map).eq_by(rt.alloc(), AsView::view(&other), same)?);
    Ok(())
}

// Whether an item is above 0.
fn is_positive(_: (u64, u8), item: &&u32) -> bool
    ensures { result ≡ leb 1 item.now.now }
{
    **item >= 1
}

#[test]
fn filtered(rt: HostRuntime) -> Result<(), Fail> {
    let mut map: PrefixMap<(u64, u8), u32> = PrefixMap::new(rt.alloc());
    assert_eq!(rt; map.insert((0, 0), 0), Ok(None));
    assert_eq!(rt; map.insert((0, 1), 1), Ok(None));
    assert_eq!(rt; map.insert((0, 2), 2), Ok(None));
    assert_eq!(rt; map.insert((1 << 63, 40), 3), Ok(None));
    let once = AsView::view(&map).filter(rt.alloc(), is_positive)?;
    let mut view = once.filter(rt.alloc(), is_positive)?;
    assert!(rt; !view.frugal());
    assert!(rt; view.clone_view().is_ok());
    view.reposition(0, 1);
    let pairs = walk_gives_the_list(rt.alloc(), view)?;
    let expected: [((u64, u8), u32); 2] = [((0, 1), 1), ((0, 2), 2)];
    for (pair, entry) in pairs.iter().zip(expected.iter()) {
        assert_eq!(rt; (pair.0, *pair.1), *entry);
    }
    assert_eq!(rt; pairs.len(), expected.len());
    Ok(())
}
