//! The longest match in a map of prefixes.

use std::test::Fail;
use trie_map::PrefixMap;

#[test]
fn longest_match(rt: HostRuntime) -> Result<(), Fail> {
    let mut table: PrefixMap<(u32, u8), &str> = PrefixMap::new(rt.alloc());
    assert_eq!(rt; table.insert((0x0A00_0000, 8), "eth0"), Ok(None));
    assert_eq!(rt; table.insert((0x0A01_0000, 16), "eth1"), Ok(None));

    // 10.1.2.3 lies in 10.1.0.0/16, 10.2.0.1 in 10.0.0.0/8 alone, and 192.0.2.1 in neither.
    assert_eq!(rt;
        table.get_lpm(&(0x0A01_0203, 32)),
        Some(((0x0A01_0000, 16), &"eth1"))
    );
    assert_eq!(rt;
        table.get_lpm(&(0x0A02_0001, 32)),
        Some(((0x0A00_0000, 8), &"eth0"))
    );
    assert_eq!(rt; table.get_lpm(&(0xC000_0201, 32)), None);
    Ok(())
}
