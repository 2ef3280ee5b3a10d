//! Small texts beside those that another program computed from the format.
use crate::gen_text;
use std::test::Fail;

const OF_NONE: &str = "resync\nrecv 0 0 1400000003000200010000000000000000000000\n";

const OF_THREE: &str =
    "resync\nrecv 0 0 3400000018000200010000000000000002080000fe00000100000000080001000000000008000400010000000800060000000000\nrecv 0 0 3400000018000200010000000000000002090000fe00000100000000080001009e00000008000400020000000800060001000000\nrecv 0 0 34000000180002000100000000000000020a0000fe00000100000000080001003c40000008000400030000000800060002000000\nrecv 0 0 1400000003000200010000000000000000000000\nblock 4 00000000/16\nlookup 4 00000000\nlookup 4 9e3779b1\nlookup 4 3c6ef362\n";

#[test]
fn small_texts(rt: HostRuntime) -> Result<(), Fail> {
    for (n, text) in [(0, OF_NONE), (3, OF_THREE)] {
        assert_eq!(rt;
            gen_text(rt.alloc(), n)?.as_slice(),
            text.as_bytes(),
            "of {n}"
        );
    }
    Ok(())
}
