//! Sessions by rows of words, a transcript, a status and its text. The frames are RTM_GETROUTE requests (a dump, and one that
//! asks for an acknowledgement), RTM_NEWROUTE messages, one of type 108, and the kernel's NLMSG_NOOP, NLMSG_ERROR and
//! NLMSG_DONE answers.
use super::{DUMP, DUMP_TOLD, sink, source, strings};
use mirror::{
    BatchFrame, Mark, MemorySink, ProgramFault, Record, Report, RunFault, Runner, Settings,
    SocketAddr, cli, read_line, run_words,
};
use nl_core::{Items, Octets};
use std::alloc::Global;
use std::process::Abort;
use std::test::Fail;

// The words, a transcript, the status that it ends with, and its text.
pub type Row = (&'static [&'static str], &'static str, u8, &'static str);

/// A transcript has its status and its text, in whatever pieces it is read and written.
pub fn check_row(rt: &impl Abort, alloc: Global, row: &Row) -> Result<(), Fail> {
    let (words, input, status, text) = *row;
    let words = strings(alloc, words)?;
    for piece in [1, 100_000] {
        let mut input = source(alloc, input, piece, &[])?;
        let mut out = sink(alloc, piece, &[])?;
        assert_eq!(rt;
            cli(alloc, words.as_slice(), &mut input, &mut out),
            status,
            "at {text}"
        );
        assert_eq!(rt; out.bytes(), text.as_bytes(), "at {text}");
    }
    Ok(())
}

/// A dump, an acknowledged request, a wrong port and its header's port, and lines that are no records.
pub const TRANSCRIPTS: [Row; 6] = [
    (&["run"], "", 0, "ok 0 0 0 0 no\n"),
    (&["run"], DUMP, 0, DUMP_TOLD),
    (
        &["run"],
        "batch 0 0 e:1c0000001a0005000000000000000000000000000000000000000000\nrecv 0 0 1c000000180000000100000000000000000000000000000000000000\nrecv 0 0 1400000002000000010000000000000000000000\n",
        0,
        "sent 0 0 1c0000001a0005000100000000000000000000000000000000000000\nreply 1 1 24 0 1 0 000000000000000000000000\nclosed 1\nok 3 2 0 0 no\n",
    ),
    (
        &["run"],
        "batch 0 0 f:1c0000001a0001030000000000000000000000000000000000000000\nrecv 7 0 1400000003000200010000000000000000000000\nrecv 0 0 1400000003000200010000000700000000000000\n",
        0,
        "sent 0 0 1c0000001a0001030100000000000000000000000000000000000000\nunsol 1 7 0 3 2 1 0 00000000\nclosed 1\nok 3 2 0 0 no\n",
    ),
    (
        &["run"],
        "batch 0 0 e:1C0000001a0001030000000000000000000000000000000000000000\n",
        2,
        "",
    ),
    (
        &["run"],
        "batch 0 0 e:1c0000001a0001030000000000000000000000000000000000000000\nrecv 0 0 14",
        2,
        "sent 0 0 1c0000001a0001030100000000000000000000000000000000000000\n",
    ),
];

// Which frames leave, and which streams close at once.
pub const BATCHES: [Row; 6] = [
    (
        &["run"],
        "batch 0 0\nbatch 0 0 n:1c0000001a0001030000000000000000000000000000000000000000\n",
        0,
        "closed 1\nsent 0 0 1c0000001a0001030100000000000000000000000000000000000000\nclosed 2\nok 2 0 0 0 no\n",
    ),
    (
        &["run"],
        "batch 0 0 f:1c0000001a0001030000000000000000000000000000000000000000\n",
        0,
        "sent 0 0 1c0000001a0001030100000000000000000000000000000000000000\nok 1 0 0 1 no\n",
    ),
    (
        &["run"],
        "batch 0 0 e:1c0000001a0001030000000000000000000000000000000000000000 e:1c0000001a0001030000000000000000000000000000000000000000\nrecv 0 0 1400000003000200010000000000000000000000\n",
        0,
        "sent 0 0 1c0000001a00010301000000000000000000000000000000000000001c0000001a0001030200000000000000000000000000000000000000\nok 2 1 0 1 no\n",
    ),
    (
        &["run", "start=4294967294"],
        "batch 0 0 n:1c0000001a0001030000000000000000000000000000000000000000\n",
        0,
        "sent 0 0 1c0000001a000103ffffffff00000000000000000000000000000000\nclosed 1\nok 1 0 0 0 no\n",
    ),
    (
        &["run", "start=4294967294"],
        "batch 0 0 n:1c0000001a0001030000000000000000000000000000000000000000 n:1c0000001a0001030000000000000000000000000000000000000000\n",
        4,
        "",
    ),
    (
        &["run", "start=4294967295"],
        "batch 0 0\n",
        0,
        "closed 1\nok 1 0 0 0 no\n",
    ),
];

// Which messages answer a request, and which don't.
pub const REPLIES: [Row; 5] = [
    (
        &["run"],
        "batch 0 0 e:1c0000001a0001030000000000000000000000000000000000000000 n:1c0000001a0001030000000000000000000000000000000000000000\nrecv 0 0 1400000003000200020000000000000000000000\nrecv 0 0 1400000003000200010000000000000000000000\n",
        0,
        "sent 0 0 1c0000001a00010301000000000000000000000000000000000000001c0000001a0001030200000000000000000000000000000000000000\nunsol 1 0 0 3 2 2 0 00000000\nclosed 1\nok 3 2 0 0 no\n",
    ),
    (
        &["run", "done"],
        "batch 0 0 e:1c0000001a0001030000000000000000000000000000000000000000 n:1c0000001a0001030000000000000000000000000000000000000000\nrecv 0 0 1400000003000200020000000000000000000000\nrecv 0 0 1400000003000200010000000000000000000000\n",
        0,
        "sent 0 0 1c0000001a00010301000000000000000000000000000000000000001c0000001a0001030200000000000000000000000000000000000000\nunsol 1 0 0 3 2 2 0 00000000\nreply 2 1 3 2 1 0 00000000\nclosed 1\nok 3 2 0 0 no\n",
    ),
    (
        &["run", "ack"],
        "batch 0 0 f:1c0000001a0005000000000000000000000000000000000000000000\nrecv 0 0 1c000000180000000100000000000000000000000000000000000000\nrecv 0 0 1400000002000000010000000000000000000000\n",
        0,
        "sent 0 0 1c0000001a0005000100000000000000000000000000000000000000\nreply 1 1 24 0 1 0 000000000000000000000000\nreply 2 1 2 0 1 0 00000000\nclosed 1\nok 3 2 0 0 no\n",
    ),
    (
        &["run"],
        "batch 0 0 f:1c0000001a0001030000000000000000000000000000000000000000\nrecv 0 0 14000000030002000100000000000000000000001400000003000200010000000000000000000000\n",
        0,
        "sent 0 0 1c0000001a0001030100000000000000000000000000000000000000\nunsol 2 0 0 3 2 1 0 00000000\nclosed 1\nok 2 2 0 0 no\n",
    ),
    (
        &["run", "done", "noop"],
        "batch 0 0 f:1c0000001a0001030000000000000000000000000000000000000000\nbatch 0 0 f:1c0000001a0001030000000000000000000000000000000000000000\nrecv 0 0 1400000003000200020000000000000000000000140000000300020001000000000000000000000010000000010000000000000000000000\n",
        0,
        "sent 0 0 1c0000001a0001030100000000000000000000000000000000000000\nsent 0 0 1c0000001a0001030200000000000000000000000000000000000000\nunsol 3 0 0 1 0 0 0 -\nreply 1 2 3 2 2 0 00000000\nreply 2 1 3 2 1 0 00000000\nclosed 1\nclosed 2\nok 3 3 0 0 no\n",
    ),
];

// What a datagram brings, and what it loses.
pub const DATAGRAMS: [Row; 5] = [
    (
        &["run"],
        "recv 0 0 1c000000180000000000000000000000000000000000000000000000100000006c00000000000000000000001c0000001800000000000000000000000000000000000000000000000102030405\n",
        0,
        "unsol 1 0 0 24 0 0 0 000000000000000000000000\nunsol 2 0 0 24 0 0 0 000000000000000000000000\nok 1 2 2 0 no\n",
    ),
    (
        &["run"],
        "batch 0 0 f:1c0000001a0001030000000000000000000000000000000000000000\nrecv 0 0 120000000300020001000000000000000000\nclose\n",
        0,
        "sent 0 0 1c0000001a0001030100000000000000000000000000000000000000\nclosed 1\nok 3 0 1 0 no\n",
    ),
    (
        &["run"],
        "recv 0 0 1c0000001800000000000000000000000000000000000000000000001200000003000200010000000000000000001c000000180000000000000000000000000000000000000000000000\n",
        0,
        "unsol 1 0 0 24 0 0 0 000000000000000000000000\nunsol 2 0 0 24 0 0 0 000000000000000000000000\nok 1 2 1 0 no\n",
    ),
    (&["run"], "recv 0 0 -\n", 0, "ok 1 0 0 0 no\n"),
    (
        &["run"],
        "overrun\n",
        0,
        "unsol 1 0 0 4 0 0 0 -\nok 1 1 0 0 no\n",
    ),
];

// A close closes what is open, ascending, and nothing comes after it.
pub const CLOSES: [Row; 5] = [
    (
        &["run"],
        "batch 0 0 f:1c0000001a0001030000000000000000000000000000000000000000\nbatch 0 0 f:1c0000001a0001030000000000000000000000000000000000000000 f:1c0000001a0001030000000000000000000000000000000000000000\nclose\n",
        0,
        "sent 0 0 1c0000001a0001030100000000000000000000000000000000000000\nsent 0 0 1c0000001a00010302000000000000000000000000000000000000001c0000001a0001030300000000000000000000000000000000000000\nclosed 1\nclosed 2\nok 3 0 0 0 no\n",
    ),
    (&["run"], "close\nclose\n", 3, ""),
    (&["run"], "close\noverrun\n", 3, ""),
    (&["run"], "close\nrecv 0 0 -\n", 3, ""),
    (&["run"], "close\nbatch 0 0\n", 3, ""),
];

// Lines that are just records, and lines that just aren't; the limit.
pub const BOUNDARIES: [Row; 8] = [
    (&["run"], "overrun", 2, ""),
    (&["run"], "recv 0 0 AB\n", 2, ""),
    (&["run"], "recv 00 0 -\n", 2, ""),
    (&["run"], "batch 0 0 f:-\n", 2, ""),
    (
        &["run", "limit=8"],
        "overrun\n",
        0,
        "unsol 1 0 0 4 0 0 0 -\nok 1 1 0 0 no\n",
    ),
    (&["run", "limit=7"], "overrun\n", 6, ""),
    (
        &["run", "limit=8"],
        "overrun\noverrun\n",
        6,
        "unsol 1 0 0 4 0 0 0 -\n",
    ),
    (&["run", "limit=4"], "bad\nmore", 2, ""),
];

// A datagram has at most 65,536 bytes.
#[test]
fn long_datagrams(rt: HostRuntime) -> Result<(), Fail> {
    let alloc = rt.alloc();
    let words = strings(alloc, &["run"])?;
    for (digits, status, text) in [(131_072, 0, "ok 1 0 1 0 no\n"), (131_074, 2, "")] {
        let mut line = String::from_str(alloc, "recv 0 0 ")?;
        for _ in 0..digits {
            line.push('0')?;
        }
        line.push('\n')?;
        let mut input = source(alloc, line.as_str(), 100_000, &[])?;
        let mut out = sink(alloc, 100_000, &[])?;
        assert_eq!(rt;
            cli(alloc, words.as_slice(), &mut input, &mut out),
            status,
            "at {digits}"
        );
        assert_eq!(rt; out.bytes(), text.as_bytes(), "at {digits}");
    }
    Ok(())
}

// Where a fault stands, and one call of source or sink that fails.
#[test]
fn faults_have_their_place(rt: HostRuntime) -> Result<(), Fail> {
    let alloc = rt.alloc();
    let words = strings(alloc, &["run"])?;
    let rows = [
        ("close\nclose\n", [0, 0], RunFault::Closed { at: 6 }),
        ("overrun\nbad\n", [0, 0], RunFault::BadRecord { at: 8 }),
        ("overrun\n\n", [0, 0], RunFault::BadRecord { at: 8 }),
        ("overrun\nclose", [0, 0], RunFault::BadRecord { at: 8 }),
        ("overrun\n", [1, 0], RunFault::ReadFault),
        ("overrun\n", [0, 1], RunFault::WriteFault),
    ];
    for (input, [read, write], fault) in rows {
        for piece in [1, 9, 100] {
            let mut input = source(alloc, input, piece, &[read])?;
            let mut out = sink(alloc, 100, &[write])?;
            assert_eq!(rt;
                run_words(alloc, words.as_slice(), &mut input, &mut out),
                Err(ProgramFault::Run(fault))
            );
        }
    }
    Ok(())
}

// A line, and a session run by hand.
#[test]
fn records_are_stepped(rt: HostRuntime) -> Result<(), Fail> {
    let alloc = rt.alloc();
    assert!(rt; read_line(alloc, b"overrun")? == Some(Record::Overrun));
    assert!(rt; read_line(alloc, b"overruns")? == None);
    let mut bytes = vec![in alloc; 0u8; 28]?;
    bytes[0] = 28;
    bytes[4] = 26;
    bytes[6] = 1;
    bytes[7] = 3;
    let mut frames = Items::new(alloc);
    frames.push(BatchFrame {
        mark: Mark::NotExpected,
        bytes: Octets::from_vec(bytes),
    })?;
    let batch = Record::Batch {
        to: SocketAddr::new(7, 1),
        frames,
    };
    let line = b"batch 7 1 n:1c0000001a0001030000000000000000000000000000000000000000";
    assert!(rt; read_line(alloc, line)? == Some(batch));
    let mut runner = Runner::new(alloc, &Settings::usual())?;
    let mut out = MemorySink::new(alloc, 100, Vec::new(alloc));
    assert_eq!(rt; runner.step(0, Record::Overrun, &mut out), Ok(()));
    assert_eq!(rt; out.bytes(), b"unsol 1 0 0 4 0 0 0 -\n".as_slice());
    assert_eq!(rt;
        runner.report(),
        Report {
            lines: 1,
            messages: 1,
            dropped: 0,
            still_open: 0,
            in_step: false,
        }
    );
    Ok(())
}
