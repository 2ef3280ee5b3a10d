//! The program by tables of transcripts, its words and its settings, and faults of its source and sink.
ghost use Rattle.std.specs.Prelude.{◌≤◌};

mod messages;
mod routes;
mod sessions;

use self::sessions::check_row;
use mirror::{MemorySink, MemorySource, Read, Report, RunFault, Settings, Source, cli, run};
use rt_dispatch::RouteNetlinkMessage;
use session_model::text_grows;
use std::alloc::{AllocError, Global};
use std::test::Fail;

// A dump that the peer ends at once, and its text.
const DUMP: &str =
    "batch 0 0 e:1c0000001a0001030000000000000000000000000000000000000000\nrecv 0 0 1400000003000200010000000000000000000000\n";

const SENT: &str = "sent 0 0 1c0000001a0001030100000000000000000000000000000000000000\n";

const SENT_AND_CLOSED: &str =
    "sent 0 0 1c0000001a0001030100000000000000000000000000000000000000\nclosed 1\n";

// The same with its end forwarded.
const REPLIED: &str =
    "sent 0 0 1c0000001a0001030100000000000000000000000000000000000000\nreply 1 1 3 2 1 0 00000000\nclosed 1\n";

const DUMP_TOLD: &str =
    "sent 0 0 1c0000001a0001030100000000000000000000000000000000000000\nclosed 1\nok 2 1 0 0 no\n";

// What is asked of the peer 7 after the number 6.
const ASKED: &str =
    "sent 7 0 1c0000001a0001030700000000000000000000000000000000000000\nok 1 0 0 1 no\n";

fn strings(alloc: Global, words: &[&str]) -> Result<Vec<String>, AllocError> {
    let mut strings = Vec::new(alloc);
    for word in words {
        strings.push(String::from_str(alloc, word)?)?;
    }
    Ok(strings)
}

fn source(alloc: Global, text: &str, piece: usize, fail: &[u64]) -> Result<MemorySource, AllocError>
    requires { 1 ≤ piece }
{
    let bytes = text.as_bytes().to_vec(alloc)?;
    Ok(MemorySource::new(bytes, piece, fail.to_vec(alloc)?))
}

fn sink(alloc: Global, piece: usize, fail: &[u64]) -> Result<MemorySink, AllocError>
    requires { 1 ≤ piece }
{
    Ok(MemorySink::new(alloc, piece, fail.to_vec(alloc)?))
}

// Each row has its status and its text, in whatever pieces it is read and written.
#[test]
fn transcripts_are_run(rt: HostRuntime) -> Result<(), Fail> {
    text_grows::<RouteNetlinkMessage>();
    let tables = [
        sessions::TRANSCRIPTS.as_slice(),
        &sessions::BATCHES,
        &sessions::REPLIES,
        &sessions::DATAGRAMS,
        &sessions::CLOSES,
        &sessions::BOUNDARIES,
        &messages::MESSAGES,
        &routes::ROUTES,
    ];
    for rows in tables {
        for row in rows {
            check_row(&rt, rt.alloc(), row)?;
        }
    }
    Ok(())
}

#[test]
fn other_words_read_and_write_nothing(rt: HostRuntime) -> Result<(), Fail> {
    let alloc = rt.alloc();
    let mut input = source(alloc, DUMP, 9, &[])?;
    let mut out = sink(alloc, 9, &[1])?;
    let none: [&str; 0] = [];
    let rows = [
        none.as_slice(),
        &["run", "run"],
        &["runs"],
        &["ru"],
        &[""],
        &["--help"],
        &["gen"],
        &["gen", "01"],
        &["gen", "400001"],
        &["gen", "1", "1"],
        &["run", "gen"],
        &["run", ""],
        &["run", "noop "],
        &["run", "Noop"],
        &["run", "noop=1"],
        &["run", "limit"],
        &["run", "limit="],
        &["run", "limit=08"],
        &["run", "limit=+8"],
        &["run", "limit=8 "],
        &["run", "limit=18446744073709551616"],
        &["run", "start=4294967296"],
        &["run", "peer=7", "done", "peer=8"],
    ];
    for row in rows {
        let words = strings(alloc, row)?;
        assert_eq!(rt; cli(alloc, words.as_slice(), &mut input, &mut out), 1);
    }
    assert_eq!(rt; out.bytes(), b"".as_slice());
    let mut front = [0; 5];
    assert_eq!(rt; input.read(&mut front), Read::Got(5));
    assert_eq!(rt; front.as_slice(), b"batch".as_slice());
    Ok(())
}

// Options in any order, and what a session does under them.
#[test]
fn words_spell_settings(rt: HostRuntime) -> Result<(), Fail> {
    let alloc = rt.alloc();
    let all_words = [
        "run",
        "ack",
        "start=6",
        "noop",
        "limit=18446744073709551615",
        "table=0",
        "done",
        "peer=7",
    ];
    let rows = [
        (["run"].as_slice(), DUMP, 0, DUMP_TOLD),
        (&["run", "limit=119"], DUMP, 0, DUMP_TOLD),
        (&["run", "limit=118"], DUMP, 6, SENT),
        (&["run", "start=4294967295"], DUMP, 4, ""),
        (&all_words, "resync\n", 0, ASKED),
    ];
    for (row, input, status, text) in rows {
        let words = strings(alloc, row)?;
        let mut input = source(alloc, input, 50, &[])?;
        let mut out = sink(alloc, 50, &[])?;
        assert_eq!(rt;
            cli(alloc, words.as_slice(), &mut input, &mut out),
            status,
            "at {text}"
        );
        assert_eq!(rt; out.bytes(), text.as_bytes(), "at {text}");
    }
    Ok(())
}

// A generated transcript has its own input, and its last line alone is written.
#[test]
fn generated_transcripts_are_run(rt: HostRuntime) -> Result<(), Fail> {
    let alloc = rt.alloc();
    for (count, line) in [("0", "ok 2 1 0 0 yes\n"), ("1", "ok 5 2 0 0 yes\n")] {
        let words = strings(alloc, &["gen", count])?;
        let mut input = source(alloc, DUMP, 9, &[1])?;
        let mut out = sink(alloc, 9, &[])?;
        assert_eq!(rt; cli(alloc, words.as_slice(), &mut input, &mut out), 0);
        assert_eq!(rt; out.bytes(), line.as_bytes());
        let mut front = [0; 5];
        assert_eq!(rt; input.read(&mut front), Read::Failed);
    }
    Ok(())
}

// The dump under other settings: what a run answers, and the text that it leaves.
#[test]
fn settings_are_followed(rt: HostRuntime) -> Result<(), Fail> {
    let alloc = rt.alloc();
    let usual = Settings::usual();
    let report = Report {
        lines: 2,
        messages: 1,
        dropped: 0,
        still_open: 0,
        in_step: false,
    };
    let all = Settings {
        forward_noop: true,
        forward_done: true,
        forward_ack: true,
        ..usual
    };
    let used_up = Settings {
        start: u32::MAX,
        ..usual
    };
    let rows = [
        (
            Settings {
                limit: 119,
                ..usual
            },
            Ok(report),
            SENT_AND_CLOSED,
        ),
        (
            Settings {
                limit: 118,
                ..usual
            },
            Err(RunFault::Limit),
            SENT,
        ),
        (used_up, Err(RunFault::SequenceExhausted { at: 0 }), ""),
        (all, Ok(report), REPLIED),
    ];
    for (settings, result, text) in rows {
        let mut input = source(alloc, DUMP, 50, &[])?;
        let mut out = sink(alloc, 50, &[])?;
        assert_eq!(rt;
            run(alloc, &mut input, &mut out, &settings),
            result,
            "at {text}"
        );
        assert_eq!(rt; out.bytes(), text.as_bytes(), "at {text}");
    }
    Ok(())
}

#[test]
fn faults_of_source_and_sink_are_reported(rt: HostRuntime) -> Result<(), Fail> {
    let alloc = rt.alloc();
    let words = strings(alloc, &["run"])?;

    // The dump has 119 bytes, and its first line 69.
    let reads = [
        (1, 7, ""),
        (2, 7, ""),
        (3, 7, SENT),
        (4, 7, SENT_AND_CLOSED),
        (5, 0, DUMP_TOLD),
    ];
    for (call, status, text) in reads {
        let mut input = source(alloc, DUMP, 40, &[call])?;
        let mut out = sink(alloc, 40, &[])?;
        assert_eq!(rt;
            cli(alloc, words.as_slice(), &mut input, &mut out),
            status,
            "at {call}"
        );
        assert_eq!(rt; out.bytes(), text.as_bytes(), "at {call}");
    }

    // Its text is written by 66 and 9 bytes, and the last line is written by itself.
    let writes = [(1, 8, 0), (2, 8, 40), (3, 8, 66), (4, 8, 75), (5, 0, 89)];
    for (call, status, count) in writes {
        let mut input = source(alloc, DUMP, 40, &[])?;
        let mut out = sink(alloc, 40, &[call])?;
        assert_eq!(rt;
            cli(alloc, words.as_slice(), &mut input, &mut out),
            status,
            "at {call}"
        );
        assert!(rt; out.bytes().len() == count, "at {call}");
        assert!(rt; DUMP_TOLD.as_bytes().starts_with(out.bytes()), "at {call}");
    }
    Ok(())
}

// A line's text is written before more is read. Where the first write fails, the second line is still in the source; where
// the second read fails, the text of the first line stands in the sink.
#[test]
fn a_line_is_answered_before_more_is_read(rt: HostRuntime) -> Result<(), Fail> {
    let alloc = rt.alloc();
    let settings = Settings::usual();
    let text = "unsol 1 0 0 4 0 0 0 -\n";
    let rows = [
        ([0, 1], RunFault::WriteFault, ""),
        ([2, 0], RunFault::ReadFault, text),
    ];
    for ([read, write], fault, text) in rows {
        let mut input = source(alloc, "overrun\nresync\n\n", 8, &[read])?;
        let mut out = sink(alloc, 100, &[write])?;
        assert_eq!(rt; run(alloc, &mut input, &mut out, &settings), Err(fault));
        assert_eq!(rt; out.bytes(), text.as_bytes());
        let mut line = [0; 8];
        assert_eq!(rt; input.read(&mut line), Read::Got(8));
        assert_eq!(rt; line.as_slice(), b"resync\n\n".as_slice());
    }
    Ok(())
}
