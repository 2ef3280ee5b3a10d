//! The program: standard input to standard output.
#![tactic(auto)]

use mirror::{ProgramFault, RunFault, StdSink, StdSource, run_words};
use std::env;
use std::io::{self, ErrorKind};
use std::process::ExitCode;

// What is told of words that are not the program's.
const USAGE: &str =
    "usage: mirror_cli run [limit=N] [peer=N] [table=N] [start=N] [noop] [done] [ack], or mirror_cli gen N";

// The words after the program's own name. Words that are no UTF-8 are an error.
fn words(rt: &HostRuntime) -> io::Result<Vec<String>> {
    let mut words = Vec::new(rt.alloc());
    for word in env::args(rt)?.skip(1) {
        words.push(word)?;
    }
    Ok(words)
}

// Why the words could not be had: words that are no UTF-8 are other words.
fn fault_of(error: &io::Error) -> ProgramFault {
    match error.kind() {
        ErrorKind::OutOfMemory => ProgramFault::Run(RunFault::NoMemory),
        _ => ProgramFault::OtherWords,
    }
}

// The place of a fault in the input, where it has one.
fn place_of(fault: RunFault) -> Option<u64> {
    match fault {
        RunFault::BadRecord { at }
        | RunFault::Closed { at }
        | RunFault::SequenceExhausted { at }
        | RunFault::Unfit { at } => Some(at),
        RunFault::Limit | RunFault::ReadFault | RunFault::WriteFault | RunFault::NoMemory => None,
    }
}

// What a fault means.
fn meaning(fault: RunFault) -> &'static str {
    match fault {
        RunFault::BadRecord { .. } => "this line is no record",
        RunFault::Closed { .. } => "a record comes after a close",
        RunFault::SequenceExhausted { .. } => "the sequence numbers are used up",
        RunFault::Unfit { .. } => "a frame does not fit",
        RunFault::Limit => "the input is longer than its limit",
        RunFault::ReadFault => "the input could not be read",
        RunFault::WriteFault => "the output could not be written",
        RunFault::NoMemory => "out of memory",
    }
}

// Writes a line on a fault to standard error.
fn tell(rt: &HostRuntime, fault: ProgramFault) -> io::Result<()> {
    let ProgramFault::Run(fault) = fault else {
        return eprintln!(rt; "{USAGE}");
    };
    let text = meaning(fault);
    match place_of(fault) {
        Some(at) => eprintln!(rt; "mirror_cli: byte {at}: {text}"),
        None => eprintln!(rt; "mirror_cli: {text}"),
    }
}

// Standard output keeps no bytes back: each write goes to the system at once, so nothing is left to flush.
fn main(rt: HostRuntime) -> ExitCode {
    let mut input = StdSource::new(rt.stdin());
    let mut out = StdSink::new(rt.stdout());
    let ended = match words(&rt) {
        Ok(words) => run_words(rt.alloc(), words.as_slice(), &mut input, &mut out),
        Err(error) => Err(fault_of(&error)),
    };
    let Err(fault) = ended else {
        return ExitCode::SUCCESS;
    };
    // A message that can't be written changes no status.
    let _ = tell(&rt, fault);
    ExitCode::from(fault.status())
}
