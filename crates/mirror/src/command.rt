//! The program over any source and sink.
ghost use Rattle.std.specs.Prelude.{◌≡◌, ◌≤◌, ◌++◌, OnOk, OnErr, IfOk, IfErr, Err, map, string_bytes, ℕ};
ghost use Rattle.session_model.specs.declared.settings.Settings.{Settings};
ghost use Rattle.transcript_io.specs.Io.{GainedSome, HasRisen, traffic, with_back};
ghost use Rattle.mirror.specs.Cli.{HasFailed, HasReported, Ran, RanTo, ok_line};
ghost use Rattle.mirror.specs.Faults.{IsOutputFault};
ghost use Rattle.mirror.specs.Generating.{GeneratedTo, HasGenerated, generated_report};
ghost use Rattle.mirror.specs.Options.{AreOtherWords, AskForGenerated, SpellSettings};
ghost use Rattle.transcript_generator.specs.Generated.{most_routes};

use crate::generated::run_generated;
use crate::options::{read_count, read_words};
use crate::output::write_text;
use crate::program::run;
use crate::program_fault::ProgramFault;
use nl_core::NoMemory;
use session_model::{Report, RunFault, Settings};
use std::alloc::Global;
use transcript_io::{Sink, Source};
use transcript_lines::{Word, put_line};

// The status of a run whose text and report are written whole.
const SUCCESS: u8 = 0;

/// The program. Its words are `run` and then, in any order and each at most once, `limit=N`, `peer=N`, `table=N`,
/// `start=N`, `noop`, `done` and `ack`; N is decimal without leading zeros, below 2^64 for `limit` and below 2^32 else. It
/// runs the source's transcript under these settings, as `run` does, and then writes the line
/// `ok LINES MESSAGES DROPPED OPEN STEP` of its report, where STEP is `yes` or `no`. The answer is the exit status: 0
/// where all of this is written; 1 for other words, and nothing is read or written then; and 2 to 9 for a fault:
/// BadRecord, Closed, SequenceExhausted, Unfit, Limit, ReadFault, WriteFault and NoMemory. The last two come also where the
/// last line could not be written. Or its words are `gen` and N, at most 400,000: it runs the generated transcript of N
/// routes under the usual settings, reads nothing, and writes the line of the report alone.
pub fn cli<S: Source, K: Sink>(alloc: Global, words: &[String], input: &mut S, out: &mut K) -> u8
    ensures ran { (settings : Settings) → SpellSettings (map string_bytes words.now) settings
        → Ran settings (traffic S.left input.old input.new K.written out.old out.new) result }

    // `gen N` reads nothing, writes the line of its report alone, and ends with 0, 8 or 9.
    ensures generated { (n : ℕ) → AskForGenerated (map string_bytes words.now) n
        → HasGenerated n (K.written out.old) (K.written out.new) result × (input.new ≡ input.old) }

    // Status 1 comes exactly where the words are not the program's, and leaves source and sink as they were.
    ensures other { AreOtherWords (map string_bytes words.now) → result ≡ 1 }
    ensures usage { result ≡ 1 → AreOtherWords (map string_bytes words.now) }
    ensures untouched { AreOtherWords (map string_bytes words.now) → (input.new ≡ input.old) × (out.new ≡ out.old) }

    ensures read_cause { result ≡ 7 → HasRisen (S.faults input.old) (S.faults input.new) }
    ensures write_cause { result ≡ 8 → HasRisen (K.faults out.old) (K.faults out.new) }
{
    match run_words(alloc, words, input, out) {
        Ok(_) => SUCCESS,
        Err(fault) => fault.status(),
    }
}

/// The program, as `cli`, whose status is that of this answer: the report, once it is written too; and else why not. A
/// fault of the input has its place.
pub fn run_words<S: Source, K: Sink>(
    alloc: Global,
    words: &[String],
    input: &mut S,
    out: &mut K,
) -> Result<Report, ProgramFault>
    ensures ran { (settings : Settings) → SpellSettings (map string_bytes words.now) settings
        → RanTo settings (traffic S.left input.old input.new K.written out.old out.new) result }

    // `gen N` reads nothing, and writes the line of its report alone.
    ensures generated { (n : ℕ) → AskForGenerated (map string_bytes words.now) n
        → GeneratedTo n (K.written out.old) (K.written out.new) result × (input.new ≡ input.old) }

    // OtherWords comes exactly where the words are not the program's, and leaves source and sink as they were.
    ensures other { AreOtherWords (map string_bytes words.now) → result ≡ Err ProgramFault.OtherWords }
    ensures usage { result ≡ Err ProgramFault.OtherWords → AreOtherWords (map string_bytes words.now) }
    ensures untouched { AreOtherWords (map string_bytes words.now) → (input.new ≡ input.old) × (out.new ≡ out.old) }

    ensures read_cause { result ≡ Err (ProgramFault.Run RunFault.ReadFault)
        → HasRisen (S.faults input.old) (S.faults input.new) }
    ensures write_cause { result ≡ Err (ProgramFault.Run RunFault.WriteFault)
        → HasRisen (K.faults out.old) (K.faults out.new) }
{
    if let Some(count) = read_count(words) {
        return Ok(generate_and_report(alloc, count, out)?);
    }
    let Some(settings) = read_words(words) else {
        return Err(ProgramFault::OtherWords);
    };
    Ok(run_and_report(alloc, input, out, &settings)?)
}

// Runs the generated transcript of so many routes, and writes its report.
fn generate_and_report<K: Sink>(alloc: Global, count: u32, out: &mut K) -> Result<Report, RunFault>
    requires { count ≤ most_routes }
    ensures ok { OnOk result
        (K.written out.new ≡ with_back (K.written out.old) (ok_line (generated_report count))) }
    ensures report { IfOk result (λ report. report ≡ generated_report count) }
    ensures part { OnErr result
        (GainedSome (K.written out.old) (K.written out.new) (ok_line (generated_report count))) }
    ensures cause { result ≡ Err RunFault.WriteFault → HasRisen (K.faults out.old) (K.faults out.new) }
    ensures only { IfErr result IsOutputFault }
{
    let report = run_generated(alloc, count)?;
    write_report(alloc, &report, out)?;
    Ok(report)
}

// Runs the source's transcript under settings, and writes its report.
fn run_and_report<S: Source, K: Sink>(
    alloc: Global,
    input: &mut S,
    out: &mut K,
    settings: &Settings,
) -> Result<Report, RunFault>
    ensures ok { IfOk result
        (HasReported settings.now (traffic S.left input.old input.new K.written out.old out.new)) }
    ensures failed { IfErr result
        (HasFailed settings.now (traffic S.left input.old input.new K.written out.old out.new)) }
    ensures read_cause { result ≡ Err RunFault.ReadFault → HasRisen (S.faults input.old) (S.faults input.new) }
    ensures write_cause { result ≡ Err RunFault.WriteFault → HasRisen (K.faults out.old) (K.faults out.new) }
{
    let report = run(alloc, input, out, settings)?;
    write_report(alloc, &report, out)?;
    Ok(report)
}

// Writes the line of a report.
fn write_report<K: Sink>(alloc: Global, report: &Report, out: &mut K) -> Result<(), RunFault>
    ensures ok { OnOk result (K.written out.new ≡ with_back (K.written out.old) (ok_line report.now)) }
    ensures part { OnErr result (GainedSome (K.written out.old) (K.written out.new) (ok_line report.now)) }
    ensures cause { result ≡ Err RunFault.WriteFault → HasRisen (K.faults out.old) (K.faults out.new) }
    ensures only { IfErr result IsOutputFault }
    ensures later { K.faults out.old ≤ K.faults out.new }
{
    let mut text = Vec::new(alloc);
    put_report(&mut text, report)?;
    write_text(out, text.as_slice())
}

// Adds the line of a report.
fn put_report(text: &mut Vec<u8>, report: &Report) -> Result<(), NoMemory>
    ensures { OnOk result (text.new.items ≡ text.old.items ++ ok_line report.now) }
{
    let step: &[u8] = if report.in_step { b"yes" } else { b"no" };
    put_line(
        text,
        b"ok",
        &[
            Word::Number(report.lines),
            Word::Number(report.messages),
            Word::Number(report.dropped),
            Word::Number(report.still_open),
            Word::Plain(step),
        ],
    )
}
