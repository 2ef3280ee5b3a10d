//! A transcript in, its text out.
ghost use Rattle.std.specs.Prelude.{◌≡◌, ◌≤◌, OnOk, IfOk, IfErr, Err};
ghost use Rattle.std.specs.Io.KnownBytes.{IsAtEnd};
ghost use Rattle.transcript_io.specs.Io.{HasRisen, traffic};
ghost use Rattle.mirror.specs.Outcome.{IsComplete, WasEnded, WasRun};
ghost use Rattle.mirror.specs.Peer.{HasConverged};

use crate::run_state::RunState;
use crate::runner::Runner;
use session_model::{Report, RunFault, Settings};
use std::alloc::Global;
use transcript_io::{Sink, Source};

/// Runs a transcript to its end: reads the source, and writes the text of its records to the sink. The first line at fault
/// ends it, and a fault leaves the text of the records before it written.
pub fn run<S: Source, K: Sink>(
    alloc: Global,
    input: &mut S,
    out: &mut K,
    settings: &Settings,
) -> Result<Report, RunFault>
    // The input was read to its end and is valid, the sink gained its text and nothing else, and the report is its own.
    ensures ok { IfOk result
        (WasRun settings.now (traffic S.left input.old input.new K.written out.old out.new)) }
    ensures end { OnOk result (IsAtEnd (S.left input.new)) }

    // A fault of the input is its cause, at its place; and how much of the text of the records before it was written.
    ensures ended { IfErr result
        (WasEnded settings.now (traffic S.left input.old input.new K.written out.old out.new)) }
    ensures read_cause { result ≡ Err RunFault.ReadFault → HasRisen (S.faults input.old) (S.faults input.new) }
    ensures write_cause { result ≡ Err RunFault.WriteFault → HasRisen (K.faults out.old) (K.faults out.new) }
    ensures later { K.faults out.old ≤ K.faults out.new }

    // What the input asks for is answered, unless memory ran out, or the source or the sink failed.
    ensures complete { IsComplete settings.now (S.left input.old) result
        (HasRisen (S.faults input.old) (S.faults input.new)) (HasRisen (K.faults out.old) (K.faults out.new)) }

    // Wherever the mirror is in step, a look-up is answered from the peer's own table, as long as the peer is honest.
    ensures converges { IfOk result
        (HasConverged settings.now (traffic S.left input.old input.new K.written out.old out.new)) }
{
    run_transcript(alloc, input, out, settings)
}

// As `run`. That its answer is the one that the input asks for follows from these clauses, since an input has one outcome;
// and that the peer's own table answers, since a mirror that is in step has it.
fn run_transcript<S: Source, K: Sink>(
    alloc: Global,
    input: &mut S,
    out: &mut K,
    settings: &Settings,
) -> Result<Report, RunFault>
    ensures ok { IfOk result
        (WasRun settings.now (traffic S.left input.old input.new K.written out.old out.new)) }
    ensures end { OnOk result (IsAtEnd (S.left input.new)) }
    ensures ended { IfErr result
        (WasEnded settings.now (traffic S.left input.old input.new K.written out.old out.new)) }
    ensures read_cause { result ≡ Err RunFault.ReadFault → HasRisen (S.faults input.old) (S.faults input.new) }
    ensures write_cause { result ≡ Err RunFault.WriteFault → HasRisen (K.faults out.old) (K.faults out.new) }
    ensures later { K.faults out.old ≤ K.faults out.new }
{
    let runner = Runner::new(alloc, settings)?;
    let mut state = RunState::new(alloc, runner);
    let ended = state.read_all(input, out);
    state.flush(out)?;
    ended?;
    if state.decoder.begun() {
        return Err(RunFault::BadRecord {
            at: state.line_start,
        });
    }
    Ok(state.runner.report())
}
