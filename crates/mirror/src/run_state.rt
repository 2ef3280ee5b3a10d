//! How far a run has come: what was read so far, and the text that isn't written yet.
ghost use Rattle.std.specs.Prelude.{◌≡◌, ◌+◌, ◌<◌, ◌≤◌, ◌^◌, [], OnOk, OnErr, IfOk, IfErr, Err, length, take};
ghost use Rattle.std.specs.Io.KnownBytes.{IsAtEnd};
ghost use Rattle.transcript_io.specs.Io.{GainedSome, HasRisen, traffic, with_back};
ghost use Rattle.transcript_lines.specs.LineDecoder.{Stands};
ghost use Rattle.mirror.specs.Faults.{IsInputFault, IsOutputFault};
ghost use Rattle.mirror.specs.Runner.{CountsInRange, HasNoCounts, HasSpace};
ghost use Rattle.mirror.specs.Feeding.{CountsFitInput, FedPiece, GrowsBy, HaltedBy, IsAllowed, KeepsInput, KeepsPlace, RefusesLine, TakesLine};
ghost use Rattle.mirror.specs.Outcome.{Ended, HasWritten, Running};

use crate::message::Message;
use crate::output::write_text;
use crate::runner::Runner;
use session_model::RunFault;
use std::alloc::Global;
use transcript_io::{Read, Sink, Source};
use transcript_lines::{Fed, Line, LineDecoder};

// How many bytes are read at once.
const READ_AT_ONCE: usize = 16_384;

/// The records so far, the unfinished line and where it begins, the count of bytes taken, and the text of records that
/// isn't written yet.
#[derive(Drop)]
pub struct RunState {
    pub runner: Runner,
    pub decoder: LineDecoder<Message>,
    pub line_start: u64,
    taken: u64,
    text: Vec<u8>,
}

impl RunState {
    /// Nothing read so far.
    pub fn new(alloc: Global, runner: Runner) -> Self
        requires counted { CountsInRange runner }
        requires none { HasNoCounts runner }
        ensures steady { CountsFitInput result }
        ensures runner { result.runner ≡ runner }
        ensures line { Stands [] result.decoder }
        ensures start { result.line_start ≡ 0 }
        ensures taken { result.taken ≡ 0 }
        ensures text { result.text.items ≡ [] }
    {
        RunState {
            runner,
            decoder: LineDecoder::new(alloc),
            line_start: 0,
            taken: 0,
            text: Vec::new(alloc),
        }
    }

    // Takes the record that the line since `line_start` is.
    fn take_line(&mut self, line: Line) -> Result<(), RunFault>
        requires allowed { IsAllowed line }
        requires counted { CountsInRange self.old.runner }
        requires space { HasSpace self.old.runner }
        ensures same { KeepsPlace self.old self.new }
        ensures settings { self.new.runner.settings ≡ self.old.runner.settings }
        ensures counted { OnOk result (CountsInRange self.new.runner) }
        ensures grows { OnOk result (GrowsBy line self.old.runner self.new.runner) }
        ensures step { OnOk result (TakesLine line self.old self.new) }
        ensures fault { IfErr result (RefusesLine line self.old self.new.text.items) }
        ensures only { IfErr result IsInputFault }
    {
        let at = self.line_start;
        let Line::Record(entry) = line else {
            return Err(RunFault::BadRecord { at });
        };
        let waiting = self.text.len();
        if let Err(fault) = self.runner.step(at, entry, &mut self.text) {
            self.text.truncate(waiting);
            return Err(fault);
        }
        Ok(())
    }

    // Takes the bytes up to and with the first newline, else all: how many they are.
    fn feed_line(&mut self, piece: &[u8]) -> Result<usize, RunFault>
        requires some { 0 < length piece.now }
        requires steady { CountsFitInput self.old }
        requires within { self.old.taken + length piece.now ≤ self.old.runner.settings.limit }
        requires fits { self.old.taken + length piece.now < 2 ^ 64 }
        ensures steady { OnOk result (CountsFitInput self.new) }
        ensures settings { self.new.runner.settings ≡ self.old.runner.settings }
        ensures some { IfOk result (λ took. 0 < took) }
        ensures part { IfOk result (λ took. took ≤ length piece.now) }
        ensures taken { IfOk result (λ took. self.new.taken ≡ self.old.taken + took) }
        ensures step { IfOk result (λ took. FedPiece self.old (take took piece.now) self.new) }
        ensures fault { IfErr result (HaltedBy self.old piece.now self.new.text.items) }
        ensures only { IfErr result IsInputFault }
    {
        let Fed { took, line } = self.decoder.feed(piece)?;
        self.taken += took as u64;
        let Some(line) = line else {
            return Ok(took);
        };
        self.take_line(line)?;
        self.line_start = self.taken;
        Ok(took)
    }

    // Takes a piece of the input that ends within the limit.
    fn feed_lines(&mut self, piece: &[u8]) -> Result<(), RunFault>
        requires steady { CountsFitInput self.old }
        requires within { self.old.taken + length piece.now ≤ self.old.runner.settings.limit }
        requires fits { self.old.taken + length piece.now < 2 ^ 64 }
        ensures steady { OnOk result (CountsFitInput self.new) }
        ensures settings { self.new.runner.settings ≡ self.old.runner.settings }
        ensures taken { OnOk result (self.new.taken ≡ self.old.taken + length piece.now) }
        ensures step { OnOk result (FedPiece self.old piece.now self.new) }
        ensures fault { IfErr result (HaltedBy self.old piece.now self.new.text.items) }
        ensures only { IfErr result IsInputFault }
    {
        let mut rest = piece;
        while !rest.is_empty() {
            let took = self.feed_line(rest)?;
            let (_, later) = rest.split_at(took);
            rest = later;
        }
        Ok(())
    }

    // Takes a piece of the input.
    fn feed(&mut self, piece: &[u8]) -> Result<(), RunFault>
        requires steady { CountsFitInput self.old }
        requires limit { self.old.taken ≤ self.old.runner.settings.limit }
        ensures steady { OnOk result (CountsFitInput self.new) }
        ensures taken { OnOk result (self.new.taken ≡ self.old.taken + length piece.now) }
        ensures limit { OnOk result (self.new.taken ≤ self.new.runner.settings.limit) }
        ensures settings { self.new.runner.settings ≡ self.old.runner.settings }
        ensures step { OnOk result (FedPiece self.old piece.now self.new) }
        ensures fault { IfErr result (HaltedBy self.old piece.now self.new.text.items) }
        ensures only { IfErr result IsInputFault }
    {
        let free = self.runner.settings.limit - self.taken;
        let count = free.min(piece.len() as u64) as usize;
        let (within, past) = piece.split_at(count);
        self.feed_lines(within)?;
        if past.is_empty() {
            Ok(())
        } else {
            Err(RunFault::Limit)
        }
    }

    /// Writes the text that waits.
    pub fn flush<K: Sink>(&mut self, out: &mut K) -> Result<(), RunFault>
        ensures ok { OnOk result (K.written out.new ≡ with_back (K.written out.old) self.old.text.items) }
        ensures part { OnErr result (GainedSome (K.written out.old) (K.written out.new) self.old.text.items) }
        ensures emptied { self.new.text.items ≡ [] }
        ensures same { KeepsInput self.old self.new }
        ensures cause { result ≡ Err RunFault.WriteFault → HasRisen (K.faults out.old) (K.faults out.new) }
        ensures only { IfErr result IsOutputFault }
        ensures later { K.faults out.old ≤ K.faults out.new }
    {
        let written = write_text(out, self.text.as_slice());
        self.text.clear();
        written
    }

    /// Reads the source to its end. The text of all whole lines at hand is written before more is read.
    pub fn read_all<S: Source, K: Sink>(
        &mut self,
        input: &mut S,
        out: &mut K,
    ) -> Result<(), RunFault>
        requires steady { CountsFitInput self.old }
        requires begun { Running self.old.runner.settings
            (traffic S.left input.old input.old K.written out.old out.old) self.old }
        ensures stands { HasWritten self.old.runner.settings
            (traffic S.left input.old input.new K.written out.old out.new) self.new.text.items }
        ensures steady { OnOk result (CountsFitInput self.new) }
        ensures ok { OnOk result (Running self.old.runner.settings
            (traffic S.left input.old input.new K.written out.old out.new) self.new) }
        ensures end { OnOk result (IsAtEnd (S.left input.new)) }
        ensures ended { IfErr result (Ended self.old.runner.settings
            (traffic S.left input.old input.new K.written out.old out.new) self.new.text.items) }
        ensures read_cause { result ≡ Err RunFault.ReadFault → HasRisen (S.faults input.old) (S.faults input.new) }
        ensures write_cause { result ≡ Err RunFault.WriteFault → HasRisen (K.faults out.old) (K.faults out.new) }
        ensures later { K.faults out.old ≤ K.faults out.new }
    {
        let mut piece = [0u8; READ_AT_ONCE];
        loop {
            self.flush(out)?;
            match input.read(&mut piece) {
                Read::Failed => return Err(RunFault::ReadFault),
                Read::End => return Ok(()),
                Read::Got(count) => self.feed(&piece[..count])?,
            }
        }
    }
}
