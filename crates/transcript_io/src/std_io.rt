//! A source and a sink over a reader and a writer of std. As a source and a sink they tell no bytes; their clauses say what
//! becomes of the bytes that the reader or the writer tells.
ghost use Rattle.std.specs.Prelude.{◌≡◌, ◌≢◌, ◌<◌, ◌≤◌, ℕ, None, length, take};
ghost use Rattle.std.specs.Io.KnownBytes.{Appends, Consumes, IsAtEnd, Keeps};
ghost use Rattle.transcript_io.specs.Io.{DidRead, DidWrite, HasRisen};

use crate::sink::{Sink, Wrote};
use crate::source::{Read, Source};
use std::io;

/// A source over a reader.
#[derive(Drop)]
pub struct StdSource<R> {
    reader: R,
    faults: u64,
}

impl<R: io::Read> StdSource<R> {
    ghost use Rattle.transcript_io.specs.StdIo.{reader_of};

    /// This reader, with no faults so far.
    pub fn new(reader: R) -> Self
        ensures faults { ⟦<StdSource<R> as Source>⟧.faults result ≡ 0 }
        ensures reader { reader_of result ≡ reader }
    {
        StdSource { reader, faults: 0 }
    }
}

impl<R: io::Read> Source for StdSource<R> {
    ghost use Rattle.transcript_io.specs.StdIo.{read_faults, reader_of};

    ghost left = { λ s. None };

    ghost faults = { λ s. read_faults s };

    /// As every source, and it gives what the reader gives, ends only where the reader is at its end, and loses nothing
    /// where the reader fails.
    fn read(&mut self, into: &mut [u8]) -> Read
        requires { 0 < length into.old }
        ensures read { DidRead None result into.new None }
        ensures cause { result ≡ Read.Failed → HasRisen (read_faults self.old) (read_faults self.new) }
        ensures later { read_faults self.old ≤ read_faults self.new }
        ensures got { (n : ℕ) → result ≡ Read.Got n
            → Consumes (R.remaining (reader_of self.old)) (R.remaining (reader_of self.new)) (take n into.new) }
        ensures end { result ≡ Read.End → IsAtEnd (R.remaining (reader_of self.new)) }
        ensures failed { result ≡ Read.Failed
            → Keeps (R.remaining (reader_of self.old)) (R.remaining (reader_of self.new)) }
    {
        match self.reader.read(into) {
            Ok(0) => Read::End,
            Ok(n) => Read::Got(n),
            Err(_) => {
                self.faults = self.faults.saturating_add(1);
                Read::Failed
            }
        }
    }
}

/// A sink over a writer that keeps no bytes back. A write that takes nothing counts as failed.
#[derive(Drop)]
pub struct StdSink<W> {
    writer: W,
    faults: u64,
}

impl<W: io::Write> StdSink<W> {
    ghost use Rattle.transcript_io.specs.StdIo.{writer_of};

    /// This writer, with no faults so far.
    pub fn new(writer: W) -> Self
        ensures faults { ⟦<StdSink<W> as Sink>⟧.faults result ≡ 0 }
        ensures writer { writer_of result ≡ writer }
    {
        StdSink { writer, faults: 0 }
    }
}

impl<W: io::Write> Sink for StdSink<W> {
    ghost use Rattle.transcript_io.specs.StdIo.{write_faults, writer_of};

    ghost written = { λ s. None };

    ghost faults = { λ s. write_faults s };

    /// As every sink, and it takes what the writer takes, and never answers that memory ran out.
    fn write(&mut self, piece: &[u8]) -> Wrote
        requires { 0 < length piece.now }
        ensures wrote { DidWrite None result piece.now None }
        ensures cause { result ≡ Wrote.Failed → HasRisen (write_faults self.old) (write_faults self.new) }
        ensures later { write_faults self.old ≤ write_faults self.new }
        ensures took { (n : ℕ) → result ≡ Wrote.Took n
            → Appends (W.contents (writer_of self.old)) (W.contents (writer_of self.new)) (take n piece.now) }
        ensures memory { result ≢ Wrote.NoMemory }
    {
        match self.writer.write(piece) {
            Ok(0) | Err(_) => {
                self.faults = self.faults.saturating_add(1);
                Wrote::Failed
            }
            Ok(n) => Wrote::Took(n),
        }
    }
}
