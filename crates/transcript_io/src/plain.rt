//! A source of bytes that never fails, and a sink that drops what it takes.
ghost use Rattle.std.specs.Prelude.{◌≡◌, ◌≢◌, ◌<◌, ◌≤◌, None, Some, length, vec_len};
ghost use Rattle.transcript_io.specs.Io.{DidRead, DidWrite};

use crate::memory::copy_piece;
use crate::sink::{Sink, Wrote};
use crate::source::{Read, Source};

/// A source that gives the bytes of a list, and never fails.
#[derive(Drop)]
pub struct BytesSource {
    bytes: Vec<u8>,
    at: usize,
    ghost within: { at ≤ vec_len bytes },
}

impl BytesSource {
    /// These bytes.
    pub fn new(bytes: Vec<u8>) -> Self
        ensures { ⟦<BytesSource as Source>⟧.left result ≡ Some bytes.items }
    {
        BytesSource { bytes, at: 0 }
    }
}

impl Source for BytesSource {
    ghost use Rattle.transcript_io.specs.Plain.{bytes_after};

    ghost left = { λ s. Some (bytes_after s) };

    ghost faults = { λ s. 0 };

    /// As every source, and it never fails.
    fn read(&mut self, into: &mut [u8]) -> Read
        requires { 0 < length into.old }
        ensures read { DidRead (Some (bytes_after self.old)) result into.new (Some (bytes_after self.new)) }
        ensures never { result ≢ Read.Failed }
    {
        let rest = self.bytes.len() - self.at;
        if rest == 0 {
            return Read::End;
        }
        let n = rest.min(into.len());
        copy_piece(into, self.bytes.as_slice(), self.at, n);
        self.at += n;
        Read::Got(n)
    }
}

/// A sink that takes all that is written to it, keeps nothing of it and never fails. It tells no bytes.
#[derive(Clone, Copy, Debug, PartialEq, Eq)]
pub struct NullSink;

impl Sink for NullSink {
    ghost written = { λ s. None };

    ghost faults = { λ s. 0 };

    /// As every sink, and it takes the whole piece.
    fn write(&mut self, piece: &[u8]) -> Wrote
        requires { 0 < length piece.now }
        ensures wrote { DidWrite None result piece.now None }
        ensures all { result ≡ Wrote.Took (length piece.now) }
    {
        Wrote::Took(piece.len())
    }
}
