//! The datagram of a `recv` line, whose digits come in pieces.
ghost use Rattle.std.specs.Prelude.{◌≡◌, ◌*◌, ◌≤◌, IfOk, List, ℕ, codes, flat_map, length};
ghost use Rattle.session_model.specs.Transcript.{IsAddress, longest_datagram};
ghost use Rattle.transcript_lines.specs.Decoding.{FeedsDatagram, ReadsDatagram, head_words, spaced};
ghost use Rattle.transcript_lines.specs.Line.{IsRecordOf};
ghost use Rattle.transcript_lines.specs.Words.{words_of};

use crate::bytes::BytesReader;
use crate::line::LONGEST_DATAGRAM;
use nl_core::NoMemory;
use session_model::{Record, SocketAddr};
use std::alloc::Global;

/// The address of a datagram, and its digits so far.
#[derive(Drop)]
pub(crate) struct DatagramReader {
    source: SocketAddr,
    digits: BytesReader,
}

impl DatagramReader {
    /// No digit so far, with room for so many.
    pub(crate) fn new(alloc: Global, source: SocketAddr, count: usize) -> Result<Self, NoMemory>
        ensures { IfOk result (λ reader. IsAddress source →
            ReadsDatagram (flat_map spaced (head_words (codes "recv") source)) reader) }
    {
        let room = (count / 2).min(LONGEST_DATAGRAM);
        Ok(DatagramReader {
            source,
            digits: BytesReader::with_capacity(alloc, room)?,
        })
    }

    /// The reader after one more piece, and `None` where no line begins like this.
    pub(crate) fn feed(self, piece: &[u8]) -> Result<Option<Self>, NoMemory>
        ensures { IfOk result (FeedsDatagram self piece.now) }
    {
        let left = (2 * LONGEST_DATAGRAM).saturating_sub(self.digits.held().saturating_mul(2));
        if piece.len() > left {
            return Ok(None);
        }
        let digits = self.digits.feed(piece)?;
        if digits.is_bad() {
            return Ok(None);
        }
        Ok(Some(DatagramReader {
            source: self.source,
            digits,
        }))
    }

    /// The record of the line, and `None` where it is none.
    pub(crate) fn end(self) -> Option<Record>
        ensures { (taken : List ℕ) → ReadsDatagram taken self → IsRecordOf (words_of taken) result }
    {
        let bytes = self.digits.end()?;
        Some(Record::Recv {
            source: self.source,
            bytes,
        })
    }

    /// How many bytes are held.
    pub(crate) fn held(&self) -> usize
        ensures half { (taken : List ℕ) → ReadsDatagram taken self.now → result * 2 ≤ length taken }
        ensures short { (taken : List ℕ) → ReadsDatagram taken self.now → result ≤ longest_datagram }
        ensures count { result ≡ length self.now.digits.bytes.items }
    {
        self.digits.held()
    }
}
