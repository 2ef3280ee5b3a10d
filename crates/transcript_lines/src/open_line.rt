//! An unfinished line, decoded as its bytes come.
ghost use Rattle.std.specs.Prelude.{◌≡◌, ◌*◌, ◌≤◌, ◌<◌, ◌↔◌, ◌∷◌, ◌++◌, [], false, IfOk, IsTrue, OnOk, List, ℕ, flat_map, length};
ghost use Rattle.session_model.specs.Transcript.{longest_datagram};
ghost use Rattle.transcript_lines.specs.Decoding.{AreWords, IsCount, spaced};
ghost use Rattle.transcript_lines.specs.OpenLine.{FeedsTail, IsCutInWords, IsRecvLine, ReadsTail, kept_at, kept_in};
ghost use Rattle.transcript_lines.specs.OpenLine.{ReadsHead, ReadsLine, StandsAt, TakesBytes};
ghost use Rattle.transcript_lines.specs.Line.{IsRecordOf};
ghost use Rattle.transcript_lines.specs.Words.{words_of};

use crate::batch_reader::BatchReader;
use crate::cut::cut_at;
use crate::datagram_reader::DatagramReader;
use crate::line::{Kind, address_of, kind_of, spelled_record};
use nl_core::NoMemory;
use session_model::Record;
use std::alloc::Global;

// The most bytes of a record's first three words with the spaces between them.
const LONGEST_HEAD: usize = 55;

// The first three words of a line, each with a space behind it, and what follows.
#[derive(Clone, Copy)]
struct Head<'a> {
    first: &'a [u8],
    second: &'a [u8],
    third: &'a [u8],
    rest: &'a [u8],
}

// The first three words of a line, and `None` where no space follows a third.
fn cut_head(line: &[u8]) -> Option<Head<'_>>
    ensures { IsCutInWords line.now result }
{
    let (first, rest) = cut_at(line, b' ')?;
    let (second, rest) = cut_at(rest, b' ')?;
    let (third, rest) = cut_at(rest, b' ')?;
    Some(Head {
        first,
        second,
        third,
        rest,
    })
}

/// What follows a line's first three words, of a record that has more.
#[derive(Drop)]
pub(crate) enum Tail {
    Datagram(DatagramReader),
    Batch(BatchReader),
    // No record's line begins like this.
    Bad,
}

// The tail of a line that begins with these words, each with a space behind it; so many bytes are at hand.
fn begin_tail(
    alloc: Global,
    first: &[u8],
    second: &[u8],
    third: &[u8],
    count: usize,
) -> Result<Tail, NoMemory>
    requires { AreWords (first.now ∷ second.now ∷ third.now ∷ []) }
    ensures { IfOk result (ReadsTail (flat_map spaced (first.now ∷ second.now ∷ third.now ∷ []))) }
{
    let Some(kind) = kind_of(first) else {
        return Ok(Tail::Bad);
    };
    let Some(address) = address_of(second, third) else {
        return Ok(Tail::Bad);
    };
    match kind {
        Kind::Recv => Ok(Tail::Datagram(DatagramReader::new(alloc, address, count)?)),
        Kind::Batch => Ok(Tail::Batch(BatchReader::new(alloc, address))),
        _ => Ok(Tail::Bad),
    }
}

impl Tail {
    // The tail after one more piece.
    fn feed(self, alloc: Global, piece: &[u8]) -> Result<Self, NoMemory>
        ensures { IfOk result (FeedsTail self piece.now) }
    {
        match self {
            Tail::Datagram(reader) => match reader.feed(piece)? {
                Some(reader) => Ok(Tail::Datagram(reader)),
                None => Ok(Tail::Bad),
            },
            Tail::Batch(reader) => match reader.feed(alloc, piece)? {
                Some(reader) => Ok(Tail::Batch(reader)),
                None => Ok(Tail::Bad),
            },
            Tail::Bad => Ok(Tail::Bad),
        }
    }

    // The record of the line, and `None` where it is none.
    fn end(self) -> Result<Option<Record>, NoMemory>
        ensures { IfOk result (λ o. (taken : List ℕ) → ReadsTail taken self → IsRecordOf (words_of taken) o) }
    {
        match self {
            Tail::Datagram(reader) => Ok(reader.end()),
            Tail::Batch(reader) => reader.end(),
            Tail::Bad => Ok(None),
        }
    }

    // How many bytes are held.
    fn held(&self) -> usize
        ensures half { (taken : List ℕ) → ReadsTail taken self.now → result * 2 ≤ length taken }
        ensures short { (taken : List ℕ) → ReadsTail taken self.now → IsRecvLine taken → result ≤ longest_datagram }
        ensures count { IsCount result (kept_in self.now) }
    {
        match self {
            Tail::Datagram(reader) => reader.held(),
            Tail::Batch(reader) => reader.held(),
            Tail::Bad => 0,
        }
    }
}

/// The line's first bytes, and what follows its head once that is whole.
#[derive(Drop)]
pub(crate) struct OpenLine {
    alloc: Global,
    head: Vec<u8>,
    tail: Option<Tail>,
}

impl OpenLine {
    /// Nothing taken.
    pub(crate) fn new(alloc: Global) -> Self
        ensures { ReadsLine [] result }
    {
        OpenLine {
            alloc,
            head: Vec::new(alloc),
            tail: None,
        }
    }

    /// The allocator.
    pub(crate) fn alloc(&self) -> Global {
        self.alloc
    }

    // Takes bytes of a line whose head isn't whole: its tail, if its head is whole then.
    fn take_head(&mut self, piece: &[u8]) -> Result<Option<Tail>, NoMemory>
        ensures { IfOk result (λ tail. (taken : List ℕ) → ReadsHead taken self.old.head.items →
            StandsAt (taken ++ piece.now) self.new.head.items tail) }
    {
        let free = (LONGEST_HEAD + 1).saturating_sub(self.head.len());
        let (front, others) = piece.split_at(free.min(piece.len()));
        self.head.extend_from_slice(front)?;
        let Some(head) = cut_head(self.head.as_slice()) else {
            let is_long = self.head.len() > LONGEST_HEAD;
            return Ok(is_long.then_some(Tail::Bad));
        };
        let count = head.rest.len().saturating_add(others.len());
        let tail = begin_tail(self.alloc, head.first, head.second, head.third, count)?;
        let tail = tail.feed(self.alloc, head.rest)?;
        Ok(Some(tail.feed(self.alloc, others)?))
    }

    /// Takes bytes of the line.
    pub(crate) fn take(&mut self, piece: &[u8]) -> Result<(), NoMemory>
        ensures { OnOk result (TakesBytes self.old piece.now self.new) }
    {
        let tail = match self.tail.take() {
            Some(tail) => Some(tail.feed(self.alloc, piece)?),
            None => self.take_head(piece)?,
        };
        self.tail = tail;
        Ok(())
    }

    /// Ends the line: the record that it spells, and `None` where it spells none. Nothing is taken then.
    pub(crate) fn end(&mut self) -> Result<Option<Record>, NoMemory>
        ensures told { IfOk result (λ o. (taken : List ℕ) → ReadsLine taken self.old → IsRecordOf (words_of taken) o) }
        ensures fresh { OnOk result (ReadsLine [] self.new) }
    {
        let spelled = match self.tail.take() {
            Some(tail) => tail.end()?,
            None => spelled_record(self.alloc, self.head.as_slice())?,
        };
        self.head.clear();
        Ok(spelled)
    }

    /// Whether bytes were taken.
    pub(crate) fn is_begun(&self) -> bool
        ensures begun { (taken : List ℕ) → ReadsLine taken self.now → IsTrue result ↔ (0 < length taken) }
        ensures fresh { result ≡ false → ReadsLine [] self.now }
    {
        self.tail.is_some() || !self.head.is_empty()
    }

    /// How many decoded bytes are held.
    pub(crate) fn held(&self) -> usize
        ensures half { (taken : List ℕ) → ReadsLine taken self.now → result * 2 ≤ length taken }
        ensures short { (taken : List ℕ) → ReadsLine taken self.now → IsRecvLine taken → result ≤ longest_datagram }
        ensures count { IsCount result (kept_at self.now.tail) }
    {
        match &self.tail {
            Some(tail) => tail.held(),
            None => 0,
        }
    }
}
