//! The lines of a transcript, whose bytes come in pieces.
ghost use Rattle.std.specs.Prelude.{◌*◌, ◌≤◌, ◌<◌, ◌↔◌, ◌++◌, [], IfNone, IfOk, IfSome, IsTrue, OnOk, List, ℕ, length};
ghost use Rattle.session_model.specs.Transcript.{IsRecord, longest_datagram};
ghost use Rattle.transcript_lines.specs.Decoding.{IsCount};
ghost use Rattle.transcript_lines.specs.OpenLine.{IsRecvLine};

use crate::cut::cut_at;
use crate::open_line::OpenLine;
use crate::record::{has_whole_frames, read_record};
use nl_core::{NetlinkDeserializable, NoMemory};
use session_model::Record;
use std::alloc::Global;
use std::marker::PhantomData;

/// What a whole line is: a record, or none.
#[derive(PartialEq, Drop)]
pub enum Line {
    Record(Record),
    Bad,
}

/// How many bytes of a piece were taken, and the line that ended with the last of them, if it was a newline.
#[derive(PartialEq, Drop)]
pub struct Fed {
    pub took: usize,
    pub line: Option<Line>,
}

/// The lines of a transcript, decoded as their bytes come; frames of a batch have to be readable as a `T`. No line is
/// kept as text. Out of memory it isn't used again.
#[derive(Drop)]
pub struct LineDecoder<T> {
    line: OpenLine,
    message: PhantomData<T>,
}

impl<T: NetlinkDeserializable + Drop> LineDecoder<T> {
    ghost use Rattle.transcript_lines.specs.LineDecoder.{EndsLine, IsLineOf, Stands, TakesAll, kept};

    /// Nothing taken.
    pub fn new(alloc: Global) -> Self
        ensures { Stands [] result }
    {
        LineDecoder {
            line: OpenLine::new(alloc),
            message: PhantomData,
        }
    }

    // Ends the line: what it is.
    fn end(&mut self) -> Result<Line, NoMemory>
        ensures told { IfOk result (λ line. (taken : List ℕ) → Stands taken self.old →
            IsLineOf (IsRecord T.reads) taken line) }
        ensures fresh { OnOk result (Stands [] self.new) }
    {
        let Some(record) = self.line.end()? else {
            return Ok(Line::Bad);
        };
        if has_whole_frames::<T>(self.line.alloc(), &record)? {
            Ok(Line::Record(record))
        } else {
            Ok(Line::Bad)
        }
    }

    // What a line is whose bytes are all at hand.
    fn whole(alloc: Global, line: &[u8]) -> Result<Line, NoMemory>
        ensures { IfOk result (IsLineOf (IsRecord T.reads) line.now) }
    {
        match read_record::<T>(alloc, line)? {
            Some(record) => Ok(Line::Record(record)),
            None => Ok(Line::Bad),
        }
    }

    // Takes the last bytes of a line: what it is. A line that begins with them is read where they lie.
    fn last(&mut self, piece: &[u8]) -> Result<Line, NoMemory>
        ensures told { IfOk result (λ line. (taken : List ℕ) → Stands taken self.old →
            IsLineOf (IsRecord T.reads) (taken ++ piece.now) line) }
        ensures fresh { OnOk result (Stands [] self.new) }
    {
        if !self.line.is_begun() {
            return Self::whole(self.line.alloc(), piece);
        }
        self.line.take(piece)?;
        self.end()
    }

    /// Takes the bytes up to and with the first newline, else all. A line is told exactly where a newline was taken:
    /// the record that the bytes since the line began spell, or `Bad` where they spell none; nothing is taken then.
    pub fn feed(&mut self, piece: &[u8]) -> Result<Fed, NoMemory>
        ensures part { IfOk result (λ fed. IfNone fed.line (TakesAll self.old piece.now fed.took self.new)) }
        ensures line { IfOk result (λ fed. IfSome fed.line (EndsLine T.reads self.old piece.now fed.took self.new)) }
    {
        let Some((front, _)) = cut_at(piece, b'\n') else {
            self.line.take(piece)?;
            return Ok(Fed {
                took: piece.len(),
                line: None,
            });
        };
        let line = self.last(front)?;
        Ok(Fed {
            took: front.len() + 1,
            line: Some(line),
        })
    }

    /// Whether bytes of an unfinished line were taken.
    pub fn begun(&self) -> bool
        ensures { (taken : List ℕ) → Stands taken self.now → IsTrue result ↔ (0 < length taken) }
    {
        self.line.is_begun()
    }

    /// How many decoded bytes are kept: at most half as many as the line's bytes so far, and at most 65,536 in a
    /// `recv` line.
    pub fn held(&self) -> usize
        ensures half { (taken : List ℕ) → Stands taken self.now → result * 2 ≤ length taken }
        ensures short { (taken : List ℕ) → Stands taken self.now → IsRecvLine taken → result ≤ longest_datagram }
        ensures count { IsCount result (kept self.now) }
    {
        self.line.held()
    }
}
