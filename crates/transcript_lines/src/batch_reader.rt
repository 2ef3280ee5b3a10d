//! The frames of a `batch` line, whose words come in pieces.
ghost use Rattle.std.specs.Prelude.{◌≡◌, ◌+◌, ◌*◌, ◌≤◌, ◌∷◌, ◌++◌, [], IfOk, List, ℕ, codes, flat_map, length};
ghost use Rattle.session_model.specs.Transcript.{IsAddress};
ghost use Rattle.transcript_lines.specs.Decoding.{EndsWord, FeedsBatch, GoesOnInBatch, IsCount, ReadsBatch};
ghost use Rattle.transcript_lines.specs.Decoding.{bytes_in, head_words, kept_in_word, spaced};
ghost use Rattle.transcript_lines.specs.Cut.{HasNoByte};
ghost use Rattle.session_model.specs.Lines.{space};
ghost use Rattle.transcript_lines.specs.Line.{IsRecordOf};
ghost use Rattle.transcript_lines.specs.Words.{words_of};

use crate::cut::cut_at;
use crate::frame_word::FrameReader;
use nl_core::{Items, NoMemory};
use session_model::{BatchFrame, Record, SocketAddr};
use std::alloc::Global;

/// The address of a batch, its whole frames, and the frame whose word isn't whole.
#[derive(Drop)]
pub(crate) struct BatchReader {
    to: SocketAddr,
    frames: Items<BatchFrame>,
    word: FrameReader,
}

impl BatchReader {
    /// No frame so far.
    pub(crate) fn new(alloc: Global, to: SocketAddr) -> Self
        ensures { IsAddress to → ReadsBatch (flat_map spaced (head_words (codes "batch") to)) result }
    {
        BatchReader {
            to,
            frames: Items::new(alloc),
            word: FrameReader::Begin,
        }
    }

    // The reader after one more piece of the last word.
    fn take_word(self, alloc: Global, piece: &[u8]) -> Result<Self, NoMemory>
        requires { HasNoByte space piece.now }
        ensures { IfOk result (FeedsBatch self piece.now) }
    {
        let BatchReader { to, frames, word } = self;
        let word = word.feed(alloc, piece)?;
        Ok(BatchReader { to, frames, word })
    }

    // The reader after the end of a word, and `None` where the word is no frame.
    fn end_word(self) -> Result<Option<Self>, NoMemory>
        ensures { IfOk result (EndsWord self) }
    {
        let BatchReader { to, frames, word } = self;
        let Some(frame) = word.end() else {
            return Ok(None);
        };
        let mut frames = frames;
        frames.push(frame)?;
        let word = FrameReader::Begin;
        Ok(Some(BatchReader { to, frames, word }))
    }

    /// The reader after one more piece, and `None` where no line begins like this.
    pub(crate) fn feed(self, alloc: Global, piece: &[u8]) -> Result<Option<Self>, NoMemory>
        ensures { IfOk result (GoesOnInBatch self piece.now) }
    {
        let mut reader = self;
        let mut rest = piece;
        while let Some((word, after)) = cut_at(rest, b' ') {
            let Some(next) = reader.take_word(alloc, word)?.end_word()? else {
                return Ok(None);
            };
            reader = next;
            rest = after;
        }
        Ok(Some(reader.take_word(alloc, rest)?))
    }

    /// The record of the line, and `None` where it is none.
    pub(crate) fn end(self) -> Result<Option<Record>, NoMemory>
        ensures { IfOk result (λ o. (taken : List ℕ) → ReadsBatch taken self → IsRecordOf (words_of taken) o) }
    {
        let Some(reader) = self.end_word()? else {
            return Ok(None);
        };
        let BatchReader { to, frames, word } = reader;
        drop(word);
        Ok(Some(Record::Batch { to, frames }))
    }

    /// How many bytes are held.
    pub(crate) fn held(&self) -> usize
        ensures half { (taken : List ℕ) → ReadsBatch taken self.now → result * 2 ≤ length taken }
        ensures count { IsCount result (kept_in_word self.now.word + bytes_in self.now.frames) }
    {
        let mut held = self.word.held();
        for frame in self.frames.as_slice() {
            held = held.saturating_add(frame.bytes.len());
        }
        held
    }
}
