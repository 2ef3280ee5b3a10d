//! A frame of a batch, whose word comes in pieces.
ghost use Rattle.std.specs.Prelude.{◌≡◌, ◌*◌, ◌≤◌, ◌∷◌, ◌++◌, [], IfOk, List, ℕ, length};
ghost use Rattle.session_model.specs.Transcript.{mark_letter};
ghost use Rattle.transcript_lines.specs.Decoding.{FeedsFrame, ReadsFrame, kept_in_word};
ghost use Rattle.transcript_lines.specs.BytesReader.{ReadsBytes};
ghost use Rattle.transcript_lines.specs.Line.{IsFrameOf};

use crate::bytes::BytesReader;
use crate::line::mark_of;
use nl_core::NoMemory;
use session_model::{BatchFrame, Mark};
use std::alloc::Global;

/// How far the word of a frame has come.
#[derive(Drop)]
pub(crate) enum FrameReader {
    // Nothing so far.
    Begin,
    // The letter of its mark.
    Letter { mark: Mark },
    // The letter, the colon, and the digits so far.
    Digits { mark: Mark, digits: BytesReader },
    // No frame's word begins like this.
    Bad,
}

// A frame after its letter and one more piece.
fn after_letter(alloc: Global, mark: Mark, piece: &[u8]) -> Result<FrameReader, NoMemory>
    ensures { IfOk result (ReadsFrame (mark_letter mark ∷ piece.now)) }
{
    match piece {
        [] => Ok(FrameReader::Letter { mark }),
        [b':', digits @ ..] => {
            let reader = BytesReader::with_capacity(alloc, digits.len() / 2)?;
            let digits = reader.feed(digits)?;
            Ok(FrameReader::Digits { mark, digits })
        }
        _ => Ok(FrameReader::Bad),
    }
}

// A frame after the first piece of its word.
fn begin_frame(alloc: Global, piece: &[u8]) -> Result<FrameReader, NoMemory>
    ensures { IfOk result (ReadsFrame piece.now) }
{
    match piece {
        [] => Ok(FrameReader::Begin),
        [letter, others @ ..] => match mark_of(*letter) {
            Some(mark) => after_letter(alloc, mark, others),
            None => Ok(FrameReader::Bad),
        },
    }
}

impl FrameReader {
    /// The reader after one more piece of the word.
    pub(crate) fn feed(self, alloc: Global, piece: &[u8]) -> Result<Self, NoMemory>
        ensures { IfOk result (FeedsFrame self piece.now) }
    {
        match self {
            FrameReader::Begin => begin_frame(alloc, piece),
            FrameReader::Letter { mark } => after_letter(alloc, mark, piece),
            FrameReader::Digits { mark, digits } => {
                let digits = digits.feed(piece)?;
                Ok(FrameReader::Digits { mark, digits })
            }
            FrameReader::Bad => Ok(FrameReader::Bad),
        }
    }

    /// The frame that the word spells, and `None` where it spells none.
    pub(crate) fn end(self) -> Option<BatchFrame>
        ensures { (word : List ℕ) → ReadsFrame word self → IsFrameOf word result }
    {
        match self {
            FrameReader::Digits { mark, digits } => {
                let bytes = digits.end()?;
                Some(BatchFrame { mark, bytes })
            }
            FrameReader::Begin | FrameReader::Letter { .. } | FrameReader::Bad => None,
        }
    }

    /// How many bytes are held.
    pub(crate) fn held(&self) -> usize
        ensures half { (word : List ℕ) → ReadsFrame word self.now → result * 2 ≤ length word }
        ensures count { result ≡ kept_in_word self.now }
    {
        match self {
            FrameReader::Digits { digits, .. } => digits.held(),
            FrameReader::Begin | FrameReader::Letter { .. } | FrameReader::Bad => 0,
        }
    }
}
