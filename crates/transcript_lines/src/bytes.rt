//! Bytes, in two lower-case hex digits each, and `-` for no bytes.
ghost use Rattle.std.specs.Prelude.{List, ℕ, ◌++◌, ◌∷◌, [], ◌+◌, ◌*◌, ◌%◌, ◌≤◌, ◌<◌, ◌≡◌, ◌≢◌, ◌↔◌, IfOk, IsTrue, OnOk, length};
ghost use Rattle.session_model.specs.Lines.{hex_digit};
ghost use Rattle.transcript_lines.specs.Bytes.{ReadsAt, AreBytesOf, IsHalfSmall};

use crate::digits::{decode_pairs, digit_value};
use nl_core::{NoMemory, Octets};
use std::alloc::Global;

// What was fed last.
#[derive(Clone, Copy, PartialEq, Eq)]
pub(crate) enum Last {
    // Nothing was fed yet.
    Begin,
    // A dash alone.
    Dash,
    // The second digit of a byte.
    Whole,
    // The first digit of a byte, of this value.
    Half { high: u8 },
    // No bytes' spelling begins like this.
    Bad,
}

/// What a reader made of the hex digits that it was fed: the bytes so far, and whether a digit is left over.
#[derive(Drop)]
pub struct BytesReader {
    last: Last,
    bytes: Vec<u8>,
    ghost half_small: { IsHalfSmall last },
}

impl BytesReader {
    ghost use Rattle.transcript_lines.specs.BytesReader.{FeedsBytes, ReadsBytes};

    /// A reader that was fed nothing.
    pub fn new(alloc: Global) -> Self
        ensures { ReadsBytes [] result }
    {
        BytesReader {
            last: Last::Begin,
            bytes: Vec::new(alloc),
        }
    }

    // A reader that was fed nothing, with room for so many bytes.
    pub(crate) fn with_capacity(alloc: Global, count: usize) -> Result<Self, NoMemory>
        ensures { IfOk result (ReadsBytes []) }
    {
        Ok(BytesReader {
            last: Last::Begin,
            bytes: Vec::with_capacity(alloc, count)?,
        })
    }

    // Takes a digit more, of this value.
    fn digit(&mut self, value: u8) -> Result<(), NoMemory>
        requires { value < 16 }
        ensures { OnOk result (FeedsBytes self.old (hex_digit value ∷ []) self.new) }
    {
        match self.last {
            Last::Begin | Last::Whole => {
                self.last = Last::Half { high: value };
            }
            Last::Half { high } => {
                self.bytes.push(high * 16 + value)?;
                self.last = Last::Whole;
            }
            Last::Dash | Last::Bad => {
                self.last = Last::Bad;
            }
        }
        Ok(())
    }

    // Takes a byte more that is no digit.
    fn other(&mut self, byte: u8)
        requires { (value : ℕ) → value < 16 → byte ≢ hex_digit value }
        ensures { FeedsBytes self.old (byte ∷ []) self.new }
    {
        match self.last {
            Last::Begin if byte == b'-' => {
                self.last = Last::Dash;
            }
            _ => {
                self.last = Last::Bad;
            }
        }
    }

    // Takes one byte more.
    fn take(&mut self, byte: u8) -> Result<(), NoMemory>
        ensures { OnOk result (FeedsBytes self.old (byte ∷ []) self.new) }
    {
        let value = digit_value(byte);
        if value < 16 {
            return self.digit(value);
        }
        self.other(byte);
        Ok(())
    }

    // Takes bytes one by one.
    fn take_each(&mut self, piece: &[u8]) -> Result<(), NoMemory>
        ensures { OnOk result (FeedsBytes self.old piece.now self.new) }
    {
        for byte in piece {
            self.take(*byte)?;
        }
        Ok(())
    }

    // Takes pairs of digits, all at once where no digit waits for its second.
    fn take_pairs(&mut self, digits: &[u8]) -> Result<(), NoMemory>
        requires { length digits.now % 2 ≡ 0 }
        ensures { OnOk result (FeedsBytes self.old digits.now self.new) }
    {
        if digits.is_empty() || !matches!(self.last, Last::Begin | Last::Whole) {
            return self.take_each(digits);
        }
        let held = self.bytes.len();
        self.bytes.resize(held + digits.len() / 2, 0)?;
        let bytes = &mut self.bytes.as_mut_slice()[held..];
        self.last = if decode_pairs(digits, bytes) {
            Last::Whole
        } else {
            Last::Bad
        };
        Ok(())
    }

    /// The reader after one more piece.
    pub fn feed(self, piece: &[u8]) -> Result<Self, NoMemory>
        ensures { IfOk result (FeedsBytes self piece.now) }
    {
        let mut reader = self;
        let waiting = usize::from(matches!(reader.last, Last::Half { .. }));
        let (second, others) = piece.split_at(waiting.min(piece.len()));
        let (pairs, first) = others.split_at(others.len() - others.len() % 2);
        reader.take_each(second)?;
        reader.take_pairs(pairs)?;
        reader.take_each(first)?;
        Ok(reader)
    }

    /// Whether no bytes' spelling begins like what was fed.
    pub(crate) fn is_bad(&self) -> bool
        ensures { IsTrue result ↔ (self.now.last ≡ Last.Bad) }
    {
        matches!(self.last, Last::Bad)
    }

    /// The bytes that were fed, and `None` where what was fed is not the spelling of any.
    pub fn end(self) -> Option<Octets>
        ensures { (fed : List ℕ) → ReadsBytes fed self → AreBytesOf fed result }
    {
        match self.last {
            Last::Dash | Last::Whole => Some(Octets::from_vec(self.bytes)),
            _ => None,
        }
    }

    /// How many bytes are held: at most half as many as were fed.
    pub fn held(&self) -> usize
        ensures count { result ≡ length self.now.bytes.items }
        ensures half { (fed : List ℕ) → ReadsBytes fed self.now → result * 2 ≤ length fed }
    {
        self.bytes.len()
    }
}

/// The bytes that a word spells.
pub(crate) fn read_bytes(alloc: Global, word: &[u8]) -> Result<Option<Octets>, NoMemory>
    ensures { IfOk result (AreBytesOf word.now) }
{
    let reader = BytesReader::with_capacity(alloc, word.len() / 2)?;
    Ok(reader.feed(word)?.end())
}
