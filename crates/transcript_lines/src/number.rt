//! A number below 2^32, in decimal digits with no leading zero.
ghost use Rattle.std.specs.Prelude.{List, ℕ, ◌++◌, ◌∷◌, []};
ghost use Rattle.transcript_lines.specs.Number.{FeedsNumber, ReadsNumber, IsNumberOf};

/// What a reader made of the digits that it was fed: the number so far, if more digits may follow or the word may end.
#[derive(Clone, Copy, Debug, PartialEq, Eq)]
pub enum NumberReader {
    /// Nothing was fed yet.
    Begin,
    /// The number that was fed.
    Value { number: u32 },
    /// No number's spelling begins like this.
    Bad,
}

impl NumberReader {
    /// A reader that was fed nothing.
    pub fn new() -> Self
        ensures { ReadsNumber [] result }
    {
        NumberReader::Begin
    }

    // The reader after one more byte.
    fn next(self, byte: u8) -> Self
        ensures { FeedsNumber self (byte ∷ []) result }
    {
        if !byte.is_ascii_digit() {
            return NumberReader::Bad;
        }
        let digit = u64::from(byte - b'0');
        match self {
            NumberReader::Begin => NumberReader::Value {
                number: digit as u32,
            },
            // No digit follows a leading zero.
            NumberReader::Value { number: 0 } => NumberReader::Bad,
            NumberReader::Value { number } => {
                let next = u64::from(number) * 10 + digit;
                if next > u64::from(u32::MAX) {
                    return NumberReader::Bad;
                }
                NumberReader::Value {
                    number: next as u32,
                }
            }
            NumberReader::Bad => NumberReader::Bad,
        }
    }

    /// The reader after one more piece.
    pub fn feed(self, piece: &[u8]) -> Self
        ensures { FeedsNumber self piece.now result }
    {
        let mut reader = self;
        for byte in piece {
            reader = reader.next(*byte);
        }
        reader
    }

    /// The number that was fed, and `None` where what was fed is no number below 2^32 or not its one spelling.
    pub fn end(self) -> Option<u32>
        ensures { (fed : List ℕ) → ReadsNumber fed self → IsNumberOf fed result }
    {
        match self {
            NumberReader::Value { number } => Some(number),
            NumberReader::Begin => None,
            NumberReader::Bad => None,
        }
    }
}

/// The number that a word spells.
pub(crate) fn read_number(word: &[u8]) -> Option<u32>
    ensures { IsNumberOf word.now result }
{
    NumberReader::new().feed(word).end()
}
