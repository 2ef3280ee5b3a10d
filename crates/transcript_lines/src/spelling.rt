//! Words and lines, as they are written.
ghost use Rattle.std.specs.Prelude.{◌≡◌, ◌∷◌, ◌++◌, ◌≤◌, OnOk, drop, flat_map, length, map, take};
ghost use Rattle.std.specs.List.{join_with_byte};
ghost use Rattle.std.specs.Fmt.{decimal};
ghost use Rattle.session_model.specs.Lines.{hex_word, line, space};
ghost use Rattle.transcript_lines.specs.Spelling.{spelled};

use crate::digits::spread_pairs;
use itoa::Buffer;
use nl_core::NoMemory;

/// One word of a line: a text as it stands, a number in decimal, bytes in lower-case hex, or a network: its octets in
/// lower-case hex, a slash and its length in decimal.
#[derive(Clone, Copy)]
pub enum Word<'a> {
    Plain(&'a [u8]),
    Number(u64),
    Hex(&'a [u8]),
    Prefix { octets: &'a [u8], length: u8 },
}

// The most digits of a number.
const LONGEST_NUMBER: usize = 20;

// The most bytes of a network's slash and length.
const LONGEST_LENGTH: usize = 4;

// Adds a number in decimal.
fn put_number(text: &mut Vec<u8>, number: u64) -> Result<(), NoMemory>
    ensures { OnOk result (text.new.items ≡ text.old.items ++ decimal number) }
{
    let mut buffer = Buffer::new();
    text.extend_from_slice(buffer.format(number).as_bytes())?;
    Ok(())
}

/// Puts the hex of the bytes that a text ends with, from a place on, in their place; `-` where there are none.
pub(crate) fn spell_from(text: &mut Vec<u8>, at: usize) -> Result<(), NoMemory>
    requires { at ≤ length text.old.items }
    ensures { OnOk result (text.new.items ≡ take at text.old.items ++ hex_word (drop at text.old.items)) }
{
    let end = text.len();
    let count = end - at;
    if count == 0 {
        text.push(b'-')?;
        return Ok(());
    }
    text.resize(end + count, 0)?;
    spread_pairs(&mut text.as_mut_slice()[at..], count);
    Ok(())
}

// Adds bytes in hex, or `-` where there are none.
fn put_hex(text: &mut Vec<u8>, bytes: &[u8]) -> Result<(), NoMemory>
    ensures { OnOk result (text.new.items ≡ text.old.items ++ hex_word bytes.now) }
{
    let at = text.len();
    text.extend_from_slice(bytes)?;
    spell_from(text, at)
}

// Adds a word.
fn put_word(text: &mut Vec<u8>, word: Word<'_>) -> Result<(), NoMemory>
    ensures { OnOk result (text.new.items ≡ text.old.items ++ spelled word.entry) }
{
    match word {
        Word::Plain(bytes) => {
            text.extend_from_slice(bytes)?;
            Ok(())
        }
        Word::Number(number) => put_number(text, number),
        Word::Hex(bytes) => put_hex(text, bytes),
        Word::Prefix { octets, length } => {
            put_hex(text, octets)?;
            text.push(b'/')?;
            put_number(text, u64::from(length))
        }
    }
}

// Adds words, each after a space.
fn put_more(text: &mut Vec<u8>, words: &[Word<'_>]) -> Result<(), NoMemory>
    ensures { OnOk result (text.new.items ≡ text.old.items ++ flat_map (λ w. space ∷ spelled w) words.now) }
{
    for word in words {
        text.push(b' ')?;
        put_word(text, *word)?;
    }
    Ok(())
}

// How many bytes a word has at most.
fn room_of(word: Word<'_>) -> usize {
    match word {
        Word::Plain(bytes) => bytes.len(),
        Word::Number(_) => LONGEST_NUMBER,
        Word::Hex(bytes) => bytes.len().saturating_mul(2).max(1),
        Word::Prefix { octets, .. } => octets
            .len()
            .saturating_mul(2)
            .saturating_add(LONGEST_LENGTH),
    }
}

/// Makes room once for a line of these words and of so many bytes more.
pub(crate) fn make_room(
    text: &mut Vec<u8>,
    first: &[u8],
    more: &[Word<'_>],
    others: usize,
) -> Result<(), NoMemory>
    ensures { text.new.items ≡ text.old.items }
{
    let mut room = first.len().saturating_add(others).saturating_add(1);
    for word in more {
        room = room.saturating_add(room_of(*word)).saturating_add(1);
    }
    text.reserve(room)?;
    Ok(())
}

/// Adds words, separated by spaces.
#[tactic(auto, using(crate::proofs::Joined::words_joined))]
pub(crate) fn put_words(text: &mut Vec<u8>, first: &[u8], more: &[Word<'_>]) -> Result<(), NoMemory>
    ensures { OnOk result (text.new.items ≡
        text.old.items ++ join_with_byte space (first.now ∷ map spelled more.now)) }
{
    text.extend_from_slice(first)?;
    put_more(text, more)
}

/// Adds a line of these words, separated by spaces.
pub fn put_line(text: &mut Vec<u8>, first: &[u8], more: &[Word<'_>]) -> Result<(), NoMemory>
    ensures { OnOk result (text.new.items ≡ text.old.items ++ line (first.now ∷ map spelled more.now)) }
{
    make_room(text, first, more, 0)?;
    put_words(text, first, more)?;
    text.push(b'\n')?;
    Ok(())
}
