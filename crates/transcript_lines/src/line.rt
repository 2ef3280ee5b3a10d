//! The record that a line spells, whatever the frames of its batch are.
ghost use Rattle.std.specs.Prelude.{◌≡◌, [], ◌∷◌, ◌++◌, codes, IfOk, IfSome, IfNone};
ghost use Rattle.transcript_lines.specs.Line.{IsRecordOf, IsAddressOf, IsFrameOf, IsMarkOf, IsKindOf};
ghost use Rattle.transcript_lines.specs.Words.{words_left};
ghost use Rattle.session_model.specs.Lines.{newline};
ghost use Rattle.session_model.specs.Transcript.{IsSpelled, record_line};
ghost use Rattle.session_model.specs.Causes.{IsNoRecord};

use crate::bytes::read_bytes;
use crate::network::{read_host, read_network};
use crate::number::read_number;
use crate::words::Words;
use nl_core::{Items, NoMemory};
use session_model::{BatchFrame, Mark, Record, SocketAddr};
use std::alloc::Global;

// The most bytes of a datagram that a line spells.
pub(crate) const LONGEST_DATAGRAM: usize = 65_536;

// Which form a record has, by its first word.
#[derive(Clone, Copy, PartialEq, Eq)]
pub(crate) enum Kind {
    Recv,
    Overrun,
    Close,
    Batch,
    Resync,
    Block,
    Unblock,
    Lookup,
}

pub(crate) fn kind_of(word: &[u8]) -> Option<Kind>
    ensures { IsKindOf word.now result }
{
    match word {
        b"recv" => Some(Kind::Recv),
        b"overrun" => Some(Kind::Overrun),
        b"close" => Some(Kind::Close),
        b"batch" => Some(Kind::Batch),
        b"resync" => Some(Kind::Resync),
        b"block" => Some(Kind::Block),
        b"unblock" => Some(Kind::Unblock),
        b"lookup" => Some(Kind::Lookup),
        _ => None,
    }
}

pub(crate) fn mark_of(letter: u8) -> Option<Mark>
    ensures { IsMarkOf letter result }
{
    match letter {
        b'f' => Some(Mark::ByFlags),
        b'e' => Some(Mark::Expected),
        b'n' => Some(Mark::NotExpected),
        _ => None,
    }
}

// The address that two words spell.
pub(crate) fn address_of(port: &[u8], groups: &[u8]) -> Option<SocketAddr>
    ensures { IsAddressOf (port.now ∷ groups.now ∷ []) result [] }
{
    let port = read_number(port)?;
    let groups = read_number(groups)?;
    Some(SocketAddr { port, groups })
}

// The address that the next two words spell.
fn read_address(words: &mut Words) -> Option<SocketAddr>
    ensures { IsAddressOf (words_left words.old) result (words_left words.new) }
{
    let port = read_number(words.next()?)?;
    let groups = read_number(words.next()?)?;
    Some(SocketAddr { port, groups })
}

// The frame that a word of a batch spells.
fn spelled_frame(alloc: Global, word: &[u8]) -> Result<Option<BatchFrame>, NoMemory>
    ensures { IfOk result (IsFrameOf word.now) }
{
    let [letter, b':', digits @ ..] = word else {
        return Ok(None);
    };
    let Some(mark) = mark_of(*letter) else {
        return Ok(None);
    };
    match read_bytes(alloc, digits)? {
        Some(bytes) => Ok(Some(BatchFrame { mark, bytes })),
        None => Ok(None),
    }
}

// The datagram that the words after `recv` spell.
fn read_datagram(alloc: Global, words: Words) -> Result<Option<Record>, NoMemory>
    ensures { IfOk result (IsRecordOf (codes "recv" ∷ words_left words.entry)) }
{
    let mut words = words;
    let Some(source) = read_address(&mut words) else {
        return Ok(None);
    };
    let Some(word) = words.next() else {
        return Ok(None);
    };
    if words.next().is_some() {
        return Ok(None);
    }
    if word.len() > 2 * LONGEST_DATAGRAM {
        return Ok(None);
    }
    match read_bytes(alloc, word)? {
        Some(bytes) => Ok(Some(Record::Recv { source, bytes })),
        None => Ok(None),
    }
}

// The batch that the words after `batch` spell.
fn read_batch(alloc: Global, words: Words) -> Result<Option<Record>, NoMemory>
    ensures { IfOk result (IsRecordOf (codes "batch" ∷ words_left words.entry)) }
{
    let mut words = words;
    let Some(to) = read_address(&mut words) else {
        return Ok(None);
    };
    let mut frames = Items::new(alloc);
    for word in words {
        match spelled_frame(alloc, word)? {
            Some(frame) => frames.push(frame)?,
            None => return Ok(None),
        }
    }
    Ok(Some(Record::Batch { to, frames }))
}

// The record that the words of a line spell.
fn record_of_words(alloc: Global, words: Words) -> Result<Option<Record>, NoMemory>
    ensures { IfOk result (IsRecordOf (words_left words.entry)) }
{
    let mut words = words;
    let Some(first) = words.next() else {
        return Ok(None);
    };
    match kind_of(first) {
        Some(Kind::Recv) => read_datagram(alloc, words),
        Some(Kind::Overrun) => Ok(words.next().is_none().then_some(Record::Overrun)),
        Some(Kind::Close) => Ok(words.next().is_none().then_some(Record::Close)),
        Some(Kind::Batch) => read_batch(alloc, words),
        Some(Kind::Resync) => Ok(words.next().is_none().then_some(Record::Resync)),
        Some(Kind::Block) => Ok(read_network(words).map(Record::Block)),
        Some(Kind::Unblock) => Ok(read_network(words).map(Record::Unblock)),
        Some(Kind::Lookup) => Ok(read_host(words).map(Record::Lookup)),
        None => Ok(None),
    }
}

// The record that a line, without its newline, spells, and `None` where it spells none. A record has one line, and no
// two records have the same; a line with a newline inside is none.
pub(crate) fn spelled_record(alloc: Global, line: &[u8]) -> Result<Option<Record>, NoMemory>
    ensures some { IfOk result (λ o. IfSome o (λ r. IsSpelled r × (line.now ++ newline ∷ [] ≡ record_line r))) }
    ensures none { IfOk result (λ o. IfNone o (IsNoRecord IsSpelled line.now)) }
{
    record_of_words(alloc, Words::new(line))
}
