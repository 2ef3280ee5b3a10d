//! The lines of a generated transcript.
ghost use Rattle.std.specs.Prelude.{◌≡◌, ◌++◌, ◌≤◌, ◌==◌, ◌%◌, IfOk, OnOk, map};
ghost use Rattle.std.specs.List.{filter};
ghost use Rattle.session_model.specs.Transcript.{lines_of, record_line};
ghost use Rattle.transcript_generator.specs.Generated.{block_record, done_frame, from_kernel, gen_text, lookup_record, numbers, route_record};

use crate::frames::{address_at, leading_bits, write_done_frame, write_route_frame};
use nl_core::{NoMemory, Octets};
use std::alloc::Global;
use transcript_lines::{Word, put_line};

/// The most routes with which a generated text is within the usual limit of an input.
pub const MOST_ROUTES: u32 = 400_000;

// A network is blocked for each of so many routes.
const BLOCKED_EACH: u32 = 1000;

// How many leading bits of a blocked network count.
const BLOCKED_LEN: u8 = 16;

// About how many bytes the lines of a route and its look-up have, and the other lines.
const ROUTE_ROOM: usize = 133;

const OTHER_ROOM: usize = 128;

// Adds the line of a datagram from the kernel.
fn put_datagram(text: &mut Vec<u8>, bytes: &[u8]) -> Result<(), NoMemory>
    ensures { OnOk result (text.new.items ≡ text.old.items ++ record_line (from_kernel bytes.now)) }
{
    put_line(
        text,
        b"recv",
        &[Word::Number(0), Word::Number(0), Word::Hex(bytes)],
    )
}

// Adds the lines of the routes below a number.
fn put_routes(alloc: Global, text: &mut Vec<u8>, count: u32) -> Result<(), NoMemory>
    ensures { OnOk result (text.new.items ≡ text.old.items ++ lines_of (map route_record (numbers count))) }
{
    let mut frame = Vec::new(alloc);
    for i in 0..count {
        write_route_frame(&mut frame, i)?;
        put_datagram(text, frame.as_slice())?;
    }
    Ok(())
}

// Adds the line of the end of the dump.
fn put_done(alloc: Global, text: &mut Vec<u8>) -> Result<(), NoMemory>
    ensures { OnOk result (text.new.items ≡ text.old.items ++ record_line (from_kernel done_frame)) }
{
    let mut frame = Vec::new(alloc);
    write_done_frame(&mut frame)?;
    put_datagram(text, frame.as_slice())
}

// Adds the line by which the network of the i-th address is blocked.
fn put_block(text: &mut Vec<u8>, i: u32) -> Result<(), NoMemory>
    ensures { OnOk result (text.new.items ≡ text.old.items ++ record_line (block_record i)) }
{
    let octets = leading_bits(address_at(i), BLOCKED_LEN).to_be_bytes();
    let network = Word::Prefix {
        octets: &octets,
        length: BLOCKED_LEN,
    };
    put_line(text, b"block", &[Word::Plain(b"4"), network])
}

// Adds the lines by which each thousandth network is blocked.
#[tactic(auto, using(crate::proofs::Numbers::line_passed, crate::proofs::Numbers::line_skipped))]
fn put_blocks(text: &mut Vec<u8>, count: u32) -> Result<(), NoMemory>
    ensures { OnOk result (text.new.items ≡ text.old.items
        ++ lines_of (map block_record (filter (λ i. i % 1000 == 0) (numbers count)))) }
{
    for i in 0..count {
        if i % BLOCKED_EACH == 0 {
            put_block(text, i)?;
        }
    }
    Ok(())
}

// Adds the line of the look-up of the i-th address.
fn put_lookup(text: &mut Vec<u8>, i: u32) -> Result<(), NoMemory>
    ensures { OnOk result (text.new.items ≡ text.old.items ++ record_line (lookup_record i)) }
{
    let octets = address_at(i).to_be_bytes();
    put_line(text, b"lookup", &[Word::Plain(b"4"), Word::Hex(&octets)])
}

// Adds the lines of the look-ups of all addresses.
fn put_lookups(text: &mut Vec<u8>, count: u32) -> Result<(), NoMemory>
    ensures { OnOk result (text.new.items ≡ text.old.items ++ lines_of (map lookup_record (numbers count))) }
{
    for i in 0..count {
        put_lookup(text, i)?;
    }
    Ok(())
}

/// The text of a generated transcript of n routes: the peer is asked for its routes; n routes come, the i-th of them, from
/// 0, to the first 8 + i mod 25 bits of the address i * 2654435761 mod 2^32, by the link 1 + i mod 16, of priority
/// i mod 4; the dump ends; the first 16 bits of each thousandth address are blocked; and each address is looked up. Of
/// 400,000 routes it has 53 MB.
pub fn gen_text(alloc: Global, n: u32) -> Result<Octets, NoMemory>
    ensures { IfOk result (λ text. text ≡ gen_text n) }
{
    let mut text = Vec::with_capacity(alloc, OTHER_ROOM + ROUTE_ROOM * n as usize)?;
    put_line(&mut text, b"resync", &[])?;
    put_routes(alloc, &mut text, n)?;
    put_done(alloc, &mut text)?;
    put_blocks(&mut text, n)?;
    put_lookups(&mut text, n)?;
    Ok(Octets::from_vec(text))
}
