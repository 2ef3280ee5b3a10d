//! The addresses and the frames of a generated dump.
ghost use Rattle.std.specs.Prelude.{◌≡◌, ◌++◌, ◌≤◌, OnOk};
ghost use Rattle.transcript_generator.specs.Generated.{address_at, attribute, done_frame, header, leading_bits, length_at, route_frame, route_header};

use nl_core::NoMemory;

// The types of the two frames, of linux/netlink.h and linux/rtnetlink.h.
const NLMSG_DONE: u8 = 3;

const RTM_NEWROUTE: u8 = 24;

// The types of the attributes of a route, of linux/rtnetlink.h.
const RTA_DST: u8 = 1;

const RTA_OIF: u8 = 4;

const RTA_PRIORITY: u8 = 6;

// How many bytes the frame of a route has, and the frame that ends the dump.
const ROUTE_LEN: u8 = 52;

const DONE_LEN: u8 = 20;

// 2^32 over the golden ratio.
const SPREAD: u32 = 2_654_435_761;

/// The i-th address.
pub fn address_at(i: u32) -> u32
    ensures { result ≡ address_at i }
{
    i.wrapping_mul(SPREAD)
}

// How many leading bits of the i-th address are its route's network.
fn length_at(i: u32) -> u8
    ensures { result ≡ length_at i }
{
    8 + (i % 25) as u8
}

/// An address without all but so many leading bits.
pub fn leading_bits(number: u32, length: u8) -> u32
    requires some { 1 ≤ length }
    requires most { length ≤ 32 }
    ensures { result ≡ leading_bits number length }
{
    number - number % (1 << (32 - length))
}

// The header of a frame of so many bytes: its type, the flag that it is one of several, number 1 and port 0.
fn header(length: u8, kind: u8) -> [u8; 16]
    ensures { result ≡ header length kind }
{
    [length, 0, 0, 0, kind, 0, 2, 0, 1, 0, 0, 0, 0, 0, 0, 0]
}

// The header of a route of the main table to an IPv4 network of this length.
fn route_header(length: u8) -> [u8; 12]
    ensures { result ≡ route_header length }
{
    [2, length, 0, 0, 254, 0, 0, 1, 0, 0, 0, 0]
}

// Adds an attribute.
fn put_attribute(frame: &mut Vec<u8>, kind: u8, value: [u8; 4]) -> Result<(), NoMemory>
    ensures { OnOk result (frame.new.items ≡ frame.old.items ++ attribute kind value) }
{
    frame.extend_from_slice(&[8, 0, kind, 0])?;
    frame.extend_from_slice(&value)?;
    Ok(())
}

/// Puts the frame of the i-th route into a buffer, in place of what it holds.
pub fn write_route_frame(frame: &mut Vec<u8>, i: u32) -> Result<(), NoMemory>
    ensures { OnOk result (frame.new.items ≡ route_frame i) }
{
    let length = length_at(i);
    let network = leading_bits(address_at(i), length);
    frame.clear();
    frame.extend_from_slice(&header(ROUTE_LEN, RTM_NEWROUTE))?;
    frame.extend_from_slice(&route_header(length))?;
    put_attribute(frame, RTA_DST, network.to_be_bytes())?;
    put_attribute(frame, RTA_OIF, (1 + i % 16).to_le_bytes())?;
    put_attribute(frame, RTA_PRIORITY, (i % 4).to_le_bytes())
}

/// Puts the frame that ends the dump, with code 0, into a buffer, in place of what it holds.
pub fn write_done_frame(frame: &mut Vec<u8>) -> Result<(), NoMemory>
    ensures { OnOk result (frame.new.items ≡ done_frame) }
{
    frame.clear();
    frame.extend_from_slice(&header(DONE_LEN, NLMSG_DONE))?;
    frame.extend_from_slice(&[0; 4])?;
    Ok(())
}
