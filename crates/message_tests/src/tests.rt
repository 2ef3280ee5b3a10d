//! Payloads and the messages that they read as, worked by hand or taken from a kernel, a module for each crate.

mod dispatch;
mod link_xstats;
mod neighbour;
mod neighbour_table;
mod other;
mod stats;
mod wire;

use nl_core::{Emitable, Parseable, TryClone};
use std::alloc::Global;
use std::test::Fail;

// The text of a message, in bytes none of which stood there before.
fn written<M: Emitable>(alloc: Global, message: &M) -> Result<Vec<u8>, Fail> {
    if !message.fits() {
        return Err(Fail::from("unfit"));
    }
    let mut bytes = vec![in alloc; 0xaa_u8; message.buffer_len()]?;
    message.emit(bytes.as_mut_slice());
    Ok(bytes)
}

// Whether a payload reads as a message, which is written as the payload and equal to its clone.
fn is_text<'a, M>(alloc: Global, payload: &'a [u8], message: &M) -> Result<bool, Fail>
where
    M: Parseable<&'a [u8]> + Emitable + TryClone + PartialEq + Drop,
{
    let same = M::parse(alloc, &payload)? == *message && message.clone_with()? == *message;
    Ok(same && written(alloc, message)?.as_slice() == payload)
}
