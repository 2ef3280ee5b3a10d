//! Between messages and the bytes of datagrams.
ghost use Rattle.std.specs.Prelude.{◌≡◌, ◌+◌, ◌<◌, ◌≤◌, ◌++◌, IfErr, IfOk, OnErr, OnOk, Err, drop, false, length, true};
ghost use Rattle.nl_core.specs.Frames.{frame_at, header_at, message_fits, message_text};
ghost use Rattle.proto_core.specs.Codec.{front, left, readable, without_front};
ghost use Rattle.proto_core.specs.Walk.{front_header, if_read};
ghost use Rattle.proto_core.specs.declared.codec.CodecError.TheVariants.{NoMemory as OutOfMemory, Unfit as DoesNotFit};

use bytes::BytesMut;
use nl_core::{
    DecodeError, HEADER_LEN, NetlinkDeserializable, NetlinkHeader, NetlinkMessage,
    NetlinkSerializable, NoMemory,
};
use std::alloc::{AllocError, Global};
use thiserror::Error;

/// What stood at the front of a buffer.
#[derive(Debug, PartialEq, Eq, Drop)]
pub enum Decoded<T> {
    /// The message of a frame.
    Message(NetlinkMessage<T>),
    /// A frame that can't be read, by the type and the number in its header.
    Unreadable {
        message_type: u16,
        sequence_number: u32,
    },
    /// So many bytes that begin no frame.
    Rest {
        bytes: usize,
    },
    /// No byte.
    Empty,
}

/// Why a message isn't written.
#[derive(Clone, Copy, Debug, PartialEq, Eq, Error)]
pub enum CodecError {
    /// A length in the message is too large for its field.
    #[error("message does not fit")]
    Unfit,
    #[error("out of memory")]
    NoMemory,
}

impl From<AllocError> for CodecError {
    ghost from_gives = { λ _ e. e ≡ OutOfMemory };

    fn from(_: AllocError) -> Self {
        CodecError::NoMemory
    }
}

impl From<NoMemory> for CodecError {
    ghost from_gives = { λ _ e. e ≡ OutOfMemory };

    fn from(_: NoMemory) -> Self {
        CodecError::NoMemory
    }
}

/// Messages out of the bytes of datagrams, and into them.
///
/// A buffer is cut into frames from the front, each as long as the length field of its header says.
/// The bytes after the last frame are a rest: too few for a header, or under a length field below
/// 16 or above their count.
pub trait NetlinkMessageCodec {
    /// Takes the frame at the front out of a buffer, or all of it where none begins there.
    fn decode_next<T: NetlinkDeserializable>(
        alloc: Global,
        src: &mut BytesMut,
    ) -> Result<Decoded<T>, NoMemory>
        ensures front { IfOk result (λ d. d ≡ front T.reads src.old.items) }
        ensures rest { OnOk result (src.new.items ≡ without_front src.old.items) }
        ensures err { OnErr result (src.new ≡ src.old) };

    /// Takes the first message that can be read out of a buffer, and all before it; None where no
    /// frame can be read, and then the buffer is empty.
    fn decode<T: NetlinkDeserializable>(
        alloc: Global,
        src: &mut BytesMut,
    ) -> Result<Option<NetlinkMessage<T>>, NoMemory>
        ensures message { IfOk result (λ m. m ≡ readable T.reads src.old.items) }
        ensures rest { OnOk result (src.new.items ≡ left T.reads src.old.items) }
        ensures err { OnErr result (src.new ≡ src.old) };

    /// Appends the header as held and then the payload's bytes, or nothing. `Unfit` where the
    /// message doesn't fit.
    fn encode<T: NetlinkSerializable + Drop>(
        msg: NetlinkMessage<T>,
        buf: &mut BytesMut,
    ) -> Result<(), CodecError>
        ensures ok { OnOk result (buf.new.items ≡ buf.old.items ++ message_text T.text msg) }
        ensures same { OnErr result (buf.new.items ≡ buf.old.items) }
        ensures fits { OnOk result (message_fits T.text T.fitting msg ≡ true) }
        ensures unfit { IfErr result (λ e. e ≡ DoesNotFit → message_fits T.text T.fitting msg ≡ false) }

        // Memory runs out only where the buffer has too little room.
        ensures room { OnOk result (buf.old.spare ≤ buf.new.spare + length (message_text T.text msg)) }
        ensures memory { IfErr result (λ e. e ≡ OutOfMemory → buf.old.spare < length (message_text T.text msg)) };
}

/// The codec of netlink: a header of 16 bytes in front of each payload, nothing between frames.
#[derive(Clone, Copy, Debug, Default, PartialEq, Eq)]
pub struct NetlinkCodec;

// The header of the frame at the front, if one begins there.
fn header_in_front(bytes: &[u8]) -> Option<NetlinkHeader>
    ensures { result ≡ front_header bytes.now }
{
    if bytes.len() < HEADER_LEN {
        return None;
    }
    let header = NetlinkHeader::at_front(bytes);
    let len = header.length as usize;
    if len < HEADER_LEN || bytes.len() < len {
        return None;
    }
    Some(header)
}

/// The message of the frame at the front; bytes past it are not looked at. None where no frame
/// begins there, or it can't be read.
pub fn read_frame<T: NetlinkDeserializable>(
    alloc: Global,
    bytes: &[u8],
) -> Result<Option<NetlinkMessage<T>>, NoMemory>
    ensures { IfOk result (λ m. m ≡ if_read (frame_at T.reads bytes.now)) }
{
    match NetlinkMessage::deserialize(alloc, bytes) {
        Ok(message) => Ok(Some(message)),
        Err(DecodeError::NoMemory) => Err(NoMemory),
        Err(_) => Ok(None),
    }
}

// The first message of bytes that can be read, and where what comes after it begins.
#[tactic(auto, using(crate::proofs::Walks::readable_ends))]
fn first_readable<T: NetlinkDeserializable>(
    alloc: Global,
    bytes: &[u8],
) -> Result<(Option<NetlinkMessage<T>>, usize), NoMemory>
    ensures message { IfOk result (λ p. p.0 ≡ readable T.reads bytes.now) }
    ensures place { IfOk result (λ p. (p.1 ≤ length bytes.now) × (drop p.1 bytes.now ≡ left T.reads bytes.now)) }
{
    let mut at = 0;
    'walk: loop {
        let (_, rest) = bytes.split_at(at);
        match header_in_front(rest) {
            None => return Ok((None, bytes.len())),
            Some(header) => {
                let found = read_frame(alloc, rest)?;
                at += header.length as usize;
                match found {
                    Some(message) => return Ok((Some(message), at)),
                    None => {}
                }
            }
        }
    }
}

// Appends a message's bytes, of which there are `len`, to a buffer that has room for them.
fn append_text<T: NetlinkSerializable>(msg: &NetlinkMessage<T>, len: usize, buf: &mut BytesMut)
    requires fits { message_fits T.text T.fitting msg.now ≡ true }
    requires len { len ≡ length (message_text T.text msg.now) }
    requires room { len ≤ buf.old.spare }
    ensures written { buf.new.items ≡ buf.old.items ++ message_text T.text msg.now }
    ensures spare { buf.new.spare + len ≡ buf.old.spare }
{
    let at = buf.len();
    buf.advance_mut(len);
    msg.serialize(&mut buf.as_mut_slice()[at..]);
}

impl NetlinkMessageCodec for NetlinkCodec {
    fn decode_next<T: NetlinkDeserializable>(
        alloc: Global,
        src: &mut BytesMut,
    ) -> Result<Decoded<T>, NoMemory> {
        let Some(header) = header_in_front(src.as_slice()) else {
            let bytes = src.len();
            if bytes == 0 {
                return Ok(Decoded::Empty);
            }
            src.clear();
            return Ok(Decoded::Rest { bytes });
        };
        let message = read_frame(alloc, src.as_slice())?;
        src.advance(header.length as usize);
        match message {
            Some(message) => Ok(Decoded::Message(message)),
            None => Ok(Decoded::Unreadable {
                message_type: header.message_type,
                sequence_number: header.sequence_number,
            }),
        }
    }

    fn decode<T: NetlinkDeserializable>(
        alloc: Global,
        src: &mut BytesMut,
    ) -> Result<Option<NetlinkMessage<T>>, NoMemory> {
        let (message, at) = first_readable(alloc, src.as_slice())?;
        src.advance(at);
        Ok(message)
    }

    fn encode<T: NetlinkSerializable + Drop>(
        msg: NetlinkMessage<T>,
        buf: &mut BytesMut,
    ) -> Result<(), CodecError> {
        if !msg.fits() {
            return Err(CodecError::Unfit);
        }
        let len = msg.buffer_len();
        buf.reserve(len)?;
        append_text(&msg, len, buf);
        Ok(())
    }
}

#[cfg(test)]
mod tests;
