//! The lines of a session's text.
ghost use Rattle.std.specs.Prelude.{◌≡◌, ◌∷◌, ◌++◌, ◌≤◌, [], true, OnOk, Some, length, map};
ghost use Rattle.std.specs.List.{list_all};
ghost use Rattle.nl_core.specs.Frames.{message_fits, message_text, payload_text};
ghost use Rattle.session_model.specs.Inner.{format_of};
ghost use Rattle.session_model.specs.Lines.{hex_word, line};
ghost use Rattle.session_model.specs.SessionText.{closed_line, is_kept_back, joined, payload_word};
ghost use Rattle.transcript_lines.specs.Handed.{incoming_text, outgoing_text, response_text};
ghost use Rattle.transcript_lines.specs.Spelling.{Measures, spelled};

use crate::spelling::{Word, make_room, put_line, put_words, spell_from};
use nl_core::{
    NetlinkDeserializable, NetlinkMessage, NetlinkPayload, NetlinkSerializable, NoMemory,
};
use proto_core::{Incoming, Outgoing, Response};
use session_model::Settings;

// How many bytes a payload has, where it fits.
fn payload_len<T: NetlinkSerializable>(payload: &NetlinkPayload<T>) -> Option<usize>
    ensures { Measures T.text T.fitting payload.now result }
{
    if payload.fits() {
        Some(payload.buffer_len())
    } else {
        None
    }
}

// How many bytes the word of a payload of so many bytes has at most, and the space before it.
fn payload_room(len: Option<usize>) -> usize {
    match len {
        Some(len) => len.saturating_mul(2).saturating_add(2),
        None => 6,
    }
}

// Adds the bytes of a payload that has so many.
fn put_bytes<T: NetlinkSerializable>(
    text: &mut Vec<u8>,
    payload: &NetlinkPayload<T>,
    len: usize,
) -> Result<(), NoMemory>
    requires { Measures T.text T.fitting payload.now (Some len) }
    ensures { OnOk result (text.new.items ≡ text.old.items ++ payload_text T.text payload.now) }
{
    let at = text.len();
    text.resize(at.saturating_add(len), 0)?;
    payload.emit(&mut text.as_mut_slice()[at..]);
    Ok(())
}

// Adds the word of a payload of so many bytes.
fn put_payload<T: NetlinkSerializable + NetlinkDeserializable>(
    text: &mut Vec<u8>,
    payload: &NetlinkPayload<T>,
    len: Option<usize>,
) -> Result<(), NoMemory>
    requires { Measures T.text T.fitting payload.now len }
    ensures { OnOk result (text.new.items ≡
        text.old.items ++ payload_word (format_of T.reads T.kind T.text T.fitting) payload.now) }
{
    let Some(len) = len else {
        text.extend_from_slice(b"unfit")?;
        return Ok(());
    };
    let at = text.len();
    put_bytes(text, payload, len)?;
    spell_from(text, at)
}

// Adds a line of words and of a payload, whose bytes are written where their digits come.
fn put_message<T: NetlinkSerializable + NetlinkDeserializable>(
    text: &mut Vec<u8>,
    first: &[u8],
    more: &[Word<'_>],
    payload: &NetlinkPayload<T>,
) -> Result<(), NoMemory>
    ensures { OnOk result (text.new.items ≡ text.old.items ++ line (first.now ∷
        (map spelled more.now ++ payload_word (format_of T.reads T.kind T.text T.fitting) payload.now ∷ []))) }
{
    let len = payload_len(payload);
    make_room(text, first, more, payload_room(len))?;
    put_words(text, first, more)?;
    text.push(b' ')?;
    put_payload(text, payload, len)?;
    text.push(b'\n')?;
    Ok(())
}

/// Adds the line of a message that nothing awaited.
pub fn put_incoming<T: NetlinkSerializable + NetlinkDeserializable>(
    text: &mut Vec<u8>,
    incoming: &Incoming<T>,
) -> Result<(), NoMemory>
    ensures { OnOk result (text.new.items ≡
        text.old.items ++ incoming_text (format_of T.reads T.kind T.text T.fitting) incoming.now) }
{
    let header = &incoming.message.header;
    put_message(
        text,
        b"unsol".as_slice(),
        &[
            Word::Number(incoming.arrival),
            Word::Number(u64::from(incoming.source.port)),
            Word::Number(u64::from(incoming.source.groups)),
            Word::Number(u64::from(header.message_type)),
            Word::Number(u64::from(header.flags)),
            Word::Number(u64::from(header.sequence_number)),
            Word::Number(u64::from(header.port_number)),
        ],
        &incoming.message.payload,
    )
}

// Whether a reply is kept back.
fn is_kept_back<T>(settings: &Settings, payload: &NetlinkPayload<T>) -> bool
    ensures { result ≡
        is_kept_back settings.now.forward_noop settings.now.forward_done settings.now.forward_ack payload.now }
{
    match payload {
        NetlinkPayload::Noop => !settings.forward_noop,
        NetlinkPayload::Done(_) => !settings.forward_done,
        NetlinkPayload::Error(error) => error.code.is_none() && !settings.forward_ack,
        NetlinkPayload::Overrun(_) | NetlinkPayload::InnerMessage(_) => false,
    }
}

/// Adds the line of a reply, unless it is kept back.
pub fn put_reply<T: NetlinkSerializable + NetlinkDeserializable>(
    settings: &Settings,
    text: &mut Vec<u8>,
    response: &Response<T, u64>,
) -> Result<(), NoMemory>
    ensures { OnOk result (text.new.items ≡
        text.old.items ++ response_text (format_of T.reads T.kind T.text T.fitting) settings.now response.now) }
{
    if is_kept_back(settings, &response.message.payload) {
        return Ok(());
    }
    let header = &response.message.header;
    put_message(
        text,
        b"reply".as_slice(),
        &[
            Word::Number(response.arrival),
            Word::Number(response.metadata),
            Word::Number(u64::from(header.message_type)),
            Word::Number(u64::from(header.flags)),
            Word::Number(u64::from(header.sequence_number)),
            Word::Number(u64::from(header.port_number)),
        ],
        &response.message.payload,
    )
}

/// Adds the line of a stream that closes.
pub fn put_closed(text: &mut Vec<u8>, stream: u64) -> Result<(), NoMemory>
    ensures { OnOk result (text.new.items ≡ text.old.items ++ closed_line stream) }
{
    put_line(text, b"closed".as_slice(), &[Word::Number(stream)])
}

// Adds the bytes of a message's frame, if it fits.
fn put_frame<T: NetlinkSerializable>(
    text: &mut Vec<u8>,
    message: &NetlinkMessage<T>,
) -> Result<(), NoMemory>
    ensures frame { OnOk result (message_fits T.text T.fitting message.now ≡ true →
        text.new.items ≡ text.old.items ++ message_text T.text message.now) }
    ensures longer { OnOk result (length text.old.items ≤ length text.new.items) }
{
    if message.fits() {
        let at = text.len();
        text.resize(at.saturating_add(message.buffer_len()), 0)?;
        message.serialize(&mut text.as_mut_slice()[at..]);
    }
    Ok(())
}

// Adds the bytes of messages' frames, joined, each with its header as held.
fn put_frames<T: NetlinkSerializable>(
    text: &mut Vec<u8>,
    messages: &[NetlinkMessage<T>],
) -> Result<(), NoMemory>
    ensures frames { OnOk result (list_all (message_fits T.text T.fitting) messages.now ≡ true →
        text.new.items ≡ text.old.items ++ joined (map (message_text T.text) messages.now)) }
    ensures longer { OnOk result (length text.old.items ≤ length text.new.items) }
{
    for message in messages {
        put_frame(text, message)?;
    }
    Ok(())
}

// Adds the word of messages' frames, joined.
fn put_joined<T: NetlinkSerializable>(
    text: &mut Vec<u8>,
    messages: &[NetlinkMessage<T>],
) -> Result<(), NoMemory>
    ensures { OnOk result (list_all (message_fits T.text T.fitting) messages.now ≡ true →
        text.new.items ≡ text.old.items ++ hex_word (joined (map (message_text T.text) messages.now))) }
{
    let at = text.len();
    put_frames(text, messages)?;
    spell_from(text, at)
}

// How many bytes the word of messages' frames has at most, and the space before it.
fn frames_room<T: NetlinkSerializable>(messages: &[NetlinkMessage<T>]) -> usize {
    let mut room: usize = 2;
    for message in messages {
        if message.fits() {
            room = room.saturating_add(message.buffer_len().saturating_mul(2));
        }
    }
    room
}

// Adds a line of words and of messages' frames, joined, whose bytes are written where their digits come.
fn put_datagram<T: NetlinkSerializable>(
    text: &mut Vec<u8>,
    first: &[u8],
    more: &[Word<'_>],
    messages: &[NetlinkMessage<T>],
) -> Result<(), NoMemory>
    ensures { OnOk result (list_all (message_fits T.text T.fitting) messages.now ≡ true →
        text.new.items ≡ text.old.items ++ line (first.now ∷
        (map spelled more.now ++ hex_word (joined (map (message_text T.text) messages.now)) ∷ []))) }
{
    make_room(text, first, more, frames_room(messages))?;
    put_words(text, first, more)?;
    text.push(b' ')?;
    put_joined(text, messages)?;
    text.push(b'\n')?;
    Ok(())
}

/// Adds the line of a datagram whose messages fit, if it has any.
pub fn put_outgoing<T: NetlinkSerializable>(
    text: &mut Vec<u8>,
    outgoing: &Outgoing<T>,
) -> Result<(), NoMemory>
    ensures { OnOk result (list_all (message_fits T.text T.fitting) outgoing.now.messages ≡ true →
        text.new.items ≡ text.old.items ++ outgoing_text T.text outgoing.now) }
{
    if outgoing.messages.is_empty() {
        return Ok(());
    }
    put_datagram(
        text,
        b"sent".as_slice(),
        &[
            Word::Number(u64::from(outgoing.destination.port)),
            Word::Number(u64::from(outgoing.destination.groups)),
        ],
        outgoing.messages.as_slice(),
    )
}
