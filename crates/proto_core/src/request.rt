//! Requests: which are taken, what they await, and how their messages are numbered.
ghost use Rattle.std.specs.Prelude.{◌≡◌, ◌+◌, ◌<◌, ◌^◌, [], ◌∷◌, ◌++◌, if◌then◌else◌, OnOk, OnErr, IfErr, IfSome, IfNone, true, false, length, take, slice_index_or};
ghost use Rattle.std.specs.List.{list_all};
ghost use Rattle.nl_core.specs.Frames.{message_fits};
ghost use Rattle.session_model.specs.Awaited.{numbered};
ghost use Rattle.session_model.specs.Flags.{wants_reply};
ghost use Rattle.proto_core.specs.Noted.{noted_of, is_expected};
ghost use Rattle.proto_core.specs.Numbers.{AreBelow};
ghost use Rattle.proto_core.specs.Refused.{IsCause};
ghost use Rattle.proto_core.specs.declared.request.RequestRefusal.TheVariants.{NoMemory as OutOfMemory};

use crate::pending::PendingTable;
use nl_core::{
    Items, NLM_F_ACK, NLM_F_ECHO, NLM_F_REQUEST, NetlinkHeader, NetlinkMessage,
    NetlinkSerializable, NoMemory,
};
use session_model::{Awaited, SocketAddr};
use std::alloc::AllocError;
use thiserror::Error;

/// Which messages of a request await a reply.
#[derive(Debug, PartialEq, Eq, Drop)]
pub enum ExpectResponse {
    /// Those with one of the flags `NLM_F_REQUEST`, `NLM_F_ACK` and `NLM_F_ECHO`.
    FromFlags,
    /// Those marked with `true` in their place. A message past the marks awaits none.
    Explicit(Items<bool>),
}

/// Whether a message of a request awaits a reply, where its flags don't say it.
#[derive(Clone, Copy, Debug, PartialEq, Eq)]
pub enum ReplyExpectation {
    Expected,
    NotExpected,
}

/// Messages that leave together, under a tag that their replies bring back.
#[derive(Debug, PartialEq, Eq, Drop)]
pub struct Request<T, M> {
    pub metadata: M,
    pub messages: Items<NetlinkMessage<T>>,
    pub destination: SocketAddr,
    pub expect_response: ExpectResponse,
}

/// Why a request isn't taken.
#[derive(Clone, Copy, Debug, PartialEq, Eq, Error)]
pub enum RequestRefusal {
    /// The numbers would pass 4,294,967,295: so many are used, and so many are asked for.
    #[error("sequence numbers are used up: {used} used, {asked} asked")]
    SequenceExhausted { used: u32, asked: u64 },
    /// The first message that has no frame, by its place.
    #[error("message {index} does not fit")]
    Unfit { index: usize },
    #[error("out of memory")]
    NoMemory,
}

impl From<NoMemory> for RequestRefusal {
    ghost from_gives = { λ _ e. e ≡ OutOfMemory };

    fn from(_: NoMemory) -> Self {
        RequestRefusal::NoMemory
    }
}

impl From<AllocError> for RequestRefusal {
    ghost from_gives = { λ _ e. e ≡ OutOfMemory };

    fn from(_: AllocError) -> Self {
        RequestRefusal::NoMemory
    }
}

// The first message that doesn't fit.
fn find_unfit<T: NetlinkSerializable>(messages: &[NetlinkMessage<T>]) -> Option<usize>
    ensures earlier { IfSome result (λ i. list_all (message_fits T.text T.fitting) (take i messages.now) ≡ true) }
    ensures within { IfSome result (λ i. i < length messages.now) }
    ensures unfit { IfSome result
        (λ i. (d : _) → message_fits T.text T.fitting (slice_index_or messages.now i d) ≡ false) }
    ensures none { IfNone result (list_all (message_fits T.text T.fitting) messages.now ≡ true) }
{
    for (i, message) in messages.iter().enumerate() {
        if !message.fits() {
            return Some(i);
        }
    }
    None
}

/// Whether messages may take the numbers that follow `used`: each fits, and no number passes
/// 4,294,967,295.
pub fn check_batch<T: NetlinkSerializable>(
    messages: &[NetlinkMessage<T>],
    used: u32,
) -> Result<(), RequestRefusal>
    ensures in_range { OnOk result (used + length messages.now < 2 ^ 32) }
    ensures fit { OnOk result (list_all (message_fits T.text T.fitting) messages.now ≡ true) }
    ensures refused { IfErr result (IsCause T.text T.fitting used messages.now) }
{
    let asked = messages.len();
    if asked > (u32::MAX - used) as usize {
        let asked = asked as u64;
        return Err(RequestRefusal::SequenceExhausted { used, asked });
    }
    match find_unfit(messages) {
        Some(index) => Err(RequestRefusal::Unfit { index }),
        None => Ok(()),
    }
}

// Gives messages the numbers that follow one.
fn number_all<T: NetlinkSerializable>(messages: &mut [NetlinkMessage<T>], last: u32)
    requires fit { list_all (message_fits T.text T.fitting) messages.old ≡ true }
    requires in_range { last + length messages.old < 2 ^ 32 }
    ensures { messages.new ≡ numbered T.kind T.text last messages.old }
{
    let mut number = last;
    for message in messages.iter_mut() {
        number += 1;
        message.finalize();
        message.header.sequence_number = number;
    }
}

// The messages under the numbers that follow one.
pub(crate) fn under_numbers<T: NetlinkSerializable>(
    messages: Items<NetlinkMessage<T>>,
    last: u32,
) -> Items<NetlinkMessage<T>>
    requires fit { list_all (message_fits T.text T.fitting) messages ≡ true }
    requires in_range { last + length messages < 2 ^ 32 }
    ensures { result ≡ numbered T.kind T.text last messages }
{
    let mut messages = messages.into_vec();
    number_all(messages.as_mut_slice(), last);
    Items::from_vec(messages)
}

/// Whether a message's flags ask for a reply: one of `NLM_F_REQUEST`, `NLM_F_ACK` and `NLM_F_ECHO` of
/// include/uapi/linux/netlink.h is set.
pub fn wants_reply(header: &NetlinkHeader) -> bool
    ensures { result ≡ wants_reply header.now }
{
    header.flags & NLM_F_REQUEST != 0
        || header.flags & NLM_F_ACK != 0
        || header.flags & NLM_F_ECHO != 0
}

impl ExpectResponse {
    // Whether the message at a place is awaited.
    fn awaits(&self, i: usize, header: &NetlinkHeader) -> bool
        ensures { result ≡ is_expected self.now i header.now }
    {
        match self {
            ExpectResponse::FromFlags => wants_reply(header),
            ExpectResponse::Explicit(marks) => i < marks.len() && marks.as_slice()[i],
        }
    }
}

// Notes one message, if it is awaited.
fn note_one<M: Copy>(
    awaited: &mut PendingTable<M>,
    expected: bool,
    entry: Awaited<M>,
) -> Result<(), NoMemory>
    requires below { AreBelow entry.number awaited.old }
    ensures ok { OnOk result (awaited.new ≡ awaited.old ++ (if expected then entry ∷ [] else [])) }
    ensures below { OnOk result (AreBelow (entry.number + 1) awaited.new) }
    ensures err { OnErr result (awaited.new ≡ awaited.old) }
{
    if expected {
        awaited.note(entry)
    } else {
        Ok(())
    }
}

// Notes the messages that await a reply, or none where memory runs out.
pub(crate) fn note_all<T, M: Copy>(
    awaited: &mut PendingTable<M>,
    request: &Request<T, M>,
    last: u32,
) -> Result<(), NoMemory>
    requires in_range { last + length request.now.messages < 2 ^ 32 }
    requires below { AreBelow (last + 1) awaited.old }
    ensures ok { OnOk result (awaited.new ≡ awaited.old ++ noted_of request.now last) }
    ensures below { OnOk result (AreBelow (last + length request.now.messages + 1) awaited.new) }
    ensures err { OnErr result (awaited.new ≡ awaited.old) }
{
    let before = awaited.len();
    let messages = request.messages.as_slice();
    for (i, message) in messages.iter().enumerate() {
        let entry = Awaited {
            number: last + i as u32 + 1,
            port: request.destination.port,
            stream: request.metadata,
            acks: message.header.flags & NLM_F_ACK != 0,
        };
        let expected = request.expect_response.awaits(i, &message.header);
        if note_one(awaited, expected, entry).is_err() {
            awaited.truncate(before);
            return Err(NoMemory);
        }
    }
    Ok(())
}
