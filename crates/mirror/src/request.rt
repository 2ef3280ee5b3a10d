//! The request of a batch.
ghost use Rattle.std.specs.Prelude.{◌≡◌, IfOk};
ghost use Rattle.session_model.specs.Events.{is_awaited_by};
ghost use Rattle.proto_conn.specs.Handles.{is_expected, marks_of, messages_of};
ghost use Rattle.session_laws.specs.Requests.{marked, marks_in, messages_in};
ghost use Rattle.mirror.specs.Format.{format};
ghost use Rattle.mirror.specs.Refusals.{IsRequestRefusal, fault_of};

use crate::message::Message;
use crate::step_fault::StepFault;
use nl_core::{NetlinkHeader, NetlinkMessage, NoMemory};
use proto_core::{NetlinkProtoError, ReplyExpectation, read_frame, wants_reply};
use session_model::{BatchFrame, Mark};
use std::alloc::Global;

// Whether a frame awaits a reply.
fn expectation_of(mark: Mark, header: &NetlinkHeader) -> ReplyExpectation
    ensures { is_expected result ≡ is_awaited_by mark header.now }
{
    match mark {
        Mark::ByFlags if wants_reply(header) => ReplyExpectation::Expected,
        Mark::ByFlags => ReplyExpectation::NotExpected,
        Mark::Expected => ReplyExpectation::Expected,
        Mark::NotExpected => ReplyExpectation::NotExpected,
    }
}

/// The messages of frames, each with whether it awaits a reply.
pub fn read_frames(
    alloc: Global,
    frames: &[BatchFrame],
) -> Result<Vec<(NetlinkMessage<Message>, ReplyExpectation)>, NoMemory>
    ensures messages { IfOk result (λ v. messages_of v.items ≡ messages_in format frames.now) }
    ensures marks { IfOk result (λ v. marks_of v.items ≡ marks_in format frames.now) }
{
    let mut messages = Vec::new(alloc);
    for frame in frames {
        if let Some(message) = read_frame(alloc, frame.bytes.as_slice())? {
            let expectation = expectation_of(frame.mark, &message.header);
            messages.push((message, expectation))?;
        }
    }
    Ok(messages)
}

/// How many replies are awaited.
pub fn count_awaited(messages: &[(NetlinkMessage<Message>, ReplyExpectation)]) -> u64
    ensures { result ≡ marked (marks_of messages.now) }
{
    let mut count = 0;
    for (_, expectation) in messages {
        if *expectation == ReplyExpectation::Expected {
            count += 1;
        }
    }
    count
}

/// Why a record isn't taken whose request is refused.
pub fn refused(error: NetlinkProtoError) -> StepFault
    requires { IsRequestRefusal error }
    ensures { result ≡ fault_of error }
{
    match error {
        NetlinkProtoError::ConnectionClosed => StepFault::Closed,
        NetlinkProtoError::SequenceExhausted { .. } => StepFault::SequenceExhausted,
        NetlinkProtoError::Unfit { .. } => StepFault::Unfit,
        NetlinkProtoError::NoMemory => StepFault::NoMemory,
        NetlinkProtoError::NetlinkError(_) | NetlinkProtoError::SocketIo(_) => unreachable!(),
    }
}
