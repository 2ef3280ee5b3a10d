//! The lines of what a connection hands out.
ghost use Rattle.std.specs.Prelude.{◌≡◌, ◌++◌, [], flat_map, OnOk};
ghost use Rattle.session_laws.specs.After.{incoming_lines};
ghost use Rattle.mirror.specs.Format.{format};
ghost use Rattle.mirror.specs.Polled.{handed_line, posted_line};

use crate::message::{Message, RouteConnection};
use nl_core::NoMemory;
use proto_conn::{Polled, Unsolicited};
use proto_core::Response;
use session_model::{Settings, SocketAddr};
use transcript_lines::{Word, put_incoming, put_line, put_reply};

// Adds the line of a datagram that was sent.
fn put_datagram(text: &mut Vec<u8>, bytes: &[u8], to: SocketAddr) -> Result<(), NoMemory>
    ensures { OnOk result (text.new.items ≡ text.old.items ++ posted_line (record { bytes = bytes.now; to = to })) }
{
    put_line(
        text,
        b"sent".as_slice(),
        &[
            Word::Number(u64::from(to.port)),
            Word::Number(u64::from(to.groups)),
            Word::Hex(bytes),
        ],
    )
}

/// Adds the lines of the datagrams that were sent, and takes them.
pub fn put_sent(connection: &mut RouteConnection, text: &mut Vec<u8>) -> Result<(), NoMemory>
    ensures text { OnOk result
        (text.new.items ≡ text.old.items ++ flat_map posted_line connection.old.link.posted) }
    ensures taken { OnOk result
        (connection.new ≡ record connection.old { link = record connection.old.link { posted = [] } }) }
{
    while let Some((bytes, to)) = connection.socket_mut().take_sent() {
        put_datagram(text, bytes.as_slice(), to)?;
    }
    Ok(())
}

/// Adds the lines of the messages that nothing awaited, and takes them.
pub fn put_unsolicited(
    unsolicited: &mut Unsolicited,
    connection: &mut RouteConnection,
    text: &mut Vec<u8>,
) -> Result<(), NoMemory>
    ensures text { OnOk result
        (text.new.items ≡ text.old.items ++ incoming_lines format connection.old.unsolicited) }
    ensures taken { OnOk result (connection.new ≡ record connection.old { unsolicited = [] }) }
{
    while let Polled::Ready(incoming) = unsolicited.poll_next(connection) {
        put_incoming(text, &incoming)?;
    }
    Ok(())
}

/// Adds the lines of the replies, and takes them.
pub fn put_replies(
    settings: &Settings,
    connection: &mut RouteConnection,
    text: &mut Vec<u8>,
) -> Result<(), NoMemory>
    ensures text { OnOk result
        (text.new.items ≡ text.old.items ++ flat_map (handed_line settings.now) connection.old.replies) }
    ensures taken { OnOk result (connection.new ≡ record connection.old { replies = [] }) }
{
    while let Some(reply) = connection.next_reply() {
        let response: Response<Message, u64> = Response {
            done: false,
            message: reply.message,
            metadata: reply.stream,
            arrival: reply.arrival,
        };
        put_reply(settings, text, &response)?;
    }
    Ok(())
}
