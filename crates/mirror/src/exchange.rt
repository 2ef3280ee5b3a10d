//! What a record does to a connection and its ledger.
ghost use Rattle.std.specs.Prelude.{◌≡◌, ◌+◌, ◌<◌, ◌^◌, false, length, IfErr, OnOk};
ghost use Rattle.session_model.specs.Events.{resync_frames};
ghost use Rattle.proto_conn.specs.Seen.{brings};
ghost use Rattle.proto_conn.specs.Tapes.{IsSmall};
ghost use Rattle.mirror.specs.Format.{format};
ghost use Rattle.mirror_model.specs.TableEvents.{DumpAsked};
ghost use Rattle.route_mirror.specs.Mirrors.{stepped};
ghost use Rattle.mirror.specs.Polled.{AtRest, MirrorFollows, OpensBatch, Receives, SendsBatch};
ghost use Rattle.mirror.specs.Refusals.{RefusesBatch};

use crate::message::{Message, RouteConnection};
use crate::observers::Observers;
use crate::request::{count_awaited, read_frames, refused};
use crate::step_fault::StepFault;
use nl_core::NoMemory;
use proto_conn::{Arrival, ConnectionHandle};
use session_model::{BatchFrame, SocketAddr};
use std::alloc::Global;

/// Reads an arrival.
pub fn arrive(
    connection: &mut RouteConnection,
    observers: &mut Observers,
    arrival: Arrival,
) -> Result<(), NoMemory>
    requires small { IsSmall arrival }
    requires rest { AtRest connection.old }
    requires unshut { connection.old.closed ≡ false }
    requires space { connection.old.session.arrived < 2 ^ 63 }
    ensures reads { OnOk result (Receives (brings format.reads arrival)
        connection.old observers.old.ledger connection.new observers.new.ledger) }
    ensures shown { OnOk result (MirrorFollows (brings format.reads arrival)
        connection.old.session observers.old.mirror observers.new.mirror) }
{
    connection.socket_mut().push(arrival)?;
    connection.poll_with(observers)?;
    Ok(())
}

/// Sends a batch.
pub fn send_batch(
    alloc: Global,
    handle: &ConnectionHandle<Message>,
    connection: &mut RouteConnection,
    observers: &mut Observers,
    to: SocketAddr,
    frames: &[BatchFrame],
) -> Result<(), StepFault>
    requires rest { AtRest connection.old }
    requires unshut { connection.old.closed ≡ false }
    requires space { connection.old.session.arrived < 2 ^ 63 }
    ensures sends { OnOk result (SendsBatch to frames.now connection.old connection.new) }
    ensures opens { OnOk result (OpensBatch (length connection.old.given_up + 1) frames.now
        observers.old.ledger observers.new.ledger) }
    ensures same { OnOk result (observers.new.mirror ≡ observers.old.mirror) }
    ensures cause { IfErr result (RefusesBatch connection.old frames.now) }
{
    let messages = read_frames(alloc, frames)?;
    let awaited = count_awaited(messages.as_slice());
    match handle.request_batch_with_expectation(alloc, connection, messages, to) {
        Ok(stream) => observers.ledger.open(stream.id(), awaited)?,
        Err(error) => return Err(refused(error)),
    }
    connection.poll_with(observers)?;
    Ok(())
}

/// Sends the request for a dump of the peer's routes, which the mirror follows.
pub fn send_resync(
    handle: &ConnectionHandle<Message>,
    connection: &mut RouteConnection,
    observers: &mut Observers,
) -> Result<(), StepFault>
    requires rest { AtRest connection.old }
    requires unshut { connection.old.closed ≡ false }
    requires space { connection.old.session.arrived < 2 ^ 63 }
    ensures sends { OnOk result (SendsBatch (record { port = observers.old.mirror.peer; groups = 0 }) resync_frames
        connection.old connection.new) }
    ensures opens { OnOk result (OpensBatch (length connection.old.given_up + 1) resync_frames
        observers.old.ledger observers.new.ledger) }
    ensures asked { OnOk result (observers.new.mirror
        ≡ stepped (DumpAsked (length connection.old.given_up + 1)) observers.old.mirror) }
    ensures cause { IfErr result (RefusesBatch connection.old resync_frames) }
{
    match observers.mirror.resync(connection, handle) {
        Ok(stream) => observers.ledger.open(stream.id(), 1)?,
        Err(error) => return Err(refused(error)),
    }
    connection.poll_with(observers)?;
    Ok(())
}
