//! What a connection reads.
ghost use Rattle.std.specs.Prelude.{◌≡◌, ◌+◌, ◌*◌, ◌-◌, ◌^◌, ◌<◌, ◌≤◌, IfOk, OnErr, OnOk, is_ok, length, true};
ghost use Rattle.std.specs.VecDeque.{deque_capacity, deque_len};
ghost use Rattle.session_model.specs.Events.{Overran, overrun_arrival};
ghost use Rattle.proto_core.specs.Session.{arrival_of, arrived_at, handled};
ghost use Rattle.proto_conn.specs.Reading.{DidStep, Drained, Follows, Reads, Stopped, loads_of, room_of};
ghost use Rattle.proto_conn.specs.Tallies.{IsTallied};
ghost use Rattle.proto_conn.specs.Watches.{loses_nothing, overruns_nothing, sees_nothing};

use super::Connection;
use crate::framed::{Step, overrun_message};
use crate::link::Link;
use crate::parts::{Held, Reply, is_overrun};
use crate::tally::Tallies;
use crate::watch::Watch;
use nl_core::{NetlinkDeserializable, NetlinkMessage, NetlinkSerializable, NoMemory};
use proto_core::{Incoming, NetlinkMessageCodec, Protocol};
use session_model::SocketAddr;
use std::alloc::Global;
use std::collections::VecDeque;
use stream_list::StreamList;

// Makes room for so many messages more in a session, and in the lists for what waits there and as many more.
pub fn make_room<T>(
    protocol: &mut Protocol<T, u64>,
    replies: &mut StreamList<Reply<T>>,
    unsolicited: &mut VecDeque<Incoming<T>>,
    more: usize,
) -> Result<(), NoMemory>
    requires replies { length protocol.old.session.responses + length replies.old.items ≤ replies.old.room.items }
    requires unsolicited { length protocol.old.session.incoming + deque_len unsolicited.old
        ≤ deque_capacity unsolicited.old }
    ensures spare { OnOk result (more ≤ protocol.new.spare) }
    ensures session { protocol.new.session ≡ protocol.old.session }
    ensures same_replies { replies.new.items ≡ replies.old.items }
    ensures same_unsolicited { unsolicited.new.items ≡ unsolicited.old.items }
    ensures streams { replies.new.room.streams ≡ replies.old.room.streams }
    ensures replies { length protocol.new.session.responses + length replies.new.items ≤ replies.new.room.items }
    ensures unsolicited { length protocol.new.session.incoming + deque_len unsolicited.new
        ≤ deque_capacity unsolicited.new }
    ensures more_replies { OnOk result (
        length protocol.new.session.responses + more + length replies.new.items ≤ replies.new.room.items) }
    ensures more_unsolicited { OnOk result (
        length protocol.new.session.incoming + more + deque_len unsolicited.new ≤ deque_capacity unsolicited.new) }
{
    protocol.reserve(more)?;
    let Some(responses) = protocol.responses_len().checked_add(more) else {
        return Err(NoMemory);
    };
    replies.reserve(responses)?;
    let Some(incoming) = protocol.incoming_len().checked_add(more) else {
        return Err(NoMemory);
    };
    unsolicited.reserve(incoming)?;
    Ok(())
}

// Shows a message to the watch, with what the session does with it, and takes it into the session.
pub fn take_in<T, W: Watch<T>>(
    protocol: &mut Protocol<T, u64>,
    tallies: &mut Tallies,
    message: NetlinkMessage<T>,
    source: SocketAddr,
    watch: &mut W,
) -> Result<(), NoMemory>
    requires room { 1 ≤ protocol.old.spare }
    requires count { protocol.old.session.arrived + 1 < 2 ^ 64 }
    requires tallied { IsTallied protocol.old.session.awaited protocol.old.session.responses
        protocol.old.session.arrived tallies.old }
    ensures session { protocol.new.session ≡ arrived_at (arrival_of message source) protocol.old.session }
    ensures watch { W.sees watch.old message source
        (handled (arrival_of message source) protocol.old.session) (is_ok result) watch.new }
    ensures responses { length protocol.new.session.responses ≤ length protocol.old.session.responses + 1 }
    ensures incoming { length protocol.new.session.incoming ≤ length protocol.old.session.incoming + 1 }
    ensures last { protocol.new.session.last ≡ protocol.old.session.last }
    ensures outgoing { protocol.new.session.outgoing ≡ protocol.old.session.outgoing }
    ensures arrived { protocol.new.session.arrived ≡ protocol.old.session.arrived + 1 }
    ensures spare { protocol.old.spare ≤ protocol.new.spare + 1 }
    ensures given { length tallies.new.streams ≡ length tallies.old.streams }
    ensures tallied { IsTallied protocol.new.session.awaited protocol.new.session.responses
        protocol.new.session.arrived tallies.new }
{
    let handled = protocol.would_handle(&message, source);
    let seen = watch.saw(&message, source, &handled);
    protocol.handle_message(message, source);
    tallies.note_handled(&handled);
    seen
}

// Shows an overrun to the watch, and takes the message that it is into the session.
fn take_overrun<T, W: Watch<T>>(
    alloc: Global,
    protocol: &mut Protocol<T, u64>,
    tallies: &mut Tallies,
    watch: &mut W,
) -> Result<(), NoMemory>
    requires room { 1 ≤ protocol.old.spare }
    requires count { protocol.old.session.arrived + 1 < 2 ^ 64 }
    requires tallied { IsTallied protocol.old.session.awaited protocol.old.session.responses
        protocol.old.session.arrived tallies.old }
    ensures session { protocol.new.session ≡ arrived_at overrun_arrival protocol.old.session }
    ensures watch { Follows W.sees W.loses W.overruns Overran protocol.old.session watch.old (is_ok result) watch.new }
    ensures responses { length protocol.new.session.responses ≤ length protocol.old.session.responses + 1 }
    ensures incoming { length protocol.new.session.incoming ≤ length protocol.old.session.incoming + 1 }
    ensures last { protocol.new.session.last ≡ protocol.old.session.last }
    ensures outgoing { protocol.new.session.outgoing ≡ protocol.old.session.outgoing }
    ensures given { length tallies.new.streams ≡ length tallies.old.streams }
    ensures tallied { IsTallied protocol.new.session.awaited protocol.new.session.responses
        protocol.new.session.arrived tallies.new }
{
    let source = SocketAddr { port: 0, groups: 0 };
    watch.overrun();
    take_in(protocol, tallies, overrun_message(alloc), source, watch)
}

impl<T: NetlinkSerializable + NetlinkDeserializable, S: Link, C: NetlinkMessageCodec> Connection<
    T,
    S,
    C,
> {
    // What waits is no more than a datagram.
    fn hold_bound(&self)
        ensures { loads_of self.now.waiting ≤ 65536 }
    {
        self.framed.hold_bound();
        let _held = self.held;
    }

    // One step of reading, and whether to go on.
    fn read_step<W: Watch<T>>(&mut self, watch: &mut W) -> Result<bool, NoMemory>
        requires { 16 * self.old.session.arrived + room_of S.meaning self.old ≤ 16 * (2 ^ 64 - 1) }
        ensures ok { IfOk result (λ more. DidStep W.sees W.loses W.overruns T.reads S.meaning
            self.old watch.old more self.new watch.new) }
        ensures err { OnErr result (Stopped W.sees W.loses W.overruns T.reads S.meaning
            self.old watch.old self.new watch.new) }
    {
        make_room(
            &mut self.protocol,
            &mut self.replies,
            &mut self.unsolicited,
            1,
        )?;
        if is_overrun(self.held) {
            self.held = Held::Nothing;
            take_overrun(self.alloc, &mut self.protocol, &mut self.tallies, watch)?;
            return Ok(true);
        }
        let step = self.framed.step()?;
        self.held = Held::Nothing;
        match step {
            Step::Message(message, source) => {
                take_in(
                    &mut self.protocol,
                    &mut self.tallies,
                    message,
                    source,
                    watch,
                )?;
                Ok(true)
            }
            Step::Lost(what, source) => {
                watch.dropped(&what, source);
                Ok(true)
            }
            Step::Overrun => {
                take_overrun(self.alloc, &mut self.protocol, &mut self.tallies, watch)?;
                Ok(true)
            }
            Step::Fetched => Ok(true),
            Step::Closed => {
                self.closed = true;
                Ok(false)
            }
            Step::Failed => {
                self.closed = true;
                Ok(false)
            }
            Step::NotYet => Ok(false),
        }
    }

    // Reads until the link has nothing more for now, or closes.
    pub fn read_with<W: Watch<T>>(&mut self, watch: &mut W) -> Result<(), NoMemory>
        requires { self.old.session.arrived + 4096 * ((S.meaning self.old.link).backlog + 1) ≤ 2 ^ 64 - 1 }
        ensures ok { OnOk result (Reads W.sees W.loses W.overruns T.reads S.meaning
            self.old watch.old self.new watch.new × Drained S.meaning self.old self.new) }
        ensures err { OnErr result (Stopped W.sees W.loses W.overruns T.reads S.meaning
            self.old watch.old self.new watch.new) }
        ensures shut { self.old.closed ≡ true → (self.new ≡ self.old) × (watch.new ≡ watch.old) }
    {
        self.hold_bound();
        if self.closed {
            return Ok(());
        }
        'reading: loop {
            if !self.read_step(watch)? {
                return Ok(());
            }
        }
    }

    /// Handles messages until the link isn't ready, closes or fails; after the last two it counts as closed.
    pub fn poll_read_messages(&mut self) -> Result<(), NoMemory>
        requires { self.old.session.arrived + 4096 * ((S.meaning self.old.link).backlog + 1) ≤ 2 ^ 64 - 1 }
        ensures ok { OnOk result (Reads sees_nothing loses_nothing overruns_nothing T.reads S.meaning
            self.old tt self.new tt × Drained S.meaning self.old self.new) }
        ensures err { OnErr result (Stopped sees_nothing loses_nothing overruns_nothing T.reads S.meaning
            self.old tt self.new tt) }
        ensures shut { self.old.closed ≡ true → self.new ≡ self.old }
    {
        self.read_with(&mut ())
    }
}
