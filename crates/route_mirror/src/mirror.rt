//! The mirror.
ghost use Rattle.std.specs.Prelude.{◌≡◌, ◌≢◌, ◌↔◌, ◌≤◌, ◌+◌, ◌-◌, ◌^◌, [], false, length, min, not, IfErr, IfOk, IfSome, OnOk, OnErr, Some};
ghost use Rattle.std.specs.FinMap.{empty};
ghost use Rattle.proto_conn.specs.Streaming.{stream_id};
ghost use Rattle.mirror_model.specs.declared.answer.Answer.TheVariants.{Stale};
ghost use Rattle.mirror_model.specs.Lookups.{lookup_in};
ghost use Rattle.route_table.specs.RouteTables.{most_steps};
ghost use Rattle.mirror_model.specs.MirrorState.{fresh, is_in_step};
ghost use Rattle.mirror_model.specs.Routes.{without_host_bits};
ghost use Rattle.mirror_model.specs.TableEvents.{DumpAsked, Notified, Lost, LinkClosed};
ghost use Rattle.route_table.specs.Changes.{change_value};
ghost use Rattle.route_table.specs.Networks.{HasFit, IsPlain, Adds, Drops, is_listed};
ghost use Rattle.route_mirror.specs.Requests.{IsDumpQueued, IsDumpRefused};
ghost use Rattle.route_mirror.specs.Mirrors.{stepped, handled_step, unread_step, leftover_step, reply_step, completed_step};

use crate::dump::{RunningDump, Update, begin_dump, end_dumps, take_whole, update_all};
use crate::reply::{Ending, ending_of, is_overrun, says_interrupted};
use crate::request::dump_request;
use nl_core::{NetlinkMessage, NetlinkPayload, NoMemory};
use proto_conn::{Connection, ConnectionHandle, ReplyStream};
use proto_core::{Handled, NetlinkCodec, NetlinkProtoError, Place};
use route_table::{Address, Answer, Blocked, Network, RouteChange, Routes, message_change};
use rt_dispatch::RouteNetlinkMessage;
use session_model::SocketAddr;
use std::alloc::Global;
use std::marker::Model;
use trie_map::Steps;

/// A mirror of a peer's routing table. Contracts see its peer's port, the number of the routing table, the state (closed or
/// not, the table in force, the dumps that run), and the networks that are blocked. Each call takes a step of the
/// definitions.
#[derive(Drop)]
pub struct Mirror {
    alloc: Global,
    peer: u32,
    table: u32,
    closed: bool,
    in_force: Option<Routes>,
    running: Vec<RunningDump>,
    blocked: Blocked,
}

impl Model for Mirror {
    ghost use Rattle.route_mirror.specs.Values.{MirrorValue, mirror_code, mirror_value};

    ghost Value = { MirrorValue };

    ghost coded = { mirror_code };

    ghost view = { λ m. mirror_value m.peer m.table m.closed m.in_force m.running.items m.blocked };
}

impl Mirror {
    /// A mirror of the routing table of this number, of the peer of this port. It is out of step until a dump has ended
    /// cleanly, and nothing is blocked.
    pub fn new(alloc: Global, peer: u32, table: u32) -> Result<Self, NoMemory>
        ensures { IfOk result (λ m. m ≡ record { peer = peer; table = table; state = fresh; blocked = [] }) }
    {
        Ok(Mirror {
            alloc,
            peer,
            table,
            closed: false,
            in_force: None,
            running: Vec::new(alloc),
            blocked: Blocked::new(alloc),
        })
    }

    /// Whether the mirror is in step with its peer: a dump has ended cleanly, nothing was lost since it was asked, and the
    /// link hasn't closed.
    pub fn in_step(&self) -> bool
        ensures { result ≡ is_in_step self.now.state }
    {
        !self.closed && self.in_force.is_some()
    }

    /// A dump was asked under a stream. It starts with no route, in place of one that runs under this stream. Out of memory
    /// changes nothing.
    pub fn asked(&mut self, stream: u64) -> Result<(), NoMemory>
        ensures asked { OnOk result (self.new ≡ stepped (DumpAsked stream) self.old) }
        ensures unchanged { OnErr result (self.new ≡ self.old) }
    {
        self.running.reserve(1)?;
        begin_dump(&mut self.running, self.alloc, stream);
        Ok(())
    }

    /// Asks the peer for a dump of its routes, through a handle of a connection, and follows it. Out of memory changes
    /// neither the connection nor the mirror, as each other refusal of the handle.
    pub fn resync<S>(
        &mut self,
        connection: &mut Connection<RouteNetlinkMessage, S, NetlinkCodec>,
        handle: &ConnectionHandle<RouteNetlinkMessage>,
    ) -> Result<ReplyStream, NetlinkProtoError>
        ensures stream { IfOk result (λ stream. stream_id stream ≡ length connection.old.given_up + 1) }
        ensures asked { OnOk result (self.new ≡ stepped (DumpAsked (length connection.old.given_up + 1)) self.old) }
        ensures queued { OnOk result (IsDumpQueued self.old.peer connection.old connection.new) }
        ensures unchanged { OnErr result (self.new ≡ self.old) }
        ensures unasked { OnErr result (connection.new ≡ connection.old) }
        ensures cause { IfErr result (IsDumpRefused connection.old) }
    {
        self.running.reserve(1)?;
        let peer = SocketAddr::new(self.peer, 0);
        let request = dump_request(self.alloc)?;
        let stream = handle.request_batch_with_expectation(self.alloc, connection, request, peer)?;
        begin_dump(&mut self.running, self.alloc, stream.id());
        Ok(stream)
    }

    /// Something of the peer's may be missing: the table in force and all dumps that run are dropped.
    pub fn lost(&mut self)
        ensures { self.new ≡ stepped Lost self.old }
    {
        self.in_force = None;
        self.running.clear();
    }

    /// The link has closed: the mirror is out of step for good.
    pub fn closed(&mut self)
        ensures { self.new ≡ stepped LinkClosed self.old }
    {
        self.closed = true;
    }

    /// A frame of this type was dropped, since it couldn't be read: a loss, where it came from the peer and is of a route
    /// (`RTM_NEWROUTE` or `RTM_DELROUTE`).
    pub fn unread(&mut self, message_type: u16, source: SocketAddr)
        ensures { self.new ≡ unread_step message_type source self.old }
    {
        if source.port == self.peer && (message_type == 24 || message_type == 25) {
            self.lost();
        }
    }

    /// Bytes after the last frame of a datagram were dropped: a loss, where it came from the peer.
    pub fn leftover(&mut self, source: SocketAddr)
        ensures { self.new ≡ leftover_step source self.old }
    {
        if source.port == self.peer {
            self.lost();
        }
    }

    /// A message came, and this became of it. Out of memory is a loss.
    pub fn take_message(
        &mut self,
        message: &NetlinkMessage<RouteNetlinkMessage>,
        source: SocketAddr,
        handled: &Handled<u64>,
    ) -> Result<(), NoMemory>
        ensures taken { OnOk result (self.new ≡ handled_step message.now source handled.now self.old) }
        ensures lost { OnErr result (self.new ≡ stepped Lost self.old) }
    {
        let from_peer = source.port == self.peer;
        if from_peer && is_overrun(&message.payload) {
            self.lost();
            return Ok(());
        }
        let change = match &message.payload {
            NetlinkPayload::InnerMessage(inner) => message_change(inner, self.table),
            _ => None,
        };
        let taken = match handled.to {
            Place::Reply { metadata, done } => {
                let update = Update {
                    stream: Some(metadata),
                    change,
                    interrupted: says_interrupted(&message.header),
                };
                self.replied(metadata, &update, ending_of(&message.payload, done))
            }
            Place::Unsolicited => match change {
                Some(change) if from_peer => self.notified(&change),
                _ => Ok(()),
            },
        };
        if taken.is_err() {
            self.lost();
        }
        taken
    }

    /// Blocks a network, whose host bits are dropped, and says whether it is new: no route in it answers. Out of memory
    /// changes nothing.
    pub fn block(&mut self, network: Network) -> Result<bool, NoMemory>
        requires { HasFit network }
        ensures new { IfOk result (λ new. new ≡ not (is_listed (without_host_bits network) self.old.blocked)) }
        ensures added { OnOk result (Adds (without_host_bits network) self.old.blocked self.new.blocked) }
        ensures rest { self.new ≡ record self.old { blocked = self.new.blocked } }
        ensures unchanged { OnErr result (self.new ≡ self.old) }
    {
        self.blocked.block(network)
    }

    /// Unblocks a network, whose host bits are dropped, and says whether it was blocked.
    pub fn unblock(&mut self, network: Network) -> bool
        requires { HasFit network }
        ensures was { result ≡ is_listed (without_host_bits network) self.old.blocked }
        ensures dropped { Drops (without_host_bits network) self.old.blocked self.new.blocked }
        ensures rest { self.new ≡ record self.old { blocked = self.new.blocked } }
    {
        self.blocked.unblock(network)
    }

    /// The answer for an address: `Stale` while the mirror isn't in step; else, of the routes in force whose network contains
    /// the address and lies in no blocked network, the one of the longest network and then of the least priority, or
    /// `Absent`. It takes no memory, and counts each node of a trie that it reads.
    pub fn lookup<L>(&self, address: Address, steps: &mut Steps<L>) -> Answer
        ensures answer { result ≡ lookup_in self.now.state (Some empty) self.now.blocked address }
        ensures stale { (result ≡ Stale) ↔ (is_in_step self.now.state ≡ false) }
        ensures most { steps.new ≤ steps.old + most_steps address }
        ensures least { result ≢ Stale → min (steps.old + 2) (2 ^ 64 - 1) ≤ steps.new }
    {
        match &self.in_force {
            Some(routes) if !self.closed => routes.lookup(address, &self.blocked, steps),
            _ => Answer::Stale,
        }
    }

    // Takes in a change that nothing asked for: at the table in force, and at each dump that runs.
    fn notified(&mut self, change: &RouteChange) -> Result<(), NoMemory>
        requires { IsPlain change.now.network }
        ensures notified { OnOk result (self.new ≡ stepped (Notified (change_value change.now)) self.old) }
        ensures rest { stepped Lost self.new ≡ stepped Lost self.old }
    {
        if let Some(routes) = &mut self.in_force {
            routes.change(change)?;
        }
        let update = Update {
            stream: None,
            change: Some(*change),
            interrupted: false,
        };
        update_all(&mut self.running, &update)
    }

    // Takes in a reply of a stream: at its dump, which it may end.
    fn replied(&mut self, stream: u64, update: &Update, ending: Ending) -> Result<(), NoMemory>
        requires stream { update.now.stream ≡ Some stream }
        requires plain { IfSome update.now.change (λ c. IsPlain c.network) }
        ensures replied { OnOk result (self.new ≡ reply_step stream update.now ending self.old) }
        ensures rest { stepped Lost self.new ≡ stepped Lost self.old }
    {
        update_all(&mut self.running, update)?;
        match ending {
            Ending::Continues => {}
            Ending::Failed => end_dumps(&mut self.running, stream),
            Ending::Finished => self.completed(stream),
        }
        Ok(())
    }

    // A clean end of a stream: puts the table of its dump in force, if the dump wasn't interrupted.
    fn completed(&mut self, stream: u64)
        ensures { self.new ≡ completed_step stream self.old }
    {
        let whole = take_whole(&mut self.running, stream);
        end_dumps(&mut self.running, stream);
        if whole.is_some() {
            self.in_force = whole;
        }
    }
}
