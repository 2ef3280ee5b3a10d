//! A link in memory.
ghost use Rattle.std.specs.Prelude.{◌≡◌, ◌≤◌, [], ◌∷◌, ◌++◌, length, IfNone, IfSome, OnErr, OnOk};
ghost use Rattle.proto_conn.specs.Links.{DidReceive, DidSend};
ghost use Rattle.proto_conn.specs.Tapes.{IsSmall, SentBy, counted, fresh_tape, given, means, plan_of, read_by};

use crate::link::{Arrival, Link, Posted, Received, Sent};
use bytes::BytesMut;
use nl_core::{NoMemory, Octets};
use session_model::SocketAddr;
use std::alloc::Global;
use std::collections::VecDeque;
use std::marker::Model;

// What the plan of a tape says of a call.
#[derive(Clone, Copy, Debug, PartialEq, Eq)]
pub enum Planned {
    Works,
    Fails,
    Stalls,
}

/// A link in memory, whose calls fail or aren't ready by a plan.
#[derive(Drop)]
pub struct TapeLink {
    alloc: Global,
    arrivals: VecDeque<Arrival>,
    posted: VecDeque<Posted>,
    fail: Vec<u64>,
    stall: Vec<u64>,
    calls: u64,
    faults: u64,
    stalls: u64,
    closings: u64,
}

impl Model for TapeLink {
    ghost use Rattle.std.specs.List.{AllByRecursion};
    ghost use Rattle.proto_conn.specs.Tapes.{IsSmall, Tape};

    ghost Value = { Tape };

    ghost view = { λ t. record {
      waits = t.arrivals.items;
      posted = t.posted.items;
      fail = t.fail.items;
      stall = t.stall.items;
      calls = t.calls;
      faults = t.faults;
      stalls = t.stalls;
      closings = t.closings;
    } };

    ghost invariant = { λ t. AllByRecursion IsSmall t.arrivals.items };
}

impl TapeLink {
    /// A tape whose plan is empty.
    pub fn new(alloc: Global) -> Self
        ensures { result ≡ fresh_tape [] [] }
    {
        TapeLink::with_plan(alloc, Vec::new(alloc), Vec::new(alloc))
    }

    /// A tape whose calls with these numbers fail, or aren't ready. Calls of `recv` and `send` are numbered together
    /// from 1; a call that both lists name fails.
    pub fn with_plan(alloc: Global, fail: Vec<u64>, stall: Vec<u64>) -> Self
        ensures { result ≡ fresh_tape fail.items stall.items }
    {
        TapeLink {
            alloc,
            arrivals: VecDeque::new(alloc),
            posted: VecDeque::new(alloc),
            fail,
            stall,
            calls: 0,
            faults: 0,
            stalls: 0,
            closings: 0,
        }
    }

    /// The arrival waits as the newest.
    pub fn push(&mut self, arrival: Arrival) -> Result<(), NoMemory>
        requires { IsSmall arrival }
        ensures ok { OnOk result (self.new ≡ record self.old { waits = self.old.waits ++ arrival ∷ [] }) }
        ensures err { OnErr result (self.new ≡ self.old) }
    {
        self.arrivals.push_back(arrival)?;
        Ok(())
    }

    /// Takes the oldest datagram out of those that were sent.
    pub fn take_sent(&mut self) -> Option<(Octets, SocketAddr)>
        ensures none { IfNone result ((self.old.posted ≡ []) × (self.new ≡ self.old)) }
        ensures some { IfSome result (λ p. self.old ≡
            record self.new { posted = record { bytes = p.0; to = p.1 } ∷ self.new.posted }) }
    {
        let posted = self.posted.pop_front()?;
        Some((posted.bytes, posted.to))
    }

    // What the plan says of the next call, which is counted.
    fn planned(&mut self) -> Planned
        ensures plan { result ≡ plan_of self.old }
        ensures counted { self.new ≡ counted result self.old }
        ensures rises { (self.old.faults ≤ self.new.faults) × (self.old.stalls ≤ self.new.stalls) }
    {
        self.calls = self.calls.saturating_add(1);
        if self.fail.contains(&self.calls) {
            self.faults = self.faults.saturating_add(1);
            return Planned::Fails;
        }
        if self.stall.contains(&self.calls) {
            self.stalls = self.stalls.saturating_add(1);
            return Planned::Stalls;
        }
        Planned::Works
    }

    // The oldest arrival, until `Closed` was given.
    fn give(&mut self, into: &mut BytesMut) -> Received
        requires empty { into.old.items ≡ [] }
        requires room { 65536 ≤ into.old.spare }
        ensures did { DidReceive (means self.old) result into.new.items (means self.new) }
        ensures answer { result ≡ given self.old.closings self.old.waits }
    {
        if self.closings > 0 {
            self.closings = self.closings.saturating_add(1);
            return Received::Closed;
        }
        match self.arrivals.pop_front() {
            None => {
                self.stalls = self.stalls.saturating_add(1);
                Received::NotReady
            }
            Some(Arrival::Datagram { source, bytes }) => {
                into.extend_reserved(bytes.as_slice());
                Received::Datagram(source)
            }
            Some(Arrival::Overrun) => Received::Overrun,
            Some(Arrival::Closed) => {
                self.closings = self.closings.saturating_add(1);
                Received::Closed
            }
        }
    }

    // Notes a datagram as sent.
    fn post(&mut self, bytes: &[u8], to: SocketAddr) -> Sent
        ensures did { DidSend (means self.old) result bytes.now to (means self.new) }
        ensures answer { SentBy Planned.Works result (length bytes.now) }
    {
        if self.posted.reserve(1).is_err() {
            return Sent::NoMemory;
        }
        let Ok(copy) = Vec::from_slice(self.alloc, bytes) else {
            return Sent::NoMemory;
        };
        let bytes_sent = Octets::from_vec(copy);
        self.posted.push_back_reserved(Posted {
            bytes: bytes_sent,
            to,
        });
        Sent::Sent(bytes.len())
    }
}

impl Link for TapeLink {
    ghost meaning = { means };

    fn recv(&mut self, into: &mut BytesMut) -> Received
        requires empty { into.old.items ≡ [] }
        requires room { 65536 ≤ into.old.spare }
        ensures did { DidReceive (means self.old) result into.new.items (means self.new) }
        ensures answer { result ≡ read_by (plan_of self.old) self.old }
    {
        match self.planned() {
            Planned::Fails => Received::Failed,
            Planned::Stalls => Received::NotReady,
            Planned::Works => self.give(into),
        }
    }

    fn send(&mut self, bytes: &[u8], to: SocketAddr) -> Sent
        ensures did { DidSend (means self.old) result bytes.now to (means self.new) }
        ensures answer { SentBy (plan_of self.old) result (length bytes.now) }
    {
        match self.planned() {
            Planned::Fails => Sent::Failed,
            Planned::Stalls => Sent::NotReady,
            Planned::Works => self.post(bytes, to),
        }
    }

    fn backlog(&self) -> u64 {
        self.arrivals.len() as u64
    }
}
