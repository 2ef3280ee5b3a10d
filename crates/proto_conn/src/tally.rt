//! What is kept of each stream, so that a question about one looks at no other.
ghost use Rattle.std.specs.Prelude.{◌≡◌, ◌+◌, ◌-◌, ◌<◌, ◌≤◌, ◌^◌, [], ◌∷◌, ◌++◌, length, take, OnErr, OnOk};
ghost use Rattle.proto_conn.specs.Tallies.{IsGiven, no_tally, says_awaited, says_reply, tally_at, with_handled, with_reply, with_request};

use nl_core::NoMemory;
use proto_core::{Handled, Place};
use std::alloc::Global;
use std::marker::Model;

// What is kept of a stream.
#[derive(Clone, Copy, Debug, PartialEq, Eq)]
pub struct Tally {
    // How many of its numbers are awaited.
    pub awaited: usize,
    // The place of its newest reply among the arrivals, 0 where none came.
    pub newest: u64,
}

// What is kept of the streams, from 1, and the place up to which all replies were handed on.
#[derive(Drop)]
pub struct Tallies {
    streams: Vec<Tally>,
    handed: u64,
}

impl Model for Tallies {
    ghost use Rattle.proto_conn.specs.Tallies.{Tallied};

    ghost Value = { Tallied };

    ghost view = { λ t. record { streams = t.streams.items; handed = t.handed } };
}

impl Tallies {
    pub fn new(alloc: Global) -> Self
        ensures { result ≡ record { streams = []; handed = 0 } }
    {
        Tallies {
            streams: Vec::new(alloc),
            handed: 0,
        }
    }

    // A stream more.
    pub fn add(&mut self) -> Result<(), NoMemory>
        ensures ok { OnOk result (self.new ≡ record self.old { streams = self.old.streams ++ no_tally ∷ [] }) }
        ensures err { OnErr result (self.new ≡ self.old) }
    {
        self.streams.push(Tally {
            awaited: 0,
            newest: 0,
        })?;
        Ok(())
    }

    // The newest stream less.
    pub fn drop_last(&mut self)
        ensures { self.new ≡ record self.old { streams = take (length self.old.streams - 1) self.old.streams } }
    {
        self.streams.pop();
    }

    // A reply of a stream came, and ended its number or didn't.
    fn note_reply(&mut self, stream: u64, done: bool, arrival: u64)
        requires first { 0 < stream }
        requires given { stream ≤ length self.old.streams }
        ensures { self.new ≡ with_reply stream done arrival self.old }
    {
        let at = stream as usize - 1;
        let ended: usize = if done { 1 } else { 0 };
        let awaited = self.streams[at].awaited.saturating_sub(ended);
        self.streams[at] = Tally {
            awaited,
            newest: arrival,
        };
    }

    // A request of a stream left the queue, and so many of its numbers are awaited.
    pub fn note_request(&mut self, stream: u64, numbers: usize)
        requires first { 0 < stream }
        requires given { stream ≤ length self.old.streams }
        requires fits { (tally_at self.old.streams (stream - 1)).awaited + numbers < 2 ^ 64 }
        ensures { self.new ≡ with_request stream numbers self.old }
    {
        let at = stream as usize - 1;
        let Tally { awaited, newest } = self.streams[at];
        self.streams[at] = Tally {
            awaited: awaited + numbers,
            newest,
        };
    }

    // A message was taken in, and this became of it.
    pub fn note_handled(&mut self, handled: &Handled<u64>)
        requires { IsGiven (length self.old.streams) handled.now.to }
        ensures { self.new ≡ with_handled handled.now self.old }
    {
        match handled.to {
            Place::Reply { metadata, done } => self.note_reply(metadata, done, handled.arrival),
            Place::Unsolicited => {}
        }
    }

    // All replies up to this arrival were handed on.
    pub fn note_forwarded(&mut self, arrival: u64)
        ensures { self.new ≡ record self.old { handed = arrival } }
    {
        self.handed = arrival;
    }

    // Whether a number of a stream is awaited.
    pub fn is_awaited(&self, stream: u64) -> bool
        ensures { result ≡ says_awaited stream self.now }
    {
        if stream == 0 {
            return false;
        }
        match self.streams.as_slice().get(stream as usize - 1) {
            Some(tally) => tally.awaited > 0,
            None => false,
        }
    }

    // Whether a reply of a stream waits in the session.
    pub fn has_reply(&self, stream: u64) -> bool
        ensures { result ≡ says_reply stream self.now }
    {
        if stream == 0 {
            return false;
        }
        match self.streams.as_slice().get(stream as usize - 1) {
            Some(tally) => tally.newest > self.handed,
            None => false,
        }
    }
}
