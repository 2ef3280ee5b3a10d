//! The numbers that await a reply, in a map by number.
ghost use Rattle.std.specs.Prelude.{◌≡◌, [], ◌∷◌, ◌++◌, OnOk, OnErr, if◌then◌else◌, length, take};
ghost use Rattle.session_model.specs.Awaited.{first_awaiting};
ghost use Rattle.proto_core.specs.Numbers.{AreBelow, IsAscending, without};

use nl_core::NoMemory;
use session_model::Awaited;
use std::alloc::Global;
use std::collections::BTreeMap;
use std::marker::Model;

// What is kept under an awaited number.
#[derive(Clone, Copy)]
pub struct Pending<M> {
    port: u32,
    tag: M,
    acks: bool,
}

// What is awaited, by number: a look-up, a note and a removal cost a logarithm.
#[derive(Drop)]
pub struct PendingTable<M> {
    entries: BTreeMap<u32, Pending<M>>,
}

impl<M> Model for PendingTable<M> {
    ghost use Rattle.std.specs.Prelude.{List};
    ghost use Rattle.session_model.specs.declared.awaited.Awaited.{Awaited};
    ghost use Rattle.proto_core.specs.Numbers.{IsAscending};
    ghost use Rattle.proto_core.specs.Pending.{listed};

    ghost Value = { List (Awaited M) };

    ghost view = { λ t. listed t.entries.entries };

    ghost invariant = { λ t. IsAscending (listed t.entries.entries) };
}

impl<M: Copy> PendingTable<M> {
    pub fn new(alloc: Global) -> Self
        ensures { result ≡ [] }
    {
        PendingTable {
            entries: BTreeMap::new(alloc),
        }
    }

    pub fn len(&self) -> usize
        ensures len { result ≡ length self.now }
        ensures ascending { IsAscending self.now }
    {
        self.entries.len()
    }

    // What awaits a number from a port.
    pub fn find(&self, number: u32, port: u32) -> Option<Awaited<M>>
        ensures found { result ≡ first_awaiting number port self.now }
        ensures ascending { IsAscending self.now }
    {
        let pending = *self.entries.get(&number)?;
        if pending.port != port {
            return None;
        }
        Some(Awaited {
            number,
            port,
            stream: pending.tag,
            acks: pending.acks,
        })
    }

    // Notes a number above all that are there.
    pub fn note(&mut self, entry: Awaited<M>) -> Result<(), NoMemory>
        requires { AreBelow entry.number self.old }
        ensures ok { OnOk result (self.new ≡ self.old ++ entry ∷ []) }
        ensures err { OnErr result (self.new ≡ self.old) }
    {
        let pending = Pending {
            port: entry.port,
            tag: entry.stream,
            acks: entry.acks,
        };
        self.entries.insert(entry.number, pending)?;
        Ok(())
    }

    // Takes out what awaits a number, if its last message came.
    pub fn settle(&mut self, number: u32, done: bool)
        ensures { self.new ≡ (if done then without number self.old else self.old) }
    {
        if done {
            self.entries.remove(&number);
        }
    }

    // Takes out the greatest numbers, until so many are left.
    pub fn truncate(&mut self, len: usize)
        ensures { self.new ≡ take len self.old }
    {
        while self.entries.len() > len {
            self.entries.pop_last();
        }
    }
}
