//! A session run record by record, over a connection.
ghost use Rattle.std.specs.Prelude.{◌≡◌, ◌≤◌, ◌∷◌, [], ◌++◌, List, Err, IfOk, OnOk, IfErr, false, true};
ghost use Rattle.transcript_io.specs.Io.{HasRisen, with_back};
ghost use Rattle.mirror.specs.Format.{format};
ghost use Rattle.mirror.specs.Faults.{IsStepFault};

use crate::answers::put_answer;
use crate::exchange::{arrive, send_batch, send_resync};
use crate::handed::{put_replies, put_sent, put_unsolicited};
use crate::ledger::Ledger;
use crate::message::{Message, RouteConnection};
use crate::observers::Observers;
use crate::output::write_text;
use crate::step_fault::StepFault;
use nl_core::NoMemory;
use proto_conn::{Arrival, ConnectionHandle, TapeLink, Unsolicited, from_socket_at};
use route_mirror::Mirror;
use session_model::{Address, Network, Record, Report, RunFault, Settings};
use std::alloc::Global;
use transcript_io::Sink;
use trie_map::Steps;

/// A session after the records that were taken so far.
#[derive(Drop)]
pub struct Runner {
    alloc: Global,
    pub(crate) settings: Settings,
    connection: RouteConnection,
    handle: ConnectionHandle<Message>,
    unsolicited: Unsolicited,
    observers: Observers,
    lines: u64,
}

impl Runner {
    ghost use Rattle.session_model.specs.declared.settings.Settings.{Settings};
    ghost use Rattle.session_model.specs.declared.transcript.Record.{Record};
    ghost use Rattle.session_model.specs.Reported.{report_of};
    ghost use Rattle.mirror.specs.Format.{IsEntry};
    ghost use Rattle.session_model.specs.Causes.{is_of_link};
    ghost use Rattle.session_model.specs.Networks.{IsHost, IsNetwork};
    ghost use Rattle.mirror.specs.Runner.{Brings, ConnectionStands, CountsInRange, Fails, Grows, HasNoCounts, HasSpace};
    ghost use Rattle.mirror.specs.Runner.{MirrorStands, RefusedBy, Shows, TakesRecord, Tells, Tracks, added_text, is_in_step_after};

    /// No records so far.
    pub fn new(alloc: Global, settings: &Settings) -> Result<Runner, NoMemory>
        ensures tracks { IfOk result (λ r. Tracks settings.now [] r) }
        ensures counted { IfOk result (λ r. CountsInRange r) }
        ensures none { IfOk result (λ r. HasNoCounts r) }
    {
        let (mut connection, handle, unsolicited) = from_socket_at(
            alloc,
            TapeLink::new(alloc),
            settings.start,
        )?;
        connection.set_forward_noop(settings.forward_noop);
        connection.set_forward_done(settings.forward_done);
        connection.set_forward_ack(settings.forward_ack);
        Ok(Runner {
            alloc,
            settings: *settings,
            connection,
            handle,
            unsolicited,
            observers: Observers {
                ledger: Ledger::new(alloc),
                mirror: Mirror::new(alloc, settings.peer, settings.table)?,
            },
            lines: 0,
        })
    }

    /// The connection that the records go through. While no step has failed, its session has the last number, the count
    /// of arrivals and the awaited numbers of the records taken, and its link counts as closed exactly where a close
    /// record was taken.
    pub fn connection(&self) -> &RouteConnection
        ensures { (s : Settings) (rs : List Record) → Tracks s rs self.now → ConnectionStands s rs result.now }
    {
        &self.connection
    }

    /// The mirror of the peer's routes. While no step has failed, it stands for the state after the events of the records
    /// taken.
    pub fn mirror(&self) -> &Mirror
        ensures { (s : Settings) (rs : List Record) → Tracks s rs self.now → MirrorStands s rs result.now }
    {
        &self.observers.mirror
    }

    // Does what a record of the link brings.
    fn bring(&mut self, entry: Record) -> Result<(), StepFault>
        requires entry { IsEntry entry }
        requires of_link { is_of_link entry ≡ true }
        requires counted { CountsInRange self.old }
        requires space { HasSpace self.old }
        ensures settings { self.new.settings ≡ self.old.settings }
        ensures lines { self.new.lines ≡ self.old.lines }
        ensures unshut { OnOk result (self.old.connection.closed ≡ false) }
        ensures step { OnOk result (Brings self.old.settings entry
            self.old.connection self.old.observers.ledger self.new.connection self.new.observers.ledger) }
        ensures shown { OnOk result
            (Shows entry self.old.connection self.old.observers.mirror self.new.observers.mirror) }
        ensures cause { IfErr result (RefusedBy self.old entry) }
    {
        if self.connection.should_shut_down() {
            return Err(StepFault::Closed);
        }
        let arrival = match entry {
            Record::Batch { to, frames } => {
                return send_batch(
                    self.alloc,
                    &self.handle,
                    &mut self.connection,
                    &mut self.observers,
                    to,
                    frames.as_slice(),
                );
            }
            Record::Resync => {
                return send_resync(&self.handle, &mut self.connection, &mut self.observers);
            }
            Record::Close => {
                arrive(&mut self.connection, &mut self.observers, Arrival::Closed)?;
                self.observers.mirror.closed();
                return Ok(());
            }
            Record::Recv { source, bytes } => Arrival::Datagram { source, bytes },
            Record::Overrun => Arrival::Overrun,
            Record::Block(_) | Record::Unblock(_) | Record::Lookup(_) => unreachable!(),
        };
        arrive(&mut self.connection, &mut self.observers, arrival)?;
        Ok(())
    }

    // The text of what the last record of the link brought.
    fn tell(&mut self) -> Result<Vec<u8>, NoMemory>
        requires { self.old.connection.requests_gone ≡ false }
        ensures settings { self.new.settings ≡ self.old.settings }
        ensures lines { self.new.lines ≡ self.old.lines }
        ensures text { IfOk result (λ text. Tells self.old self.new text.items) }
    {
        let alloc = self.alloc;
        let mut text = Vec::new(alloc);
        put_sent(&mut self.connection, &mut text)?;
        put_unsolicited(&mut self.unsolicited, &mut self.connection, &mut text)?;
        put_replies(&self.settings, &mut self.connection, &mut text)?;
        let shut = self.connection.should_shut_down();
        self.observers.ledger.put_closing(alloc, shut, &mut text)?;
        Ok(text)
    }

    // Takes a record of the link; its text.
    fn take_exchange(&mut self, entry: Record) -> Result<Vec<u8>, StepFault>
        requires entry { IsEntry entry }
        requires of_link { is_of_link entry ≡ true }
        requires counted { CountsInRange self.old }
        requires space { HasSpace self.old }
        ensures settings { self.new.settings ≡ self.old.settings }
        ensures counted { OnOk result (CountsInRange self.new) }
        ensures grows { OnOk result (Grows entry self.old self.new) }
        ensures step { IfOk result (λ text. TakesRecord self.old entry self.new text.items) }
        ensures cause { IfErr result (RefusedBy self.old entry) }
    {
        self.bring(entry)?;
        self.lines += 1;
        Ok(self.tell()?)
    }

    // Takes a record that blocks a network; it has no text.
    fn take_block(&mut self, network: Network) -> Result<Vec<u8>, StepFault>
        requires network { IsNetwork network }
        requires counted { CountsInRange self.old }
        requires space { HasSpace self.old }
        ensures settings { self.new.settings ≡ self.old.settings }
        ensures counted { OnOk result (CountsInRange self.new) }
        ensures grows { OnOk result (Grows (Record.Block network) self.old self.new) }
        ensures step { IfOk result (λ text. TakesRecord self.old (Record.Block network) self.new text.items) }
        ensures cause { IfErr result (RefusedBy self.old (Record.Block network)) }
    {
        self.observers.mirror.block(network)?;
        self.lines += 1;
        Ok(Vec::new(self.alloc))
    }

    // Takes a record that unblocks a network; it has no text.
    fn take_unblock(&mut self, network: Network) -> Vec<u8>
        requires network { IsNetwork network }
        requires counted { CountsInRange self.old }
        requires space { HasSpace self.old }
        ensures settings { self.new.settings ≡ self.old.settings }
        ensures counted { CountsInRange self.new }
        ensures grows { Grows (Record.Unblock network) self.old self.new }
        ensures step { TakesRecord self.old (Record.Unblock network) self.new result.items }
    {
        self.observers.mirror.unblock(network);
        self.lines += 1;
        Vec::new(self.alloc)
    }

    // Takes a record that looks an address up; the line of its answer.
    fn take_lookup(&mut self, address: Address) -> Result<Vec<u8>, NoMemory>
        requires address { IsHost address }
        requires counted { CountsInRange self.old }
        requires space { HasSpace self.old }
        ensures settings { self.new.settings ≡ self.old.settings }
        ensures counted { OnOk result (CountsInRange self.new) }
        ensures grows { OnOk result (Grows (Record.Lookup address) self.old self.new) }
        ensures step { IfOk result (λ text. TakesRecord self.old (Record.Lookup address) self.new text.items) }
    {
        let answer = self.observers.mirror.lookup(address, &mut Steps::start());
        let mut text = Vec::new(self.alloc);
        put_answer(&mut text, address, &answer)?;
        self.lines += 1;
        Ok(text)
    }

    // Takes a record; its text.
    fn take_record(&mut self, entry: Record) -> Result<Vec<u8>, StepFault>
        requires entry { IsEntry entry }
        requires counted { CountsInRange self.old }
        requires space { HasSpace self.old }
        ensures settings { self.new.settings ≡ self.old.settings }
        ensures counted { OnOk result (CountsInRange self.new) }
        ensures grows { OnOk result (Grows entry self.old self.new) }
        ensures step { IfOk result (λ text. TakesRecord self.old entry self.new text.items) }
        ensures cause { IfErr result (RefusedBy self.old entry) }
    {
        match entry {
            Record::Block(network) => self.take_block(network),
            Record::Unblock(network) => Ok(self.take_unblock(network)),
            Record::Lookup(address) => Ok(self.take_lookup(address)?),
            entry => self.take_exchange(entry),
        }
    }

    /// Takes a record and appends its text to a sink. Closed, SequenceExhausted and Unfit come exactly where the record
    /// isn't taken after those before it, with the place that is handed in, and then nothing is written. WriteFault
    /// comes only where the sink's count of faults rose in this call; after it or NoMemory the sink has gained some first
    /// bytes of the record's text. The condition `counted` says that no earlier step has failed: after any fault the
    /// runner takes no more. It holds of a new runner, and after each step that was Ok.
    pub fn step<K: Sink>(&mut self, at: u64, line: Record, out: &mut K) -> Result<(), RunFault>
        requires entry { IsEntry line }
        requires counted { CountsInRange self.old }
        requires space { HasSpace self.old }
        ensures settings { self.new.settings ≡ self.old.settings }
        ensures counted { OnOk result (CountsInRange self.new) }
        ensures grows { OnOk result (Grows line self.old self.new) }
        ensures ok { OnOk result ((s : Settings) (rs : List Record) → Tracks s rs self.old
            → Tracks s (rs ++ line ∷ []) self.new
            × (K.written out.new ≡ with_back (K.written out.old) (added_text s rs line))) }
        ensures fails { IfErr result (λ e. (s : Settings) (rs : List Record) → Tracks s rs self.old
            → Fails s rs line at (K.written out.old) (K.written out.new) e) }
        ensures only { IfErr result IsStepFault }
        ensures write_cause { result ≡ Err RunFault.WriteFault → HasRisen (K.faults out.old) (K.faults out.new) }
        ensures later { K.faults out.old ≤ K.faults out.new }
    {
        match self.take_record(line) {
            Ok(text) => write_text(out, text.as_slice()),
            Err(fault) => Err(fault.at(at)),
        }
    }

    /// What there is to report of the records that were taken.
    pub fn report(&self) -> Report
        ensures { (s : Settings) (rs : List Record) → Tracks s rs self.now
            → result ≡ report_of format s (is_in_step_after s rs) rs }
    {
        Report {
            lines: self.lines,
            messages: self.connection.arrivals(),
            dropped: self.observers.ledger.dropped,
            still_open: self.observers.ledger.open_streams.len() as u64,
            in_step: self.observers.mirror.in_step(),
        }
    }
}
