//! What a runner keeps of what its connection reads.
ghost use Rattle.std.specs.Prelude.{◌≡◌, ◌++◌, ◌==◌, [], flat_map, if◌then◌else◌, OnOk};
ghost use Rattle.std.specs.BTreeSet.{insert_key};
ghost use Rattle.std.specs.Ordering.{nat_cmp};
ghost use Rattle.session_model.specs.SessionText.{closed_line};
ghost use Rattle.session_laws.specs.Requests.{Opens};
ghost use Rattle.mirror.specs.Ledger.{awaited_at, ledger_loses, ledger_overruns, ledger_sees};
ghost use Rattle.mirror.specs.Polled.{IsTold, closing_streams};

use crate::message::Message;
use crate::open_streams::{close_all, open_stream, settle};
use nl_core::{NetlinkMessage, NoMemory};
use proto_conn::{Dropped, Watch};
use proto_core::{Handled, Place};
use session_model::SocketAddr;
use std::alloc::Global;
use std::collections::{BTreeMap, BTreeSet};
use std::mem;
use transcript_lines::put_closed;

/// The open streams, the streams that the record at hand closes, and how many frames and rests were dropped.
#[derive(Drop)]
pub struct Ledger {
    // How many numbers of each open stream are awaited.
    pub open_streams: BTreeMap<u64, u64>,
    pub closing: BTreeSet<u64>,
    pub dropped: u64,
}

impl Ledger {
    /// No stream, and nothing dropped.
    pub fn new(alloc: Global) -> Self
        ensures none { result.open_streams.entries ≡ [] }
        ensures closing { result.closing.keys ≡ [] }
        ensures dropped { result.dropped ≡ 0 }
    {
        Ledger {
            open_streams: BTreeMap::new(alloc),
            closing: BTreeSet::new(alloc),
            dropped: 0,
        }
    }

    /// A stream opens with so many awaited numbers; where there are none it closes at once.
    pub fn open(&mut self, stream: u64, awaited: u64) -> Result<(), NoMemory>
        ensures opens { OnOk result (Opens stream awaited (awaited_at self.old) (awaited_at self.new)) }
        ensures closing { OnOk result (self.new.closing.keys
            ≡ (if awaited == 0 then insert_key nat_cmp self.old.closing.keys stream else self.old.closing.keys)) }
        ensures dropped { self.new.dropped ≡ self.old.dropped }
    {
        open_stream(&mut self.open_streams, &mut self.closing, stream, awaited)
    }

    /// Adds the lines of the streams that close, ascending; all open ones where the link closed.
    pub fn put_closing(
        &mut self,
        alloc: Global,
        shut: bool,
        text: &mut Vec<u8>,
    ) -> Result<(), NoMemory>
        ensures text { OnOk result (text.new.items ≡
            text.old.items ++ flat_map closed_line (closing_streams shut self.old)) }
        ensures told { OnOk result (IsTold shut self.old self.new) }
    {
        let closing = mem::replace(&mut self.closing, BTreeSet::new(alloc));
        for stream in closing {
            put_closed(text, stream)?;
        }
        if shut {
            let open_streams = mem::replace(&mut self.open_streams, BTreeMap::new(alloc));
            close_all(open_streams, text)?;
        }
        Ok(())
    }
}

impl Watch<Message> for Ledger {
    ghost sees = { ledger_sees };

    ghost loses = { ledger_loses };

    ghost overruns = { ledger_overruns };

    fn saw(
        &mut self,
        _message: &NetlinkMessage<Message>,
        _source: SocketAddr,
        handled: &Handled<u64>,
    ) -> Result<(), NoMemory> {
        match handled.to {
            Place::Reply { metadata, done } if done => {
                settle(&mut self.open_streams, &mut self.closing, metadata)
            }
            _ => Ok(()),
        }
    }

    fn dropped(&mut self, _what: &Dropped, _source: SocketAddr) {
        self.dropped = self.dropped.saturating_add(1);
    }

    fn overrun(&mut self) {}
}
