//! The open streams of a session, with how many numbers of each are awaited: they open, settle and close.
ghost use Rattle.std.specs.Prelude.{◌≡◌, ◌++◌, ◌==◌, OnOk, flat_map, if◌then◌else◌};
ghost use Rattle.std.specs.BTreeMap.{get, keys};
ghost use Rattle.std.specs.BTreeSet.{contains, insert_key};
ghost use Rattle.std.specs.List.Sorted.{IsStrictlySortedBy};
ghost use Rattle.std.specs.Ordering.{nat_cmp};
ghost use Rattle.session_model.specs.SessionText.{closed_line};
ghost use Rattle.session_laws.specs.Counts.{Settles};
ghost use Rattle.session_laws.specs.Requests.{Opens};

use nl_core::NoMemory;
use std::collections::{BTreeMap, BTreeSet};
use transcript_lines::put_closed;

/// One number of a stream is awaited no longer: its count falls, and the stream closes where it was the last.
pub fn settle(
    open_streams: &mut BTreeMap<u64, u64>,
    closing: &mut BTreeSet<u64>,
    stream: u64,
) -> Result<(), NoMemory>
    ensures { OnOk result (Settles stream (get nat_cmp open_streams.old) (get nat_cmp open_streams.new)
        (contains nat_cmp closing.old) (contains nat_cmp closing.new)) }
{
    let Some(count) = open_streams.get(&stream).copied() else {
        return Ok(());
    };
    if count > 1 {
        open_streams.insert(stream, count - 1)?;
    } else {
        open_streams.remove(&stream);
        closing.insert(stream)?;
    }
    Ok(())
}

/// A stream opens with so many awaited numbers; where there are none it closes at once.
pub fn open_stream(
    open_streams: &mut BTreeMap<u64, u64>,
    closing: &mut BTreeSet<u64>,
    stream: u64,
    awaited: u64,
) -> Result<(), NoMemory>
    ensures opens { OnOk result (Opens stream awaited (get nat_cmp open_streams.old) (get nat_cmp open_streams.new)) }
    ensures closing { OnOk result (closing.new.keys
        ≡ (if awaited == 0 then insert_key nat_cmp closing.old.keys stream else closing.old.keys)) }
{
    if awaited > 0 {
        open_streams.insert(stream, awaited)?;
    } else {
        closing.insert(stream)?;
    }
    Ok(())
}

/// Adds the closing lines of these streams, ascending.
pub fn close_all(open_streams: BTreeMap<u64, u64>, text: &mut Vec<u8>) -> Result<(), NoMemory>
    ensures text { OnOk result (text.new.items ≡ text.old.items ++ flat_map closed_line (keys open_streams)) }
    ensures ordered { OnOk result (IsStrictlySortedBy nat_cmp (keys open_streams)) }
{
    for stream in open_streams.into_keys() {
        put_closed(text, stream)?;
    }
    Ok(())
}
