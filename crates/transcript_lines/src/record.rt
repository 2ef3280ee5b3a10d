//! The record of a line, each frame of its batch readable.
ghost use Rattle.std.specs.Prelude.{◌≡◌, ◌↔◌, ◌∷◌, [], ◌++◌, IfOk, IfSome, IfNone, IsTrue};
ghost use Rattle.session_model.specs.Lines.{newline};
ghost use Rattle.session_model.specs.Transcript.{AreFrames, HasWholeFrames, IsRecord, IsWholeFrame, record_line};
ghost use Rattle.session_model.specs.Causes.{IsNoRecord};

use crate::line::spelled_record;
use nl_core::{NetlinkDeserializable, NoMemory};
use proto_core::read_frame;
use session_model::{BatchFrame, Record};
use std::alloc::Global;

// Whether bytes are one frame that can be read.
fn is_whole_frame<T: NetlinkDeserializable + Drop>(
    alloc: Global,
    bytes: &[u8],
) -> Result<bool, NoMemory>
    ensures { IfOk result (λ b. IsTrue b ↔ IsWholeFrame T.reads bytes.now) }
{
    match read_frame::<T>(alloc, bytes)? {
        Some(message) => Ok(message.header.length as usize == bytes.len()),
        None => Ok(false),
    }
}

// Whether each frame of a batch can be read.
fn are_whole_frames<T: NetlinkDeserializable + Drop>(
    alloc: Global,
    frames: &[BatchFrame],
) -> Result<bool, NoMemory>
    ensures { IfOk result (λ b. IsTrue b ↔ AreFrames (IsWholeFrame T.reads) frames.now) }
{
    for frame in frames {
        if !is_whole_frame::<T>(alloc, frame.bytes.as_slice())? {
            return Ok(false);
        }
    }
    Ok(true)
}

// Whether each frame of a record can be read.
pub(crate) fn has_whole_frames<T: NetlinkDeserializable + Drop>(
    alloc: Global,
    entry: &Record,
) -> Result<bool, NoMemory>
    ensures { IfOk result (λ b. IsTrue b ↔ HasWholeFrames T.reads entry.now) }
{
    match entry {
        Record::Batch { frames, .. } => are_whole_frames::<T>(alloc, frames.as_slice()),
        Record::Recv { .. }
        | Record::Overrun
        | Record::Close
        | Record::Resync
        | Record::Block(_)
        | Record::Unblock(_)
        | Record::Lookup(_) => Ok(true),
    }
}

/// The record that a whole line is, without its newline; `None` exactly where no record has this line. A frame of a
/// batch must be one that can be read as a `T` and whose length field is its count of bytes.
pub fn read_record<T: NetlinkDeserializable + Drop>(
    alloc: Global,
    line: &[u8],
) -> Result<Option<Record>, NoMemory>
    ensures some { IfOk result (λ o. IfSome o (λ r. (line.now ++ newline ∷ [] ≡ record_line r) × IsRecord T.reads r)) }
    ensures none { IfOk result (λ o. IfNone o (IsNoRecord (IsRecord T.reads) line.now)) }
{
    let Some(spelled) = spelled_record(alloc, line)? else {
        return Ok(None);
    };
    if has_whole_frames::<T>(alloc, &spelled)? {
        Ok(Some(spelled))
    } else {
        Ok(None)
    }
}
