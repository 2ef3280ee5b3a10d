// Lines of a transcript.
ghost use Rattle.std.specs.Prelude.{◌≡◌, ◌∷◌, [], ◌++◌, IfOk, IfSome, IfNone};
ghost use Rattle.session_model.specs.Lines.{newline};
ghost use Rattle.session_model.specs.Transcript.{record_line};
ghost use Rattle.session_model.specs.Causes.{IsNoRecord};
ghost use Rattle.mirror.specs.Format.{IsEntry};

use crate::message::Message;
use nl_core::NoMemory;
use session_model::Record;
use std::alloc::Global;
use transcript_lines::read_record;

/// The record that a whole line is, without its newline; `None` exactly where no record has this line. A frame of a
/// batch must be one that can be read and whose length field is its count of bytes.
pub fn read_line(alloc: Global, line: &[u8]) -> Result<Option<Record>, NoMemory>
    ensures some { IfOk result (λ o. IfSome o (λ r. (line.now ++ newline ∷ [] ≡ record_line r) × IsEntry r)) }
    ensures none { IfOk result (λ o. IfNone o (IsNoRecord IsEntry line.now)) }
{
    read_record::<Message>(alloc, line)
}
