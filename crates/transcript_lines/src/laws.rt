//! Laws of the spelling of records and of whole inputs, each the contract of a function that does nothing.
ghost use Rattle.std.specs.Prelude.{List, ℕ};
ghost use Rattle.session_model.specs.Causes.{HasOutcome};
ghost use Rattle.session_model.specs.Inner.{format_of};
ghost use Rattle.session_model.specs.Transcript.{IsRecord};
ghost use Rattle.session_model.specs.declared.settings.Settings.{Settings};
ghost use Rattle.transcript_lines.specs.Line.{SpellingIsInjective};
ghost use Rattle.transcript_lines.specs.LineDecoder.{PiecesAgree};

use nl_core::{NetlinkDeserializable, NetlinkSerializable};

/// Two records that have one line are one record.
pub fn one_record()
    ensures { SpellingIsInjective }
{}

/// Every input has an outcome, whatever the inner messages are: it is valid, or it has a cause after the records that
/// are taken before it.
pub fn every_input_has_an_outcome<T: NetlinkSerializable + NetlinkDeserializable>()
    ensures { (s : Settings) (input : List ℕ) →
        HasOutcome (format_of T.reads T.kind T.text T.fitting) s (IsRecord T.reads) input }
{}

/// A line that is fed to a fresh decoder in pieces gives one answer, whatever the pieces are.
pub fn pieces_agree<T: NetlinkDeserializable>()
    ensures { PiecesAgree T T.reads }
{}
