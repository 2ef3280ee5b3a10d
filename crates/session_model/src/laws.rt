//! Laws of the definitions, each the contract of a function that does nothing.
ghost use Rattle.std.specs.Prelude.{◌≡◌, List, ℕ};
ghost use Rattle.session_model.specs.Inner.{format_of};
ghost use Rattle.session_model.specs.Cut.{IsCut, frames_of, rest_of};
ghost use Rattle.session_model.specs.SessionText.{TextGrows};

use nl_core::{NetlinkDeserializable, NetlinkSerializable};

/// Each list of bytes has exactly one cut: the frames and the rest that the definitions give.
pub fn one_cut()
    ensures is { (bytes : List ℕ) → IsCut bytes (frames_of bytes) (rest_of bytes) }
    ensures only { (bytes : List ℕ) (frames : List (List ℕ)) (rest : List ℕ) →
        IsCut bytes frames rest → (frames_of bytes ≡ frames) × (rest_of bytes ≡ rest) }
{}

/// A record's text depends on the records up to it alone, whatever the inner messages are.
pub fn text_grows<I: NetlinkSerializable + NetlinkDeserializable>()
    ensures { TextGrows (format_of I.reads I.kind I.text I.fitting) }
{}
