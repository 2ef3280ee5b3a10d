//! Where bytes go to.
ghost use Rattle.std.specs.Prelude.{◌≡◌, ◌≢◌, ◌<◌, ◌≤◌, Err, List, OnErr, OnOk, Option, Some, length, ℕ};
ghost use Rattle.transcript_io.specs.Io.{DidWrite, GainedSome, HasRisen, with_back};

use thiserror::Error;

/// The answer of a write: so many of the first bytes were taken, or none, since the write failed or memory ran out.
#[derive(Clone, Copy, Debug, PartialEq, Eq)]
pub enum Wrote {
    Took(usize),
    Failed,
    NoMemory,
}

/// Why a text was not written whole.
#[derive(Clone, Copy, Debug, PartialEq, Eq, Error)]
pub enum WriteError {
    /// The sink failed.
    #[error("the sink failed")]
    Failed,
    /// The sink ran out of memory.
    #[error("out of memory")]
    NoMemory,
}

/// Where bytes go to.
pub trait Sink {
    // The bytes that were written, where the sink tells them.
    ghost written: { Self → Option (List ℕ) };

    // How often it has failed.
    ghost faults: { Self → ℕ };

    /// Writes the first bytes of a piece that isn't empty. `Took` takes at least one byte; `Failed` comes only where the
    /// count of faults rose in this call, and it and `NoMemory` take nothing.
    fn write(&mut self, piece: &[u8]) -> Wrote
        requires { 0 < length piece.now }
        ensures wrote { DidWrite (written self.old) result piece.now (written self.new) }
        ensures cause { result ≡ Wrote.Failed → HasRisen (faults self.old) (faults self.new) }
        ensures later { faults self.old ≤ faults self.new };
}

/// Writes all of a text. An error leaves some first bytes of it written. `Failed` comes only where the sink's count of
/// faults rose in this call.
pub fn write_all<K: Sink>(out: &mut K, text: &[u8]) -> Result<(), WriteError>
    ensures ok { OnOk result (K.written out.new ≡ with_back (K.written out.old) text.now) }
    ensures part { OnErr result (GainedSome (K.written out.old) (K.written out.new) text.now) }
    ensures cause { result ≡ Err WriteError.Failed → HasRisen (K.faults out.old) (K.faults out.new) }
    ensures later { K.faults out.old ≤ K.faults out.new }
{
    let mut rest = text;
    while !rest.is_empty() {
        match out.write(rest) {
            Wrote::Took(count) => {
                let (_, later) = rest.split_at(count);
                rest = later;
            }
            Wrote::Failed => return Err(WriteError::Failed),
            Wrote::NoMemory => return Err(WriteError::NoMemory),
        }
    }
    Ok(())
}

// A vector takes all that is written to it at once, and fails only where memory runs out.
impl Sink for Vec<u8> {
    ghost written = { λ v. Some v.items };

    ghost faults = { λ v. 0 };

    /// As every sink, and it takes the whole piece.
    fn write(&mut self, piece: &[u8]) -> Wrote
        requires { 0 < length piece.now }
        ensures wrote { DidWrite (Some self.old.items) result piece.now (Some self.new.items) }
        ensures never { result ≢ Wrote.Failed }
        ensures amount { (n : ℕ) → result ≡ Wrote.Took n → n ≡ length piece.now }
    {
        match self.extend_from_slice(piece) {
            Ok(()) => Wrote::Took(piece.len()),
            Err(_) => Wrote::NoMemory,
        }
    }
}
