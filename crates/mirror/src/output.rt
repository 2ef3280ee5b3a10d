//! Writing to a sink, under the faults of a run.
ghost use Rattle.std.specs.Prelude.{◌≡◌, ◌≤◌, OnOk, OnErr, IfErr, Err};
ghost use Rattle.transcript_io.specs.Io.{GainedSome, HasRisen, with_back};
ghost use Rattle.mirror.specs.Faults.{IsOutputFault};

use session_model::RunFault;
use transcript_io::{Sink, WriteError, write_all};

/// Writes all of a text. WriteFault comes only where the sink's count of faults rose in this call; after it or NoMemory
/// the sink has gained some first bytes of the text.
pub fn write_text<K: Sink>(out: &mut K, text: &[u8]) -> Result<(), RunFault>
    ensures ok { OnOk result (K.written out.new ≡ with_back (K.written out.old) text.now) }
    ensures part { OnErr result (GainedSome (K.written out.old) (K.written out.new) text.now) }
    ensures cause { result ≡ Err RunFault.WriteFault → HasRisen (K.faults out.old) (K.faults out.new) }
    ensures only { IfErr result IsOutputFault }
    ensures later { K.faults out.old ≤ K.faults out.new }
{
    match write_all(out, text) {
        Ok(()) => Ok(()),
        Err(WriteError::Failed) => Err(RunFault::WriteFault),
        Err(WriteError::NoMemory) => Err(RunFault::NoMemory),
    }
}
