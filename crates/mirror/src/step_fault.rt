//! Why a record isn't taken.
ghost use Rattle.std.specs.Prelude.{◌≡◌};

use nl_core::NoMemory;
use session_model::RunFault;

/// Why a record isn't taken.
#[derive(Clone, Copy, Debug, PartialEq, Eq)]
pub enum StepFault {
    Closed,
    SequenceExhausted,
    Unfit,
    NoMemory,
}

impl From<NoMemory> for StepFault {
    ghost use Rattle.mirror.specs.declared.step_fault.StepFault.TheVariants.{NoMemory};

    ghost from_gives = { λ _ e. e ≡ NoMemory };

    fn from(_: NoMemory) -> Self {
        StepFault::NoMemory
    }
}

impl StepFault {
    ghost use Rattle.mirror.specs.Refusals.{fault_at};

    /// The fault of a run, at the place of the record.
    pub fn at(self, at: u64) -> RunFault
        ensures { result ≡ fault_at self at }
    {
        match self {
            StepFault::Closed => RunFault::Closed { at },
            StepFault::SequenceExhausted => RunFault::SequenceExhausted { at },
            StepFault::Unfit => RunFault::Unfit { at },
            StepFault::NoMemory => RunFault::NoMemory,
        }
    }
}
