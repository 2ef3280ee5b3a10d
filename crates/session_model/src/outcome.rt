//! What a run reports, and why it ends early.
ghost use Rattle.std.specs.Prelude.{◌≡◌};
ghost use Rattle.session_model.specs.declared.outcome.RunFault.TheVariants.{NoMemory as OutOfMemory};

use nl_core::NoMemory;
use std::alloc::{AllocError, AllocFailed};
use thiserror::Error;

/// What a run reports of its records: how many there were, how many messages arrived (overruns included), how many
/// unreadable frames and rests were dropped, how many streams are still open, and whether the mirror is in step.
#[derive(Clone, Copy, Debug, PartialEq, Eq)]
pub struct Report {
    pub lines: u64,
    pub messages: u64,
    pub dropped: u64,
    pub still_open: u64,
    pub in_step: bool,
}

/// Why a run ended early. `at` is the place in the input, from 0, of the first byte of the record at fault.
#[derive(Clone, Copy, Debug, PartialEq, Eq, Error)]
pub enum RunFault {
    #[error("the line at byte {at} is no record")]
    BadRecord { at: u64 },
    #[error("the record at byte {at} comes after a close")]
    Closed { at: u64 },
    #[error("the record at byte {at} needs more sequence numbers than are left")]
    SequenceExhausted { at: u64 },
    #[error("a frame of the record at byte {at} does not fit")]
    Unfit { at: u64 },
    #[error("the input is longer than its limit")]
    Limit,
    #[error("the input could not be read")]
    ReadFault,
    #[error("the output could not be written")]
    WriteFault,
    #[error("out of memory")]
    NoMemory,
}

impl From<NoMemory> for RunFault {
    ghost from_gives = { λ _ e. e ≡ OutOfMemory };

    fn from(_: NoMemory) -> Self {
        RunFault::NoMemory
    }
}

impl From<AllocError> for RunFault {
    ghost from_gives = { λ _ e. e ≡ OutOfMemory };

    fn from(_: AllocError) -> Self {
        RunFault::NoMemory
    }
}

impl<T: Drop> From<AllocFailed<T>> for RunFault {
    ghost from_gives = { λ _ e. e ≡ OutOfMemory };

    fn from(_: AllocFailed<T>) -> Self {
        RunFault::NoMemory
    }
}
