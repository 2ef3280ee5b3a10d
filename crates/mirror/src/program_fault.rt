//! Why the program ends with another status than 0.
ghost use Rattle.std.specs.Prelude.{◌≡◌};
ghost use Rattle.mirror.specs.declared.program_fault.ProgramFault.TheVariants.{Run as RunEnded};

use session_model::RunFault;

/// Why the program ends with another status than 0: the words are not the program's, or a run or the writing of its
/// report came to a fault.
#[derive(Clone, Copy, Debug, PartialEq, Eq)]
pub enum ProgramFault {
    OtherWords,
    Run(RunFault),
}

impl From<RunFault> for ProgramFault {
    ghost from_gives = { λ fault e. e ≡ RunEnded fault };

    fn from(fault: RunFault) -> Self {
        ProgramFault::Run(fault)
    }
}

impl ProgramFault {
    ghost use Rattle.mirror.specs.Cli.{program_status};

    /// The exit status: 1 for other words, and 2 to 9 for the faults of a run, in their order.
    pub fn status(self) -> u8
        ensures { result ≡ program_status self }
    {
        match self {
            ProgramFault::OtherWords => 1,
            ProgramFault::Run(RunFault::BadRecord { .. }) => 2,
            ProgramFault::Run(RunFault::Closed { .. }) => 3,
            ProgramFault::Run(RunFault::SequenceExhausted { .. }) => 4,
            ProgramFault::Run(RunFault::Unfit { .. }) => 5,
            ProgramFault::Run(RunFault::Limit) => 6,
            ProgramFault::Run(RunFault::ReadFault) => 7,
            ProgramFault::Run(RunFault::WriteFault) => 8,
            ProgramFault::Run(RunFault::NoMemory) => 9,
        }
    }
}
