//! The law of the definitions, the contract of a function that does nothing. `specs/Laws.antt` says it in full.
ghost use Rattle.nl_core.specs.Frames.{Format};
ghost use Rattle.transcript_generator.specs.Laws.{IsValidInput};

/// A generated text of at most 400,000 routes is a valid input under the usual settings.
pub fn generated_is_valid<M>()
    ensures { (f : Format M) → IsValidInput f }
{}
