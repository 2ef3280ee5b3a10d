//! Laws of the definitions that the contract of `run` cites, each the contract of a function that does nothing.
ghost use Rattle.std.specs.Prelude.{◌≡◌, List, ℕ};
ghost use Rattle.session_model.specs.Causes.{HasCause, IsValid};
ghost use Rattle.session_model.specs.declared.outcome.RunFault.{RunFault};
ghost use Rattle.session_model.specs.declared.settings.Settings.{Settings};
ghost use Rattle.session_model.specs.declared.transcript.Record.{Record};
ghost use Rattle.mirror.specs.Format.{IsEntry, format};
ghost use Rattle.mirror.specs.Options.{SpellSettings};

/// An input has at most one outcome: two causes of it are one cause after the same records, a valid input has no cause,
/// and a valid input is the lines of one list of records. So where no count of faults rises, and memory is there, `run`
/// answers Ok exactly for a valid input, and every other fault exactly where it is the cause.
pub fn one_outcome()
    ensures one_cause { (s : Settings) (input : List ℕ) (rs others : List Record) (fault other : RunFault)
        → HasCause format s IsEntry input rs fault → HasCause format s IsEntry input others other
        → (rs ≡ others) × (fault ≡ other) }
    ensures valid_or_caused { (s : Settings) (input : List ℕ) (rs others : List Record) (fault : RunFault)
        → IsValid format s IsEntry input rs → HasCause format s IsEntry input others fault → ⊥ }
    ensures one_reading { (s : Settings) (input : List ℕ) (rs others : List Record)
        → IsValid format s IsEntry input rs → IsValid format s IsEntry input others → rs ≡ others }
{}

/// Words spell at most one settings.
pub fn one_settings()
    ensures { (words : List (List ℕ)) (s t : Settings) → SpellSettings words s → SpellSettings words t → s ≡ t }
{}
