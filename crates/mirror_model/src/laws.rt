// The laws of the definitions, each the contract of a function that does nothing. `specs/Laws.antt` says them in full.
ghost use Rattle.std.specs.declared.cmp.Ordering.{Ordering};
ghost use Rattle.nl_core.specs.Frames.{Format};
ghost use Rattle.mirror_model.specs.Tables.{Tables, AreMaps};
ghost use Rattle.mirror_model.specs.Sessions.{Reader};
ghost use Rattle.mirror_model.specs.Lookups.{Readers};
ghost use Rattle.mirror_model.specs.Laws.{Converges, ConvergesExactly, IsStateOfEvents};
ghost use Rattle.mirror_model.specs.Laws.{SuitsSessions, ClosesAsShut, RecordsAskAlone};
ghost use Rattle.mirror_model.specs.Laws.{IgnoresOthers, ConvergesInSessions, AnswersBest, BlocksBySteps, BlocksAsSet};
ghost use Rattle.mirror_model.specs.OutputText.{IsSessionText, OutputGrows};
ghost use Rattle.session_model.specs.declared.settings.Settings.{Settings};
ghost use Rattle.mirror_model.specs.Laws.{AnswersAsPeer, AnswersByState, OutputAsPeer, WholeByTest, StepsAsHandled, Grows};

/// Wherever a mirror has a table in force, it is its peer's table there, as long as the peer is honest.
pub fn converges<T, K, V>()
    ensures { (o : Tables T K V) → AreMaps o → Converges o }
{}

/// The same over finite maps, where the tables are equal.
pub fn converges_exactly<K, V>()
    ensures { (order : K → K → Ordering) → ConvergesExactly V order }
{}

/// A mirror that takes one event after another is in the state that the whole list of events gives.
pub fn is_afresh<T, K, V>()
    ensures { (o : Tables T K V) → IsStateOfEvents o }
{}

/// A session never asks a dump twice under one stream, gives a dump that has ended no reply, and closes where its link
/// does. Records ask each dump alone.
pub fn suits_sessions<M, K, V>()
    ensures orderly { (r : Reader M K V) → SuitsSessions r }
    ensures closed { (r : Reader M K V) → ClosesAsShut r }
    ensures alone { (r : Reader M K V) (f : Format M) → RecordsAskAlone r f }
{}

/// A mirror that is told how its session handled an arrival takes the step of that arrival; and one event more is one
/// step more.
pub fn steps_as_handled<M, T, K, V>()
    ensures step { (r : Reader M K V) (o : Tables T K V) → StepsAsHandled r o }
    ensures grows { (r : Reader M K V) (o : Tables T K V) → Grows r o }
{}

/// A reply of a stream that no running dump has changes nothing.
pub fn ignores_others<T, K, V>()
    ensures { (o : Tables T K V) → IgnoresOthers o }
{}

/// At each place of a session where a mirror is in step, the table there is the peer's, as long as the peer is honest.
pub fn converges_in_sessions<M, K, V>()
    ensures { (r : Reader M K V) (order : K → K → Ordering) → ConvergesInSessions r order }
{}

/// A mirror that took a session's events one after another answers what the definitions say at their place.
pub fn answers_by_state<M>()
    ensures { (r : Readers M) → AnswersByState r }
{}

/// A look-up that isn't stale answers by the peer's own tables, as long as the peer is honest.
pub fn answers_as_peer<M>()
    ensures { (r : Readers M) → AnswersAsPeer r }
{}

/// The text of records is that in which the peer's own tables answer wherever a mirror is in step, as long as the peer is
/// honest.
pub fn output_as_peer<M>()
    ensures { (r : Readers M) (f : Format M) → OutputAsPeer r f }
{}

/// The answer is a route that may answer, with none better that may; or none may.
pub fn answers_best()
    ensures { AnswersBest }
{}

/// One event more unblocks what it unblocks, and then blocks what it blocks; and an answer depends on which networks are
/// blocked, not on how they are listed.
pub fn blocks_by_steps<M>()
    ensures step { BlocksBySteps M }
    ensures set { BlocksAsSet }
{}

/// A record's text depends on the records up to it alone; and where no record looks anything up, the text is the session's.
pub fn output_grows<M>()
    ensures grows { (f : Format M) (s : Settings) (r : Readers M) → OutputGrows f s r }
    ensures session { (f : Format M) (s : Settings) (r : Readers M) → IsSessionText f s r }
{}

/// What is asked of a dump's replies can be tested key by key.
pub fn whole_by_test<T, K, V>()
    ensures { (o : Tables T K V) → WholeByTest o }
{}
