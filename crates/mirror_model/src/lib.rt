//! What a mirror of a peer's routes means: what changes its table, which dumps are clean, when it is in step, and what
//! it answers. `src/` has the plain types that the definitions speak of, and the laws; `specs/` has the definitions,
//! `proofs/` the lemmas on them.
//!
//! The order to read specs/ in: `Tables` (tables and changes), `TableEvents` (what a table sees of a session), `Clean`
//! (clean dumps, in step, the table at a place), `MirrorState` (the same step by step), `Sessions` (what the events of a
//! session are to a table, losses among them), `Routes` and `Blocked` (which route answers), `Lookups` (the answer at a
//! place), `RouteChanges` (what a message changes), `Honest` (what is asked of a peer), `Laws` (what is proved).
//! `FiniteTables` has the tables of finite maps, `Orderly` what a session's events keep to, and `Example` computes short
//! histories from the definitions alone.
#![tactic(auto)]

mod answer;
mod laws;
mod route;

pub use answer::Answer;
pub use laws::{
    answers_as_peer, answers_best, answers_by_state, blocks_by_steps, converges, converges_exactly,
    converges_in_sessions, ignores_others, is_afresh, output_as_peer, output_grows,
    steps_as_handled, suits_sessions, whole_by_test,
};
pub use route::Route;
pub use session_model::{Address, Network};
