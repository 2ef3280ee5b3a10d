//! The laws of a session: what its state is after events, and what one more event does to it. There is no code.
#![tactic(auto)]
