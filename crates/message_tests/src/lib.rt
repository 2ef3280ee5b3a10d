//! Tests of the crates of messages, through their public calls. In a crate of their own, so that the proofs of
//! those crates are checked once.
#![tactic(auto)]

#[cfg(test)]
mod tests;
