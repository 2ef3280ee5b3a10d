//! Tests of `mirror`, through its public calls. In a crate of their own, so that its proofs are checked once.
#![tactic(auto)]

#[cfg(test)]
mod tests;
