//! What a map of prefixes means: prefixes as numbers, the bits of a node, views and their laws, and the walk over a view.
//! The definitions stand in specs/, their lemmas in proofs/; this crate has no functions.
#![tactic(auto)]
