//! What views composed of views mean: the items of unions, the sides of a view, and the pairs of each operation.
//! The definitions stand in specs/, their lemmas in proofs/; the only functions are those of a union's items.
#![tactic(auto)]

mod items;

pub use items::{CoveringUnionItem, UnionItem};
