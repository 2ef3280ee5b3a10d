//! Views composed of views, after the crate prefix-trie. Each is a view itself, whose laws follow from the
//! laws of its parts, so that any nesting holds.
#![tactic(auto)]

mod calls;
mod common;
mod cover;
mod covering_difference;
mod covering_union;
mod difference;
mod find;
mod intersection;
mod iters;
mod longest;
mod longest_match;
mod own;
mod pairs;
mod side;
mod union;

pub use calls::ViewCalls;
pub use covering_difference::CoveringDifferenceView;
pub use covering_union::{CloneViewPairs, CoveringUnionView};
pub use difference::DifferenceView;
pub use intersection::IntersectionView;
pub use iters::{KeysIter, ValuesIter};
pub use pairs::ViewPairs;
pub use union::UnionView;
pub use view_model::{CoveringUnionItem, UnionItem};
