//! Views of tries with mapped, copied, cloned and filtered items, and the equality of views.
#![tactic(auto)]

mod calls;
mod cloned;
mod copied;
mod equal;
mod filter;
mod kept;
mod map;

pub use calls::{ClonedCalls, CopiedCalls, MapCalls};
pub use cloned::ClonedView;
pub use copied::CopiedView;
pub use equal::EqualViews;
pub use filter::{FilterCalls, FilterView};
pub use map::MapView;
