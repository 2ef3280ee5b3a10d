//! Maps and sets of prefixes in JSON.
#![tactic(auto)]

mod bits;
mod hex_digits;
mod item;
mod map;
mod prefix;
mod refusal;
mod set;

pub use item::JsonItem;
pub use map::{map_from_json, map_reads_back, map_to_json};
pub use refusal::JsonRefusal;
pub use set::{set_from_json, set_reads_back, set_to_json};
