//! Maps and sets of prefixes, as tries of nodes of five levels, and the views of them, after the crate
//! prefix-trie.
#![tactic(auto)]

mod laws;
mod map;
mod masks;
mod node;
mod prefix;
mod prefixes;
mod set;
mod trie_ref;
mod view;
mod walk;

pub use laws::{
    children_have_entries, contains_is_order, one_list_in_order, order_is_total,
    walk_gives_the_list,
};
pub use map::PrefixMap;
pub use masks::{
    child_bit, child_cover_mask, child_cover_mask_for_bit, data_bit, data_cover_mask,
    data_cover_mask_for_bit, data_lpm_mask, extend_repr, reconstruct_prefix,
};
pub use nl_core::TryClone;
pub use node::{Start, Steps};
pub use prefix::{KeyBits, PlainPrefix, Prefix, lies_in, mask_from_prefix_len};
pub use set::PrefixSet;
pub use trie_ref::TrieRef;
pub use view::{AsView, CloneView, TrieView};
pub use walk::ViewIter;
