//! Views of maps and sets of prefixes, and views composed of views, after the crate prefix-trie: all that
//! a user of views names stands here.
#![tactic(auto)]

mod laws;

pub use laws::{
    covering_difference_is_outside, covering_union_is_union, difference_is_what_is_left,
    intersection_is_what_both_have, union_is_what_either_has, union_shows_both,
};
pub use trie_adapters::{
    ClonedCalls, ClonedView, CopiedCalls, CopiedView, EqualViews, FilterCalls, FilterView,
    MapCalls, MapView,
};
pub use trie_json::{
    JsonItem, JsonRefusal, map_from_json, map_reads_back, map_to_json, set_from_json,
    set_reads_back, set_to_json,
};
pub use trie_map::{
    AsView, CloneView, KeyBits, PlainPrefix, Prefix, PrefixMap, PrefixSet, Start, Steps, TrieRef,
    TrieView, TryClone, ViewIter, children_have_entries, one_list_in_order, walk_gives_the_list,
};
pub use trie_sets::{
    CloneViewPairs, CoveringDifferenceView, CoveringUnionItem, CoveringUnionView, DifferenceView,
    IntersectionView, KeysIter, UnionItem, UnionView, ValuesIter, ViewCalls, ViewPairs,
};

#[cfg(test)]
mod tests;
