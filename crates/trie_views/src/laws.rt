//! What each operation on two views means, as laws over the pairs that the calls promise. Each function
//! says a law by its contract, and does nothing.

ghost use Rattle.view_model.specs.Laws.{CoveringDifferenceHasWhatIsOutside, CoveringUnionIsUnion};
ghost use Rattle.view_model.specs.Laws.{DifferenceHasWhatIsLeft};
ghost use Rattle.view_model.specs.Laws.{IntersectionHasWhatBothHave, UnionLacksWhatBothLack, UnionShowsBoth};
ghost use Rattle.view_model.proofs.Laws.{covering_difference_has, covering_is_union, difference_has};
ghost use Rattle.view_model.proofs.Laws.{intersection_has, union_lacks, union_shows};

use trie_map::TrieView;

/// A union has a prefix where either view has it: it lacks one exactly where both lack it.
pub fn union_is_what_either_has<'a, L: TrieView<'a>, R: TrieView<'a, P = L::P>>(left: &L, right: &R)
    ensures { UnionLacksWhatBothLack (L.told left.now) (R.told right.now) }
{
    let _left = left;
    let _right = right;
}

/// An item of a union has exactly the items that its prefix has in the views.
pub fn union_shows_both<'a, L: TrieView<'a>, R: TrieView<'a, P = L::P>>(left: &L, right: &R)
    requires left { L.valid left.now }
    requires right { R.valid right.now }
    ensures { UnionShowsBoth (L.told left.now) (R.told right.now) }
{
    let _left = left;
    let _right = right;
}

/// An intersection has a prefix exactly where both views have it.
pub fn intersection_is_what_both_have<'a, L: TrieView<'a>, R: TrieView<'a, P = L::P>>(
    left: &L,
    right: &R,
)
    ensures { IntersectionHasWhatBothHave (L.told left.now) (R.told right.now) }
{
    let _left = left;
    let _right = right;
}

/// A difference has a prefix exactly where the first view has it and the second lacks it.
pub fn difference_is_what_is_left<'a, L: TrieView<'a>, R: TrieView<'a, P = L::P>>(
    left: &L,
    right: &R,
)
    ensures { DifferenceHasWhatIsLeft (L.told left.now) (R.told right.now) }
{
    let _left = left;
    let _right = right;
}

/// A covering difference has a prefix exactly where the first view has it and no prefix of the second
/// contains it. A prefix contains itself.
pub fn covering_difference_is_outside<'a, L: TrieView<'a>, R: TrieView<'a, P = L::P>>(
    left: &L,
    right: &R,
)
    ensures { CoveringDifferenceHasWhatIsOutside L.P.Number.width (L.told left.now) (R.told right.now) }
{
    let _left = left;
    let _right = right;
}

/// Without the longest pairs of the other view, a covering union has pairs of the union alone.
pub fn covering_union_is_union<'a, L: TrieView<'a>, R: TrieView<'a, P = L::P>>(left: &L, right: &R)
    ensures { CoveringUnionIsUnion L.P.Number.width L.P.net L.P.raw (L.told left.now) (R.told right.now) }
{
    let _left = left;
    let _right = right;
}
