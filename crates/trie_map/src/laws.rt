//! Laws of prefixes, of their order, of lists in this order, and of whole walks. Each function says a
//! law by its contract, and all but the last do nothing.

ghost use Rattle.std.specs.Prelude.{◌≡◌, ◌<◌, ◌≤◌, IfOk, true};
ghost use Rattle.std.specs.List.{All};
ghost use Rattle.trie_model.specs.Spots.{KeysAreInOrder, AreOneWhereKeysAre};
ghost use Rattle.trie_model.specs.Nets.{covers, masked, AreOneWhereBothCover, CoversThrough};
ghost use Rattle.trie_model.specs.Views.{EachChildHasPair};
ghost use Rattle.trie_model.specs.Walks.{HasOneList, GivesListOf};
ghost use Rattle.trie_map.specs.TrieRefs.{ref_value};

use crate::prefix::PlainPrefix;
use crate::trie_ref::TrieRef;
use crate::view::TrieView;
use crate::walk::ViewIter;
use nl_core::NoMemory;
use std::alloc::Global;

/// Of the prefixes without host bits, "contains" is a partial order.
pub fn contains_is_order<P: PlainPrefix>(a: &P, b: &P, c: &P)
    requires a { (P.net a.now).len ≤ P.Number.width }
    requires b { (P.net b.now).len ≤ P.Number.width }
    requires c { (P.net c.now).len ≤ P.Number.width }
    ensures reflexive { covers P.Number.width (P.net a.now) (P.net a.now) ≡ true }
    ensures antisymmetric { AreOneWhereBothCover P.Number.width (P.net a.now) (P.net b.now) }
    ensures transitive { CoversThrough P.Number.width (P.net a.now) (P.net b.now) (P.net c.now) }
{
    let _number = a.number();
    let _number = b.number();
}

/// The order of the prefixes without host bits is by bits, then by length, and it is total.
pub fn order_is_total<P: PlainPrefix>(a: &P, b: &P)
    requires a { (P.net a.now).len ≤ P.Number.width }
    requires b { (P.net b.now).len ≤ P.Number.width }
    ensures before { KeysAreInOrder P.Number.width (P.net a.now) (P.net b.now) }
    ensures same { AreOneWhereKeysAre P.Number.width (P.net a.now) (P.net b.now) }
{}

/// A view's pairs have one list in strictly ascending order.
pub fn one_list_in_order<'a, V: TrieView<'a>>(view: &V)
    ensures { HasOneList V.P.Number.width (V.told view.now).at }
{
    let _view = view;
}

/// Below each child bit of a view of a map or set an entry lies inside the view. The laws of views say
/// the converse.
pub fn children_have_entries<'a, P: PlainPrefix, T>(view: &TrieRef<'a, P, T>)
    requires { ⟦<TrieRef<'a, P, T> as TrieView<'a>>⟧.valid view.now }
    ensures { EachChildHasPair P.Number.width (ref_value P.Number.number P.Number.width view.now) }
{
    let _view = view;
}

/// The whole walk of a view gives the list of the view in strictly ascending order, and ends. No prefix
/// of it has a host bit.
pub fn walk_gives_the_list<'a, V: TrieView<'a>>(
    alloc: Global,
    view: V,
) -> Result<Vec<(V::P, V::T)>, NoMemory>
    requires { V.valid view }
    ensures masked { IfOk result (λ pairs. All (λ p. V.P.raw p.0 ≡ (V.P.net p.0).bits) pairs.items) }
    ensures list { IfOk result (λ pairs. GivesListOf V.P.Number.width V.P.net V.item (V.told view).at pairs.items) }
{
    let mut walk = ViewIter::new(alloc, view)?;
    let mut pairs = Vec::new(alloc);
    'pairs: while let Some(pair) = walk.next() {
        pairs.push(pair?)?;
    }
    Ok(pairs)
}
