//! The equality of views, as one pass over two walks.

ghost use Rattle.std.specs.Prelude.{◌≡◌, ◌↔◌, IsTrue, IfOk};
ghost use Rattle.trie_adapters.specs.Equal.{Accepts, AnswersByBoth, AreEqualBy, HaveSameKeys};

use nl_core::NoMemory;
use std::alloc::Global;
use trie_map::{KeyBits, PlainPrefix, TrieView, ViewIter};

// Whether two prefixes without host bits are one.
fn same_prefix<P: PlainPrefix>(a: &P, b: &P) -> bool
    requires a { P.raw a.now ≡ (P.net a.now).bits }
    requires b { P.raw b.now ≡ (P.net b.now).bits }
    ensures { IsTrue result ↔ (P.net a.now ≡ P.net b.now) }
{
    let one = a.raw_number();
    let other = b.raw_number();
    a.length() == b.length() && one.is_at_most(other) && other.is_at_most(one)
}

// Accepts all items.
fn any_items<S: Drop, T: Drop>(_: S, _: T) -> bool
    ensures { IsTrue result }
{
    true
}

// Whether both views have the same prefixes, whose items the function accepts.
fn equal_by<'a, L: TrieView<'a>, R: TrieView<'a, P = L::P>, F: Fn(L::T, R::T) -> bool>(
    alloc: Global,
    left: L,
    right: R,
    accepts: F,
) -> Result<bool, NoMemory>
    requires left { L.valid left }
    requires right { R.valid right }
    requires callable { F.IsAlwaysCallable accepts }
    requires answers { AnswersByBoth L.item R.item (F.post accepts) }
    ensures { IfOk result (λ same. IsTrue same
        ↔ AreEqualBy (Accepts L.item R.item (F.post accepts)) (L.told left).at (R.told right).at) }
{
    let mut left_walk = ViewIter::new(alloc, left)?;
    let mut right_walk = ViewIter::new(alloc, right)?;
    'pairs: while let Some(left_pair) = left_walk.next() {
        let (prefix, item) = left_pair?;
        let Some(right_pair) = right_walk.next() else {
            return Ok(false);
        };
        let (other_prefix, other_item) = right_pair?;
        if !same_prefix(&prefix, &other_prefix) {
            return Ok(false);
        }
        if !accepts(item, other_item) {
            return Ok(false);
        }
    }
    match right_walk.next() {
        None => Ok(true),
        Some(last_pair) => {
            last_pair?;
            Ok(false)
        }
    }
}

/// The equality of a view with a second one of the same prefixes.
pub trait EqualViews<'a, R: TrieView<'a, P = <Self as TrieView<'a>>::P>>: TrieView<'a> {
    /// Whether both have pairs of the same prefixes. It takes the room of both walks.
    fn eq_keys(self, alloc: Global, other: R) -> Result<bool, NoMemory>
        requires usable { Self.valid self }
        requires other { R.valid other }
        ensures { IfOk result (λ same. IsTrue same ↔ HaveSameKeys (Self.told self).at (R.told other).at) };

    /// Whether both have pairs of the same prefixes, and the function accepts the items of each. It has to
    /// answer as a function of what contracts see of both items.
    fn eq_by<F: Fn(Self::T, R::T) -> bool>(
        self,
        alloc: Global,
        other: R,
        f: F,
    ) -> Result<bool, NoMemory>
        requires usable { Self.valid self }
        requires other { R.valid other }
        requires callable { F.IsAlwaysCallable f }
        requires answers { AnswersByBoth Self.item R.item (F.post f) }
        ensures { IfOk result (λ same. IsTrue same
            ↔ AreEqualBy (Accepts Self.item R.item (F.post f)) (Self.told self).at (R.told other).at) };
}

impl<'a, V: TrieView<'a>, R: TrieView<'a, P = V::P>> EqualViews<'a, R> for V {
    fn eq_keys(self, alloc: Global, other: R) -> Result<bool, NoMemory> {
        equal_by(alloc, self, other, any_items)
    }

    fn eq_by<F: Fn(Self::T, R::T) -> bool>(
        self,
        alloc: Global,
        other: R,
        f: F,
    ) -> Result<bool, NoMemory> {
        equal_by(alloc, self, other, f)
    }
}
