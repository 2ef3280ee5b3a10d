//! Views of tries: a place, and the pairs that lie there, told by the bits of one node.

ghost use Rattle.std.specs.Prelude.{◌≡◌, ℕ, ◌+◌, ◌≤◌, IsTrue, IfOk, IsOk};
ghost use Rattle.std.specs.Result.{OnOk};
ghost use Rattle.std.specs.Int.{bit_at};
ghost use Rattle.trie_model.specs.Views.{ViewValue, ShowSame, IsView, TookData, TookChild, IsChild, depth_at, HasAtBit, CanMoveTo, MoveTo};

use crate::node::Steps;
use crate::prefix::PlainPrefix;
use nl_core::NoMemory;

/// A place in a trie, and the pairs that a view has there, as in the crate prefix-trie. A getter
/// takes its pairs out of the view.
pub trait TrieView<'a>: Sized + Drop {
    type P: PlainPrefix;

    type T: Drop;

    /// What contracts see of an item.
    ghost Item: { Type 0 };

    ghost item: { Self.T → Item };

    /// Whether the view may be used. After a call that ran out of memory nothing is said of it.
    ghost valid: { Self → Type 0 };

    /// The place, the bitmaps and the pairs.
    ghost told: { Self → ViewValue Item };

    /// How many nodes a step down reads at most.
    ghost cost: { ℕ };

    /// The depth of the place's node in bits, a multiple of 5.
    fn depth(&self) -> u32
        requires { valid self.now }
        ensures { result ≡ depth_at (told self.now).place.len };

    /// The bits of the place.
    fn key(&self) -> <Self::P as PlainPrefix>::Number
        requires { valid self.now }
        ensures { Self.P.Number.number result ≡ (told self.now).place.bits };

    /// The length of the place in bits.
    fn prefix_len(&self) -> u32
        requires { valid self.now }
        ensures { result ≡ (told self.now).place.len };

    /// The data bits whose prefixes have a pair here.
    fn data_bitmap(&self) -> u32
        requires { valid self.now }
        ensures { result ≡ (told self.now).data_bits };

    /// The children below which a pair may be.
    fn child_bitmap(&self) -> u32
        requires { valid self.now }
        ensures { result ≡ (told self.now).child_bits };

    /// Takes the item of a set data bit out.
    fn get_data(&mut self, bit: u32) -> Result<Self::T, NoMemory>
        requires usable { valid self.old }
        requires set { bit_at (told self.old).data_bits bit ≡ 1 }
        ensures data { IfOk result (λ x. HasAtBit Self.P.Number.width bit (told self.old) (item x)) }
        ensures usable { OnOk result (valid self.new) }
        ensures rest { OnOk result (TookData Self.P.Number.width bit (told self.old) (told self.new)) }
        ensures frugal { IsTrue (told self.old).frugal → IsOk result };

    /// Takes the child of a set child bit out, as a view of its own. It counts the nodes that it reads.
    fn get_child<S>(&mut self, bit: u32, steps: &mut Steps<S>) -> Result<Self, NoMemory>
        requires usable { valid self.old }
        requires set { bit_at (told self.old).child_bits bit ≡ 1 }
        ensures child { IfOk result (λ c. valid c × IsChild Self.P.Number.width bit (told self.old) (told c)) }
        ensures usable { OnOk result (valid self.new) }
        ensures rest { OnOk result (TookChild Self.P.Number.width bit (told self.old) (told self.new)) }
        ensures forward { steps.old ≤ steps.new }
        ensures cost { steps.new ≤ steps.old + cost }
        ensures frugal { IsTrue (told self.old).frugal → IsOk result };

    /// Narrows the view to a place inside its own, in the same node.
    fn reposition(&mut self, key: <Self::P as PlainPrefix>::Number, prefix_len: u32)
        requires usable { valid self.old }
        requires place { CanMoveTo Self.P.Number.width (told self.old) (Self.P.Number.number key) prefix_len }
        ensures usable { valid self.new }
        ensures moved { MoveTo Self.P.Number.width (Self.P.Number.number key) prefix_len told self.old self.new };

    /// Whether the view takes no memory.
    fn frugal(&self) -> bool
        requires { valid self.now }
        ensures { result ≡ (told self.now).frugal };

    /// Every view keeps the laws.
    ghost laws: { (v : Self) → valid v → IsView Self.P.Number.width (told v) };

    /// What contracts see of an item is seen of some item.
    ghost onto: { (x : Item) → (t : Self.T) × (item t ≡ x) };
}

/// A view that can be had again.
pub trait CloneView<'a>: TrieView<'a> {
    /// An equal view, or out of memory. A frugal view takes none. A view that keeps a cache holds it in
    /// a type with a model of its own, so that a copy is equal whatever its cache holds.
    fn clone_view(&self) -> Result<Self, NoMemory>
        ensures equal { IfOk result (λ copy. copy ≡ self.now) }
        ensures frugal { IsTrue (Self.told self.now).frugal → IsOk result };
}

/// What can be seen as a view: a reference to a map or a set, and each view.
pub trait AsView<'a>: Sized {
    type View: TrieView<'a>;

    /// Whether it may be seen.
    ghost can_view: { Self → Type 0 };

    /// Whether a view stands for it: at its place, with exactly its pairs.
    ghost stands_for: { Self.View → Self → Type 0 };

    /// The view.
    fn view(self) -> Self::View
        requires { can_view self }
        ensures usable { Self.View.valid result }
        ensures stands { stands_for result self };

    /// The views that stand for one value are at one place and have the same pairs.
    ghost stands_law: { (a b : Self.View) (v : Self) → stands_for a v → stands_for b v
        → ShowSame (Self.View.told a) (Self.View.told b) };
}
