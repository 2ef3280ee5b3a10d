//! A finite map of prefixes.

ghost use Rattle.std.specs.Prelude.{◌≡◌, ◌↔◌, ◌+◌, ◌-◌, ◌^◌, ◌<◌, ◌≤◌, [], ⊤, length, min, IsTrue, IsSome, Some, IfOk, IfErr, IfNone, IfSome, OnOk, OnErr, OnSome};
ghost use Rattle.std.specs.Option.{option_copied, option_copied_mut};
ghost use Rattle.trie_model.specs.Inside.{SomeIn};
ghost use Rattle.trie_model.specs.Maps.{inserted, missing, present, removed, value_at};
ghost use Rattle.trie_model.specs.Nets.{Net, IsNet, masked};
ghost use Rattle.trie_model.specs.Views.{Shows, root_place};
ghost use Rattle.trie_model.proofs.Places.{show_same};
ghost use Rattle.trie_model.specs.Walks.{IsListOf, Within};
ghost use Rattle.trie_map.specs.Shape.{node_shape};
ghost use Rattle.trie_map.specs.TrieRefs.{ref_value, CanWalkRef, IsFrugalRefWalk, IsLongestMatch, HasPairsOf, HasPairsIn, WalksFrom, ListsFrom, IsRefAt, ListsAll};

use crate::node::{
    Deepest, Descent, Node, Steps, empty, get_below, insert_below, lpm_below, remove_below,
};
use crate::prefix::PlainPrefix;
use crate::trie_ref::{TrieRef, root_view, view_inside};
use crate::view::{AsView, TrieView};
use crate::walk::ViewIter;
use nl_core::{NoMemory, TryClone};
use std::alloc::Global;
use std::marker::{Model, PhantomData};

/// A finite map from prefixes to values, as in the crate prefix-trie. Contracts see the list of its
/// pairs, in the order of the prefixes: by bits, then by length. The cost of an insert, a removal or a
/// look-up grows with the prefix's length, and not with the number of entries.
#[derive(Drop)]
pub struct PrefixMap<P: PlainPrefix, T> {
    root: Node<T>,
    count: usize,
    alloc: Global,
    of: PhantomData<P>,
}

impl<P: PlainPrefix, T> Model for PrefixMap<P, T> {
    ghost use Rattle.std.specs.Prelude.{List};
    ghost use Rattle.trie_model.specs.Nets.{Net};

    ghost Value = { List (Net × T) };

    ghost use Rattle.trie_map.specs.Shape.{node_shape};
    ghost use Rattle.trie_model.specs.Maps.{MapOk, map_of, pairs};

    ghost view = { λ m. pairs P.Number.width (map_of node_shape P.Number.width m.root) };

    ghost invariant = { λ m. MapOk node_shape P.Number.width m.root m.count };
}

impl<P: PlainPrefix, T> PrefixMap<P, T> {
    /// The map with no entry.
    pub fn new(alloc: Global) -> Self
        ensures { result ≡ [] }
    {
        PrefixMap {
            root: empty(alloc),
            count: 0,
            alloc,
            of: PhantomData,
        }
    }

    /// How many entries there are.
    pub fn len(&self) -> usize
        ensures { result ≡ length self.now }
    {
        self.count
    }

    /// The list of the entries is in order, and each prefix is without host bits. It does nothing.
    pub fn in_order(&self)
        ensures list { IsListOf P.Number.width (Within self.now) self.now }
        ensures nets { (n : Net) (x : T) → Within self.now n x → IsNet P.Number.width n }
    {
        let _count = self.count;
    }

    /// Whether there is no entry.
    pub fn is_empty(&self) -> bool
        ensures { IsTrue result ↔ (self.now ≡ []) }
    {
        self.count == 0
    }

    /// The value of a prefix.
    pub fn get(&self, prefix: &P) -> Option<&T>
        requires { (P.net prefix.now).len ≤ P.Number.width }
        ensures { option_copied result ≡ value_at self.now (P.net prefix.now) }
    {
        let key = prefix.number();
        get_below(
            &self.root,
            0,
            key,
            prefix.length() as u32,
            &mut Steps::start(),
        )
    }

    /// Whether a prefix has a value.
    pub fn contains_key(&self, prefix: &P) -> bool
        requires { (P.net prefix.now).len ≤ P.Number.width }
        ensures { IsTrue result ↔ IsSome (value_at self.now (P.net prefix.now)) }
    {
        self.get(prefix).is_some()
    }

    /// The longest entry whose prefix contains this one, without host bits.
    pub fn get_lpm(&self, prefix: &P) -> Option<(P, &T)>
        requires { (P.net prefix.now).len ≤ P.Number.width }
        ensures longest { IsLongestMatch P.Number.width P.net self.now (P.net prefix.now) result }
        ensures masked { IfSome result (λ r. P.raw r.0 ≡ (P.net r.0).bits) }
    {
        let key = prefix.number();
        match lpm_below(
            &self.root,
            0,
            key,
            prefix.length() as u32,
            &mut Steps::start(),
        ) {
            Some((len, value)) => Some((P::from_number(key, len as u8), value)),
            None => None,
        }
    }

    /// The view of the whole map. It visits the root, and takes no memory.
    pub fn view_counted<'a, L>(&'a self, steps: &mut Steps<L>) -> TrieRef<'a, P, T>
        ensures usable { ⟦<TrieRef<'a, P, T> as TrieView<'a>>⟧.valid result }
        ensures place { IsRefAt P.Number.number P.Number.width root_place result }
        ensures pairs { HasPairsOf P.Number.number P.Number.width self.now result }
        ensures counted { steps.new ≡ min (steps.old + 1) (2 ^ 64 - 1) }
    {
        root_view(&self.root, steps)
    }

    /// The view of the whole map.
    pub fn view<'a>(&'a self) -> TrieRef<'a, P, T>
        ensures usable { ⟦<TrieRef<'a, P, T> as TrieView<'a>>⟧.valid result }
        ensures place { IsRefAt P.Number.number P.Number.width root_place result }
        ensures pairs { HasPairsOf P.Number.number P.Number.width self.now result }
    {
        self.view_counted(&mut Steps::start())
    }

    /// The view of the entries that lie in a prefix, that of the prefix itself among them. None exactly
    /// where no entry lies in it. It takes no memory.
    pub fn view_at<'a>(&'a self, prefix: &P) -> Option<TrieRef<'a, P, T>>
        requires { (P.net prefix.now).len ≤ P.Number.width }
        ensures found { OnSome result (SomeIn P.Number.width (P.net prefix.now) self.now) }
        ensures none { IfNone result (¬ SomeIn P.Number.width (P.net prefix.now) self.now) }
        ensures usable { IfSome result (λ view. ⟦<TrieRef<'a, P, T> as TrieView<'a>>⟧.valid view) }
        ensures place { IfSome result (IsRefAt P.Number.number P.Number.width (P.net prefix.now)) }
        ensures pairs { IfSome result (HasPairsIn P.Number.number P.Number.width (P.net prefix.now) self.now) }
    {
        view_inside(&self.root, prefix)
    }

    /// The walk over the entries, in the order of their prefixes.
    pub fn iter<'a>(&'a self) -> Result<ViewIter<TrieRef<'a, P, T>>, NoMemory>
        ensures usable { IfOk result (CanWalkRef P.Number.number P.Number.width) }
        ensures frugal { IfOk result (IsFrugalRefWalk P.Number.number P.Number.width) }
        ensures list { IfOk result (ListsAll P.Number.number P.Number.width self.now) }
    {
        ViewIter::new(self.alloc, self.view())
    }

    /// The walk over the entries from a prefix on: that of the prefix itself too where `inclusive`, and
    /// those that come after it in the order.
    pub fn iter_from<'a>(
        &'a self,
        prefix: &P,
        inclusive: bool,
    ) -> Result<ViewIter<TrieRef<'a, P, T>>, NoMemory>
        requires { (P.net prefix.now).len ≤ P.Number.width }
        ensures usable { IfOk result (CanWalkRef P.Number.number P.Number.width) }
        ensures frugal { IfOk result (IsFrugalRefWalk P.Number.number P.Number.width) }
        ensures rest { IfOk result (WalksFrom P.Number.number P.Number.width inclusive (P.net prefix.now) self.now) }
        ensures list { IfOk result (ListsFrom P.Number.number P.Number.width inclusive (P.net prefix.now) self.now) }
    {
        ViewIter::starting(self.alloc, self.view(), prefix, inclusive)
    }
}

impl<P: PlainPrefix, T> PrefixMap<P, T> {
    ghost use Rattle.std.specs.Borrow.{Lends, LendsIf, sem};
    ghost use Rattle.trie_map.specs.contracts.map.PrefixMap.{the_row};

    /// The value of a prefix that has one, to be written.
    fn entry_mut(&mut self, prefix: &P) -> &mut T
        requires len { (P.net prefix.now).len ≤ P.Number.width }
        requires there { IsSome (value_at self.old (P.net prefix.now)) }
        ensures* lends { sem 𝓛 (Lends (the_row P.row T.row P.Number.row P.PlainPrefix P.Number.KeyBits) T.row
            self.entry result (inserted P.Number.width self.entry.now (P.net prefix.now))) }
        ensures value { value_at self.old (P.net prefix.now) ≡ Some result.now }
    {
        let key = prefix.number();
        Deepest::lend_item(&mut self.root, 0, key, prefix.length() as u32)
    }

    /// The value of a prefix, to be written: what is left there is the prefix's value then, and all
    /// other entries stay.
    pub fn get_mut(&mut self, prefix: &P) -> Option<&mut T>
        requires { (P.net prefix.now).len ≤ P.Number.width }
        ensures* lends { sem 𝓛 (LendsIf (the_row P.row T.row P.Number.row P.PlainPrefix P.Number.KeyBits) T.row
            self.entry result (inserted P.Number.width self.entry.now (P.net prefix.now)) self.entry.now) }
        ensures value { option_copied_mut result ≡ value_at self.old (P.net prefix.now) }
    {
        if self.contains_key(prefix) {
            Some(self.entry_mut(prefix))
        } else {
            None
        }
    }
}

impl<P: PlainPrefix, T: Drop> PrefixMap<P, T> {
    /// Sets the value of a prefix, and gives the value that was there. All room is taken first: a
    /// refusal changes nothing, and hands the prefix and the value back.
    pub fn insert(&mut self, prefix: P, value: T) -> Result<Option<T>, (NoMemory, P, T)>
        requires { (P.net prefix).len ≤ P.Number.width }
        ensures was { IfOk result (λ was. was ≡ value_at self.old (P.net prefix)) }
        ensures entry { OnOk result (self.new ≡ inserted P.Number.width self.old (P.net prefix) value) }
        ensures unchanged { OnErr result (self.new ≡ self.old) }
        ensures back { IfErr result (λ e. (e.1 ≡ prefix) × (e.2 ≡ value)) }
    {
        if self.count == usize::MAX {
            return Err((NoMemory, prefix, value));
        }
        let key = prefix.number();
        match insert_below(
            self.alloc,
            &mut self.root,
            0,
            key,
            prefix.length() as u32,
            value,
        ) {
            Ok(was) => {
                self.count = count_with(self.count, &was);
                Ok(was)
            }
            Err(refused) => Err((NoMemory, prefix, refused.value)),
        }
    }

    /// A map with the same entries, each item copied by `copy`, whose copies equal their originals.
    pub fn clone_with<F: Fn(&T) -> Result<T, NoMemory>>(&self, copy: F) -> Result<Self, NoMemory>
        requires callable { F.IsAlwaysCallable copy }
        requires equal { (r : _) (x : T) → F.post copy r (Ok x) → x ≡ r.now }
        ensures { IfOk result (λ map. map ≡ self.now) }
    {
        let mut map = PrefixMap::new(self.alloc);
        let mut walk = self.iter()?;
        'pairs: while let Some(pair) = walk.next() {
            let (prefix, item) = pair?;
            let value = copy(item)?;
            match map.insert(prefix, value) {
                Ok(_) => {}
                Err((refusal, _, _)) => return Err(refusal),
            }
        }
        Ok(map)
    }

    /// Takes a prefix out, and gives its value. Nodes that are left with nothing are dropped.
    pub fn remove(&mut self, prefix: &P) -> Option<T>
        requires { (P.net prefix.now).len ≤ P.Number.width }
        ensures was { result ≡ value_at self.old (P.net prefix.now) }
        ensures gone { self.new ≡ removed self.old (P.net prefix.now) }
    {
        let key = prefix.number();
        let was = remove_below(&mut self.root, 0, key, prefix.length() as u32);
        self.count = count_without(self.count, &was);
        was
    }
}

impl<'a, P: PlainPrefix, T> AsView<'a> for &'a PrefixMap<P, T> {
    type View = TrieRef<'a, P, T>;

    ghost can_view = { λ m. ⊤ };

    ghost stands_for = { λ view m. Shows (ref_value P.Number.number P.Number.width view) root_place (Within m.now) };

    fn view(self) -> TrieRef<'a, P, T> {
        self.view_counted(&mut Steps::start())
    }

    ghost stands_law = { λ a b m. show_same (ref_value P.Number.number P.Number.width) a b root_place (Within m.now) };
}

impl<P: PlainPrefix, T: TryClone + Drop> TryClone for PrefixMap<P, T> {
    fn clone_with(&self) -> Result<Self, NoMemory> {
        PrefixMap::clone_with(self, |item| item.clone_with())
    }
}

/// The count after an entry was set, from what was there.
fn count_with<T>(count: usize, was: &Option<T>) -> usize
    requires { count + 1 < 2 ^ 64 }
    ensures { result ≡ count + missing was.now }
{
    match was {
        Some(_) => count,
        None => count + 1,
    }
}

/// The count after an entry was taken out.
fn count_without<T>(count: usize, was: &Option<T>) -> usize
    requires { present was.now ≤ count }
    ensures { result ≡ count - present was.now }
{
    match was {
        Some(_) => count - 1,
        None => count,
    }
}
