//! The walk over a view, which gives its pairs in the order of their prefixes.

ghost use Rattle.std.specs.Prelude.{◌≡◌, ◌+◌, ◌*◌, ◌/◌, ◌<◌, ◌≤◌, ◌++◌, ◌∷◌, [], length, vec_capacity, IfNone, IfOk, IfSome, IsNone, IsOk, IsTrue, false, true, cond};
ghost use Rattle.std.specs.Result.{OnErr, OnOk};
ghost use Rattle.trie_map.specs.Moves.{IsSetAt, IsClearAt, PassesTo, StepOf, StackMoves, StackLessens};
ghost use Rattle.trie_map.specs.Walking.{CanWalk, IsFrugalWalk, IsOver, NextOf, ToCome, StackOk, StackLeft, StackHasRoom, AreFrugal, stack_work, StackGains, StackIsFrom, WalksOn, TakesFirstOf, ComesFrom};
ghost use Rattle.trie_model.specs.Spots.{next_spot};
ghost use Rattle.trie_model.specs.Nets.{IsNet, covers, net_of};
ghost use Rattle.trie_model.specs.Walks.{rest, AllBefore};
ghost use Rattle.trie_model.specs.Views.{SamePairs};

use crate::masks::{child_bit, data_bit, reconstruct_prefix};
use crate::node::{Start, Steps};
use crate::prefix::{KeyBits, PlainPrefix, lies_in};
use crate::view::TrieView;
use nl_core::NoMemory;
use std::alloc::Global;

/// The spot after this one, or 64. What lies inside a prefix comes right after it.
fn next_spot(spot: u32) -> u32
    requires first { 1 ≤ spot }
    requires last { spot < 64 }
    ensures next { result ≡ next_spot spot }
    ensures first { 1 ≤ result }
    ensures last { result ≤ 64 }
{
    if spot < 32 {
        return 2 * spot;
    }
    let n = spot + 1;
    if n % 2 == 1 {
        n
    } else if n % 4 == 2 {
        n / 2
    } else if n % 8 == 4 {
        n / 4
    } else if n % 16 == 8 {
        n / 8
    } else if n % 32 == 16 {
        n / 16
    } else {
        64
    }
}

/// The spot itself, or the one after it.
fn first_spot(spot: u32, inclusive: bool) -> u32
    requires first { 1 ≤ spot }
    requires last { spot < 64 }
    ensures is { result ≡ cond inclusive spot (next_spot spot) }
    ensures first { 1 ≤ result }
    ensures last { result ≤ 64 }
{
    if inclusive { spot } else { next_spot(spot) }
}

/// Whether something stands at a spot, by the bits that are left of a node. A spot is a data bit or a
/// child: the data bit b is the spot b + 1, the child c the spot 32 + c.
fn is_occupied(data_bits: u32, child_bits: u32, spot: u32) -> bool
    requires first { 1 ≤ spot }
    requires last { spot < 64 }
    ensures set { result ≡ true → IsSetAt data_bits child_bits spot }
    ensures clear { result ≡ false → IsClearAt data_bits child_bits spot }
{
    if spot < 32 {
        data_bits >> (spot - 1) & 1 == 1
    } else {
        child_bits >> (spot - 32) & 1 == 1
    }
}

/// The first spot from this one on where something stands, or 64.
fn occupied_spot(data_bits: u32, child_bits: u32, spot: u32) -> u32
    requires first { 1 ≤ spot }
    requires last { spot ≤ 64 }
    ensures first { 1 ≤ result }
    ensures last { result ≤ 64 }
    ensures passed { PassesTo data_bits child_bits spot result }
    ensures set { result < 64 → IsSetAt data_bits child_bits result }
{
    if data_bits == 0 && child_bits == 0 {
        return 64;
    }
    let mut at = spot;
    'spots: while at < 64 {
        if is_occupied(data_bits, child_bits, at) {
            return at;
        }
        at = next_spot(at);
    }
    64
}

/// A view of the stack, and the spot that the walk has come to in it.
#[derive(Drop)]
struct Level<V> {
    view: V,
    spot: u32,
}

/// What a level has first: nothing any more, an item with its prefix, or a child.
#[derive(Drop)]
enum Step<P, T, V> {
    Done,
    Item(P, T),
    Child(V),
}

/// Takes what a level has first, and goes on to the spot after it. Empty spots are passed here, while
/// the view stays in its place on the stack.
fn take_first<'a, V: TrieView<'a>, S>(
    level: &mut Level<V>,
    steps: &mut Steps<S>,
) -> Result<Step<V::P, V::T, V>, NoMemory>
    requires usable { V.valid level.old.view }
    requires first { 1 ≤ level.old.spot }
    requires last { level.old.spot ≤ 64 }
    ensures step { IfOk result (StepOf V.valid V.told V.item V.P.net V.P.raw V.P.Number.width level.old level.new) }
    ensures usable { OnOk result (V.valid level.new.view) }
    ensures first { 1 ≤ level.new.spot }
    ensures last { level.new.spot ≤ 64 }
    ensures frugal { IsTrue (V.told level.old.view).frugal → IsOk result }
{
    let spot = occupied_spot(
        level.view.data_bitmap(),
        level.view.child_bitmap(),
        level.spot,
    );
    if spot == 64 {
        return Ok(Step::Done);
    }
    level.spot = next_spot(spot);
    if spot < 32 {
        let bit = spot - 1;
        let prefix = reconstruct_prefix(level.view.depth(), level.view.key(), bit);
        let item = level.view.get_data(bit)?;
        return Ok(Step::Item(prefix, item));
    }
    let child = level.view.get_child(spot - 32, steps)?;
    Ok(Step::Child(child))
}

/// One move of a walk.
#[derive(Drop)]
enum Move<P, T> {
    End,
    On,
    Found(P, T),
}

/// Puts a level on the stack, where there is room.
fn push_level<V: Drop>(levels: &mut Vec<Level<V>>, level: Level<V>)
    requires { length levels.old.items < vec_capacity levels.old }
    ensures items { levels.new.items ≡ levels.old.items ++ level ∷ [] }
    ensures capacity { vec_capacity levels.old ≤ vec_capacity levels.new }
{
    let _pushed = levels.push(level);
}

/// Takes what the last level has first, goes into its next child, or leaves it where it is done.
fn advance<'a, V: TrieView<'a>, S>(
    levels: &mut Vec<Level<V>>,
    steps: &mut Steps<S>,
) -> Result<Move<V::P, V::T>, NoMemory>
    requires usable { StackOk V.valid V.told V.P.Number.width levels.old }
    requires room { StackHasRoom V.told V.P.Number.width levels.old }
    ensures usable { OnOk result (StackOk V.valid V.told V.P.Number.width levels.new) }
    ensures moved { IfOk result (StackMoves V.told V.item V.P.net V.P.raw V.P.Number.width levels.old levels.new) }
    ensures room { OnOk result (StackHasRoom V.told V.P.Number.width levels.new) }
    ensures capacity { vec_capacity levels.old ≤ vec_capacity levels.new }
    ensures frugal { AreFrugal V.told levels.old → IsOk result }
    ensures stays { AreFrugal V.told levels.old → OnOk result (AreFrugal V.told levels.new) }
    ensures less { IfOk result (StackLessens V.told V.P.Number.width levels.old levels.new) }
    ensures busy { OnErr result (0 < stack_work V.told V.P.Number.width levels.old) }
{
    let Some(level) = levels.last_mut() else {
        return Ok(Move::End);
    };
    match take_first(level, steps)? {
        Step::Done => {
            let _done = levels.pop();
            Ok(Move::On)
        }
        Step::Item(prefix, item) => Ok(Move::Found(prefix, item)),
        Step::Child(view) => {
            push_level(levels, Level { view, spot: 1 });
            Ok(Move::On)
        }
    }
}

/// Puts the levels on the way down to a prefix on the stack, each at the first spot that comes after
/// the prefix.
fn descend<'a, V: TrieView<'a>, S>(
    levels: &mut Vec<Level<V>>,
    mut view: V,
    key: <V::P as PlainPrefix>::Number,
    len: u32,
    inclusive: bool,
    steps: &mut Steps<S>,
) -> Result<(), NoMemory>
    requires usable { V.valid view }
    requires net { IsNet V.P.Number.width (net_of (V.P.Number.number key) len) }
    requires inside { covers V.P.Number.width (V.told view).place (net_of (V.P.Number.number key) len) ≡ true }
    requires stack { StackOk V.valid V.told V.P.Number.width levels.old }
    requires first { AllBefore V.P.Number.width (V.told view).at (StackLeft V.told V.P.Number.width levels.old) }
    requires room { StackHasRoom V.told V.P.Number.width levels.old }
    requires deep { 5 * length levels.old.items ≤ (V.told view).place.len }
    ensures usable { OnOk result (StackOk V.valid V.told V.P.Number.width levels.new) }
    ensures room { OnOk result (StackHasRoom V.told V.P.Number.width levels.new) }
    ensures left { OnOk result (StackGains V.told V.P.Number.width inclusive
        (net_of (V.P.Number.number key) len) view levels.old levels.new) }
    ensures frugal { IsTrue (V.told view).frugal → IsOk result }
    ensures stays { AreFrugal V.told levels.old → IsTrue (V.told view).frugal
        → OnOk result (AreFrugal V.told levels.new) }
{
    'down: loop {
        let depth = view.depth();
        if len - depth < 5 {
            let spot = first_spot(data_bit(depth, key, len) + 1, inclusive);
            push_level(levels, Level { view, spot });
            return Ok(());
        }
        let bit = child_bit(depth, key);
        let spot = next_spot(32 + bit);
        if view.child_bitmap() >> bit & 1 == 0 {
            push_level(levels, Level { view, spot });
            return Ok(());
        }
        let child = view.get_child(bit, steps)?;
        push_level(levels, Level { view, spot });
        view = child;
    }
}

/// Puts on an empty stack what a view has from a prefix on.
fn enter<'a, V: TrieView<'a>, S>(
    levels: &mut Vec<Level<V>>,
    view: V,
    key: <V::P as PlainPrefix>::Number,
    len: u32,
    inclusive: bool,
    steps: &mut Steps<S>,
) -> Result<(), NoMemory>
    requires usable { V.valid view }
    requires net { IsNet V.P.Number.width (net_of (V.P.Number.number key) len) }
    requires empty { levels.old.items ≡ [] }
    requires room { V.P.Number.width / 5 + 1 ≤ vec_capacity levels.old }
    ensures usable { OnOk result (StackOk V.valid V.told V.P.Number.width levels.new) }
    ensures room { OnOk result (StackHasRoom V.told V.P.Number.width levels.new) }
    ensures left { OnOk result (StackIsFrom V.told V.P.Number.width inclusive
        (net_of (V.P.Number.number key) len) view levels.new) }
    ensures frugal { IsTrue (V.told view).frugal → IsOk result }
    ensures stays { IsTrue (V.told view).frugal → OnOk result (AreFrugal V.told levels.new) }
{
    let place = view.key();
    if lies_in(place, view.prefix_len(), key, len) {
        return descend(levels, view, key, len, inclusive, steps);
    }
    if !key.is_at_most(place) {
        return Ok(());
    }
    push_level(levels, Level { view, spot: 1 });
    Ok(())
}

/// The walk over a view: its pairs in the order of their prefixes, as in the crate prefix-trie.
#[derive(Drop)]
pub struct ViewIter<V> {
    levels: Vec<Level<V>>,
    steps: Steps<Start>,
}

impl<'a, V: TrieView<'a>> ViewIter<V> {
    /// The walk over the whole of a view. It takes the room that the walk needs.
    pub fn new(alloc: Global, view: V) -> Result<Self, NoMemory>
        requires { V.valid view }
        ensures usable { IfOk result (λ walk. CanWalk V.valid V.told V.P.Number.width walk) }
        ensures frugal { IfOk result (λ walk. IsTrue (V.told view).frugal → IsFrugalWalk V.told walk) }
        ensures whole { IfOk result (λ walk. SamePairs (ToCome V.told V.P.Number.width walk) (V.told view).at) }
    {
        let mut levels = Vec::with_capacity(
            alloc,
            (<V::P as PlainPrefix>::Number::bits() / 5 + 1) as usize,
        )?;
        push_level(&mut levels, Level { view, spot: 1 });
        Ok(ViewIter {
            levels,
            steps: Steps::start(),
        })
    }

    /// The walk over what a view has from a prefix on: the prefix itself too where `inclusive`, and what
    /// comes after it in the order. It takes the room that the walk needs.
    pub fn starting(
        alloc: Global,
        view: V,
        prefix: &V::P,
        inclusive: bool,
    ) -> Result<Self, NoMemory>
        requires usable { V.valid view }
        requires len { (V.P.net prefix.now).len ≤ V.P.Number.width }
        ensures usable { IfOk result (λ walk. CanWalk V.valid V.told V.P.Number.width walk) }
        ensures frugal { IfOk result (λ walk. IsTrue (V.told view).frugal → IsFrugalWalk V.told walk) }
        ensures rest { IfOk result (ComesFrom V.told V.P.Number.width inclusive (V.P.net prefix.now) view) }
    {
        let mut levels = Vec::with_capacity(
            alloc,
            (<V::P as PlainPrefix>::Number::bits() / 5 + 1) as usize,
        )?;
        let mut steps = Steps::start();
        let key = prefix.number();
        let len = prefix.length() as u32;
        enter(&mut levels, view, key, len, inclusive, &mut steps)?;
        Ok(ViewIter { levels, steps })
    }

    /// The next pair: the first of the list of what is to come, or none where this list is empty. So a
    /// whole walk gives the view's list in order, and ends: each answer but None leaves less to do. Its
    /// prefix has no host bits. After None and after a refusal the walk is over.
    pub fn next(&mut self) -> Option<Result<(V::P, V::T), NoMemory>>
        requires { CanWalk V.valid V.told V.P.Number.width self.old }
        ensures usable { CanWalk V.valid V.told V.P.Number.width self.new }
        ensures frugal { IsFrugalWalk V.told self.old → IfSome result (λ r. IsOk r) }
        ensures stays { IsFrugalWalk V.told self.old → IsFrugalWalk V.told self.new }
        ensures given { NextOf V.told V.item V.P.net V.P.raw V.P.Number.width self.old self.new result }
        ensures ends { IfSome result (λ r. WalksOn V.told V.P.Number.width self.old self.new) }
        ensures last { IfNone result (IsOver V.told V.P.Number.width self.new) }
        ensures refused { IfSome result (λ r. OnErr r (IsOver V.told V.P.Number.width self.new)) }
        ensures over { IsOver V.told V.P.Number.width self.old → IsNone result }
        ensures list { TakesFirstOf V.told V.item V.P.net V.P.Number.width self.old self.new result }
    {
        'moves: loop {
            match advance(&mut self.levels, &mut self.steps) {
                Ok(Move::On) => {}
                Ok(Move::Found(prefix, item)) => return Some(Ok((prefix, item))),
                Ok(Move::End) => return None,
                Err(refused) => {
                    self.levels.clear();
                    return Some(Err(refused));
                }
            }
        }
    }
}
