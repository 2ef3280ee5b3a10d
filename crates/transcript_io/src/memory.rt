//! A source and a sink in memory, which tell their bytes.
ghost use Rattle.std.specs.Prelude.{◌≡◌, ◌↔◌, ◌+◌, ◌<◌, ◌≤◌, ℕ, [], ◌++◌, IsTrue, drop, take, length, Some, vec_len};
ghost use Rattle.transcript_io.specs.Io.{DidRead, DidWrite, HasRisen};

use crate::sink::{Sink, Wrote};
use crate::source::{Read, Source};
use std::alloc::Global;

/// How the calls of a source or a sink go: how many bytes one moves at most, the numbers of those that fail, counted
/// from 1, and how many calls and faults there were.
#[derive(Drop)]
pub struct FailPlan {
    piece: usize,
    failing: Vec<u64>,
    calls: u64,
    faults: u64,
    ghost some: { 1 ≤ piece },
}

impl FailPlan {
    ghost use Rattle.transcript_io.specs.Memory.{IsFresh, after_call, fails_next};

    // No calls so far.
    fn new(piece: usize, failing: Vec<u64>) -> Self
        requires { 1 ≤ piece }
        ensures { IsFresh result piece failing.items }
    {
        FailPlan {
            piece,
            failing,
            calls: 0,
            faults: 0,
        }
    }

    // Counts a call, and says whether it fails.
    fn call(&mut self) -> bool
        ensures fails { result ≡ fails_next self.old }
        ensures counted { self.new ≡ after_call self.old }
        ensures later { self.old.faults ≤ self.new.faults }
    {
        self.calls = self.calls.saturating_add(1);
        let fails = self.failing.contains(&self.calls);
        if fails {
            self.faults = self.faults.saturating_add(1);
        }
        fails
    }
}

/// A source that gives the bytes of a list.
#[derive(Drop)]
pub struct MemorySource {
    bytes: Vec<u8>,
    at: usize,
    plan: FailPlan,
    ghost within: { at ≤ vec_len bytes },
}

impl MemorySource {
    ghost use Rattle.transcript_io.specs.Memory.{IsFresh, source_plan};

    /// These bytes, at most `piece` at a call. The calls with the numbers of `fail`, counted from 1, fail.
    pub fn new(bytes: Vec<u8>, piece: usize, fail: Vec<u64>) -> Self
        requires { 1 ≤ piece }
        ensures left { ⟦<MemorySource as Source>⟧.left result ≡ Some bytes.items }
        ensures faults { ⟦<MemorySource as Source>⟧.faults result ≡ 0 }
        ensures plan { IsFresh (source_plan result) piece fail.items }
    {
        MemorySource {
            bytes,
            at: 0,
            plan: FailPlan::new(piece, fail),
        }
    }
}

impl Source for MemorySource {
    ghost use Rattle.transcript_io.specs.Memory.{after_call, bytes_left, fails_next, read_count, source_plan};

    ghost left = { λ s. Some (bytes_left s) };

    ghost faults = { λ s. (source_plan s).faults };

    /// As every source, and it fails exactly at the listed calls, and else gives as much as there is, the buffer holds
    /// and a call moves.
    fn read(&mut self, into: &mut [u8]) -> Read
        requires { 0 < length into.old }
        ensures read { DidRead (Some (bytes_left self.old)) result into.new (Some (bytes_left self.new)) }
        ensures cause { result ≡ Read.Failed → HasRisen (source_plan self.old).faults (source_plan self.new).faults }
        ensures later { (source_plan self.old).faults ≤ (source_plan self.new).faults }
        ensures fails { IsTrue (fails_next (source_plan self.old)) ↔ (result ≡ Read.Failed) }
        ensures plan { source_plan self.new ≡ after_call (source_plan self.old) }
        ensures amount { (n : ℕ) → result ≡ Read.Got n → n ≡ read_count self.old (length into.old) }
    {
        if self.plan.call() {
            return Read::Failed;
        }
        let rest = self.bytes.len() - self.at;
        if rest == 0 {
            return Read::End;
        }
        let n = rest.min(self.plan.piece).min(into.len());
        copy_piece(into, self.bytes.as_slice(), self.at, n);
        self.at += n;
        Read::Got(n)
    }
}

/// A sink that keeps the bytes that it takes.
#[derive(Drop)]
pub struct MemorySink {
    bytes: Vec<u8>,
    plan: FailPlan,
}

impl MemorySink {
    ghost use Rattle.transcript_io.specs.Memory.{IsFresh, sink_plan};

    /// No bytes so far. It takes at most `piece` at a call. The calls with the numbers of `fail`, counted from 1, fail.
    pub fn new(alloc: Global, piece: usize, fail: Vec<u64>) -> Self
        requires { 1 ≤ piece }
        ensures written { ⟦<MemorySink as Sink>⟧.written result ≡ Some [] }
        ensures faults { ⟦<MemorySink as Sink>⟧.faults result ≡ 0 }
        ensures plan { IsFresh (sink_plan result) piece fail.items }
    {
        MemorySink {
            bytes: Vec::new(alloc),
            plan: FailPlan::new(piece, fail),
        }
    }

    /// What was written.
    pub fn bytes(&self) -> &[u8]
        ensures { ⟦<MemorySink as Sink>⟧.written self.now ≡ Some result.now }
    {
        self.bytes.as_slice()
    }
}

impl Sink for MemorySink {
    ghost use Rattle.transcript_io.specs.Memory.{after_call, bytes_written, fails_next, sink_plan, write_count};

    ghost written = { λ s. Some (bytes_written s) };

    ghost faults = { λ s. (sink_plan s).faults };

    /// As every sink, and it fails exactly at the listed calls, and else takes as much as a call moves, unless memory
    /// runs out.
    fn write(&mut self, piece: &[u8]) -> Wrote
        requires { 0 < length piece.now }
        ensures wrote { DidWrite (Some (bytes_written self.old)) result piece.now (Some (bytes_written self.new)) }
        ensures cause { result ≡ Wrote.Failed → HasRisen (sink_plan self.old).faults (sink_plan self.new).faults }
        ensures later { (sink_plan self.old).faults ≤ (sink_plan self.new).faults }
        ensures fails { IsTrue (fails_next (sink_plan self.old)) ↔ (result ≡ Wrote.Failed) }
        ensures plan { sink_plan self.new ≡ after_call (sink_plan self.old) }
        ensures amount { (n : ℕ) → result ≡ Wrote.Took n → n ≡ write_count self.old (length piece.now) }
    {
        if self.plan.call() {
            return Wrote::Failed;
        }
        let n = piece.len().min(self.plan.piece);
        if self.bytes.extend_from_slice(&piece[..n]).is_err() {
            return Wrote::NoMemory;
        }
        Wrote::Took(n)
    }
}

// Copies bytes to the front of a buffer.
fn copy_front(into: &mut [u8], from: &[u8])
    requires { length from.now ≤ length into.old }
    ensures { take (length from.now) into.new ≡ from.now }
{
    into[..from.len()].copy_from_slice(from);
}

/// Copies the n bytes at a place to the front of a buffer.
#[tactic(auto, using(crate::proofs::Pieces::piece_taken))]
pub fn copy_piece(into: &mut [u8], bytes: &[u8], at: usize, n: usize)
    requires within { at + n ≤ length bytes.now }
    requires fits { n ≤ length into.old }
    ensures { drop at bytes.now ≡ take n into.new ++ drop (at + n) bytes.now }
{
    let (_, rest) = bytes.split_at(at);
    let (piece, _) = rest.split_at(n);
    copy_front(into, piece);
}
