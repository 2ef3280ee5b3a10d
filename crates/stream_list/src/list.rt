//! The list of items in order of arrival.
ghost use Rattle.std.specs.Prelude.{◌≡◌, ◌==◌, ◌+◌, ◌<◌, ◌≤◌, [], ◌∷◌, ◌++◌, length, not, false, IfNone, IfSome, OnErr, OnOk};
ghost use Rattle.std.specs.List.{filter};
ghost use Rattle.stream_list.specs.Listed.{HasNone, TakesOldest};

use crate::ends::{NO_ENDS, ends_at, hold};
use crate::links::Links;
use crate::stream::InStream;
use slab::Slab;
use std::alloc::{AllocError, Global};
use std::marker::Model;

/// Items of many streams, in order of arrival.
#[derive(Drop)]
pub struct StreamList<X: InStream> {
    links: Links<X>,
}

impl<X: InStream> Model for StreamList<X> {
    ghost use Rattle.std.specs.Prelude.{length, map, ℕ};
    ghost use Rattle.stream_list.specs.Listed.{Listed};
    ghost use Rattle.stream_list.specs.Linked.{IsLinked, entries_of};

    ghost Value = { Listed X };

    ghost view = { λ l. record {
      items = map (λ (e : ℕ × X). e.1) (entries_of l.links);
      room = record { items = l.links.nodes.capacity; streams = length l.links.streams.items };
    } };

    ghost invariant = { λ l. IsLinked X.stream l.links (entries_of l.links) };
}

impl<X: InStream> StreamList<X> {
    /// An empty list, with no room.
    pub fn new(alloc: Global) -> Self
        ensures { result ≡ record { items = []; room = record { items = 0; streams = 0 } } }
    {
        StreamList {
            links: Links {
                nodes: Slab::new(alloc),
                ends: NO_ENDS,
                streams: Vec::new(alloc),
            },
        }
    }

    /// Makes room for so many items more.
    pub fn reserve(&mut self, additional: usize) -> Result<(), AllocError>
        ensures room { OnOk result (length self.new.items + additional ≤ self.new.room.items) }
        ensures items { self.new.items ≡ self.old.items }
        ensures streams { self.new.room.streams ≡ self.old.room.streams }
        ensures more { self.old.room.items ≤ self.new.room.items }
    {
        self.links.nodes.reserve(additional)
    }

    /// Makes room for items of a stream, and of those of lower numbers.
    pub fn reserve_stream(&mut self, stream: u64) -> Result<(), AllocError>
        ensures room { OnOk result (stream < self.new.room.streams) }
        ensures items { self.new.items ≡ self.old.items }
        ensures capacity { self.new.room.items ≡ self.old.room.items }
        ensures more { self.old.room.streams ≤ self.new.room.streams }
    {
        hold(&mut self.links.streams, stream)
    }

    /// Appends an item, for which there is room.
    pub fn push_back_reserved(&mut self, item: X)
        requires room { length self.old.items < self.old.room.items }
        requires stream { X.stream item < self.old.room.streams }
        ensures items { self.new.items ≡ self.old.items ++ item ∷ [] }
        ensures room { self.new.room ≡ self.old.room }
    {
        self.links.push(item);
    }

    /// Takes the oldest item out.
    pub fn pop_front(&mut self) -> Option<X>
        ensures none { IfNone result ((self.old.items ≡ []) × (self.new ≡ self.old)) }
        ensures some { IfSome result (λ x. self.old ≡ record self.new { items = x ∷ self.new.items }) }
    {
        let place = self.links.ends.oldest?;
        Some(self.links.take(place))
    }

    /// Takes the oldest item of a stream out.
    pub fn pop_front_of(&mut self, stream: u64) -> Option<X>
        ensures none { IfNone result (HasNone X.stream stream self.old self.new) }
        ensures some { IfSome result (λ x. TakesOldest X.stream stream self.old x self.new) }
    {
        let place = ends_at(self.links.streams.as_slice(), stream).oldest?;
        Some(self.links.take(place))
    }
}

impl<X: InStream + Drop> StreamList<X> {
    /// Drops the items of a stream.
    pub fn clear_of(&mut self, stream: u64)
        ensures { self.new ≡ record self.old { items = filter (λ x. not (X.stream x == stream)) self.old.items } }
    {
        'items: while let Some(_item) = self.pop_front_of(stream) {}
    }
}
