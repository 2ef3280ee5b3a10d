//! Items at their places, linked in order of arrival and by stream.
ghost use Rattle.std.specs.Prelude.{◌≡◌, ℕ, ◌+◌, ◌<◌, List, [], ◌∷◌, ◌++◌, length};
ghost use Rattle.slab.specs.Slab.{HasRoomFor};

use crate::ends::Ends;
use crate::node::{Link, Node, set_link};
use crate::stream::InStream;
use slab::Slab;

// The nodes, the ends of all, and the ends of each stream by its number.
#[derive(Drop)]
pub struct Links<X> {
    pub nodes: Slab<Node<X>>,
    pub ends: Ends,
    pub streams: Vec<Ends>,
}

impl<X: InStream> Links<X> {
    ghost use Rattle.stream_list.specs.Linked.{IsLinked, IsOldestAt, TakesOut};

    // One item more, the newest.
    pub fn push(&mut self, item: X)
        requires room { HasRoomFor self.old.nodes 1 }
        requires stream { X.stream item < length self.old.streams.items }
        ensures linked { (es : List (ℕ × X)) → IsLinked X.stream self.old es →
            IsLinked X.stream self.new (es ++ (self.old.nodes.vacant_key, item) ∷ []) }
        ensures capacity { self.new.nodes.capacity ≡ self.old.nodes.capacity }
        ensures streams { length self.new.streams.items ≡ length self.old.streams.items }
    {
        let stream = item.stream() as usize;
        let newest = self.ends.newest;
        let newest_of_stream = self.streams[stream].newest;
        let place = self.nodes.insert_reserved(Node {
            item,
            previous: newest,
            next: None,
            next_of_stream: None,
        });
        set_link(&mut self.nodes, newest, Link::Next, Some(place));
        set_link(
            &mut self.nodes,
            newest_of_stream,
            Link::NextOfStream,
            Some(place),
        );
        self.ends = self.ends.with(place);
        self.streams[stream] = self.streams[stream].with(place);
    }

    // Takes the item at a place out, which is the oldest of its stream.
    pub fn take(&mut self, place: usize) -> X
        requires { IsOldestAt X.stream self.old place }
        ensures taken { TakesOut X.stream self.old place result self.new }
        ensures capacity { self.new.nodes.capacity ≡ self.old.nodes.capacity }
        ensures streams { length self.new.streams.items ≡ length self.old.streams.items }
    {
        let Node {
            item,
            previous,
            next,
            next_of_stream,
        } = self.nodes.remove(place);
        set_link(&mut self.nodes, previous, Link::Next, next);
        set_link(&mut self.nodes, next, Link::Previous, previous);
        self.ends = self.ends.without(previous, next);
        let stream = item.stream() as usize;
        self.streams[stream] = self.streams[stream].without(None, next_of_stream);
        item
    }
}
