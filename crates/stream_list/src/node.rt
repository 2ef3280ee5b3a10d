//! An item at its place, and the places that it leads to.
ghost use Rattle.std.specs.Prelude.{◌≡◌};

use slab::Slab;

// An item, and the places of those before and after it, and of the next one of its stream.
#[derive(Drop)]
pub struct Node<X> {
    pub item: X,
    pub previous: Option<usize>,
    pub next: Option<usize>,
    pub next_of_stream: Option<usize>,
}

// Which of the places that a node leads to.
#[derive(Clone, Copy, Debug, PartialEq, Eq)]
pub enum Link {
    Previous,
    Next,
    NextOfStream,
}

impl<X> Node<X> {
    ghost use Rattle.stream_list.specs.Linked.{linked};

    // Sets one of the places.
    fn set(&mut self, link: Link, to: Option<usize>)
        ensures { self.new ≡ linked link to self.old }
    {
        match link {
            Link::Previous => self.previous = to,
            Link::Next => self.next = to,
            Link::NextOfStream => self.next_of_stream = to,
        }
    }
}

ghost use Rattle.stream_list.specs.Linked.{Changes, linked};

// Sets one of the places of the node at a place, if there is one.
pub fn set_link<X>(nodes: &mut Slab<Node<X>>, place: Option<usize>, link: Link, to: Option<usize>)
    ensures { Changes place (linked link to) nodes.old nodes.new }
{
    let Some(place) = place else {
        return;
    };
    if let Some(node) = nodes.get_mut(place) {
        node.set(link, to);
    }
}
