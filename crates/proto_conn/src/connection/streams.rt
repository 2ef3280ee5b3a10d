//! The replies of one stream.
ghost use Rattle.std.specs.Prelude.{◌≡◌, IfNone, IfSome};
ghost use Rattle.proto_conn.specs.Streaming.{HasNone, TakesReply, awaits, is_asking, is_ended, marked_at, without_stream};

use super::Connection;
use crate::parts::Reply;
use nl_core::NetlinkSerializable;

// Marks a stream as given up, if it was given.
fn mark(given_up: &mut Vec<bool>, stream: u64)
    ensures { given_up.new.items ≡ marked_at stream given_up.old.items }
{
    if stream > 0 && stream <= given_up.len() as u64 {
        given_up[stream as usize - 1] = true;
    }
}

impl<T: NetlinkSerializable + Drop, S, C> Connection<T, S, C> {
    // Drops the replies of a stream, and those that are still to come.
    pub fn give_up(&mut self, stream: u64)
        ensures { self.new ≡ without_stream stream self.old }
    {
        self.replies.clear_of(stream);
        mark(&mut self.given_up, stream);
    }
}

impl<T: NetlinkSerializable, S, C> Connection<T, S, C> {
    // Whether the request of a stream waits in the queue, or the stream isn't given yet.
    fn is_asking(&self, stream: u64) -> bool
        ensures { result ≡ is_asking stream self.now }
    {
        let asked = self.given_up.len() - self.queue.len();
        stream > asked as u64
    }

    /// Whether more replies of a stream may be read: there is more to do, and its request waits in the queue or a
    /// number of it is awaited, whatever lies in its list. A stream that isn't given yet counts as one whose request
    /// waits.
    pub fn awaits(&self, stream: u64) -> bool
        ensures { result ≡ awaits stream self.now }
    {
        !self.should_shut_down() && (self.is_asking(stream) || self.tallies.is_awaited(stream))
    }

    // Whether nothing more comes into the list of a stream.
    pub fn is_ended(&self, stream: u64) -> bool
        ensures { result ≡ is_ended stream self.now }
    {
        !self.tallies.has_reply(stream) && !self.awaits(stream)
    }

    // Takes out the oldest reply of a stream from its list.
    pub fn take_reply(&mut self, stream: u64) -> Option<Reply<T>>
        ensures none { IfNone result (HasNone stream self.old self.new) }
        ensures some { IfSome result (λ r. TakesReply stream self.old r self.new) }
    {
        self.replies.pop_front_of(stream)
    }
}
