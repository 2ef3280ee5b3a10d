//! A whole poll of a connection.
ghost use Rattle.std.specs.Prelude.{◌≡◌, ◌+◌, ◌*◌, ◌-◌, ◌^◌, ◌≤◌, IfOk, OnErr, OnOk};
ghost use Rattle.proto_conn.specs.Polls.{DidPoll, PollStopped};
ghost use Rattle.proto_conn.specs.Watches.{loses_nothing, overruns_nothing, sees_nothing};

use super::Connection;
use crate::framed::Polled;
use crate::link::Link;
use crate::watch::Watch;
use nl_core::{NetlinkDeserializable, NetlinkSerializable, NoMemory};
use proto_core::NetlinkMessageCodec;

impl<
    T: NetlinkSerializable + NetlinkDeserializable + Drop,
    S: Link,
    C: NetlinkMessageCodec,
> Connection<T, S, C> {
    /// Reads, hands on what came, takes the requests and sends. The watch is shown each message, drop
    /// and overrun once, in order. Ready where there is no more to do.
    pub fn poll_with<W: Watch<T>>(&mut self, watch: &mut W) -> Result<Polled<()>, NoMemory>
        requires { self.old.session.arrived + 4096 * ((S.meaning self.old.link).backlog + 1) ≤ 2 ^ 64 - 1 }
        ensures ok { IfOk result (λ answer. DidPoll W.sees W.loses W.overruns T.reads T.kind T.text S.meaning
            self.old watch.old answer self.new watch.new) }
        ensures err { OnErr result (PollStopped W.sees W.loses W.overruns T.reads T.kind T.text S.meaning
            T.fitting self.old watch.old self.new watch.new) }
    {
        self.read_with(watch)?;
        self.forward_unsolicited_messages();
        self.forward_responses();
        self.poll_requests()?;
        self.poll_send_messages()?;
        if self.should_shut_down() {
            Ok(Polled::Ready(()))
        } else {
            Ok(Polled::NotYet)
        }
    }

    /// The same, with nobody watching.
    pub fn poll(&mut self) -> Result<Polled<()>, NoMemory>
        requires { self.old.session.arrived + 4096 * ((S.meaning self.old.link).backlog + 1) ≤ 2 ^ 64 - 1 }
        ensures ok { IfOk result (λ answer. DidPoll sees_nothing loses_nothing overruns_nothing
            T.reads T.kind T.text S.meaning self.old tt answer self.new tt) }
        ensures err { OnErr result (PollStopped sees_nothing loses_nothing overruns_nothing
            T.reads T.kind T.text S.meaning T.fitting self.old tt self.new tt) }
    {
        self.poll_with(&mut ())
    }
}
