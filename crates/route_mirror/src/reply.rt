//! What a reply of a dump says, apart from its change.
ghost use Rattle.std.specs.Prelude.{◌≡◌, if◌then◌else◌};
ghost use Rattle.mirror_model.specs.Sessions.{ending_by, is_overrun, says_interrupted};
ghost use Rattle.mirror_model.specs.TableEvents.{Continues};
ghost use Rattle.route_mirror.specs.Dumps.{ending_value};

use nl_core::{NLM_F_DUMP_INTR, NetlinkHeader, NetlinkPayload};

// Whether a reply ends its number: not, by a Done of code 0, or otherwise.
#[derive(Clone, Copy, PartialEq, Eq)]
pub(crate) enum Ending {
    Continues,
    Finished,
    Failed,
}

// How a payload ends its number, where it is known whether it does.
pub(crate) fn ending_of<T>(payload: &NetlinkPayload<T>, done: bool) -> Ending
    ensures { ending_value result ≡ (if done then ending_by payload.now else Continues) }
{
    if !done {
        return Ending::Continues;
    }
    match payload {
        NetlinkPayload::Done(message) if message.code == 0 => Ending::Finished,
        _ => Ending::Failed,
    }
}

// Whether a payload says that messages were lost.
pub(crate) fn is_overrun<T>(payload: &NetlinkPayload<T>) -> bool
    ensures { result ≡ is_overrun payload.now }
{
    match payload {
        NetlinkPayload::Overrun(_) => true,
        _ => false,
    }
}

// Whether a header says that a dump was interrupted, and so may miss something.
pub(crate) fn says_interrupted(header: &NetlinkHeader) -> bool
    ensures { result ≡ says_interrupted header.now }
{
    header.flags & NLM_F_DUMP_INTR != 0
}
