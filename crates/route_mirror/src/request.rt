//! The request for a dump of all routes.
ghost use Rattle.std.specs.Prelude.{◌≡◌, ◌∷◌, [], true, IfOk};
ghost use Rattle.proto_conn.specs.Handles.{marks_of, messages_of};
ghost use Rattle.route_mirror.specs.Requests.{dump_message};

use nl_core::{NLM_F_DUMP, NLM_F_REQUEST, NetlinkHeader, NetlinkMessage, NetlinkPayload, NoMemory};
use proto_core::ReplyExpectation;
use rt_dispatch::RouteNetlinkMessage;
use rt_other::RouteMessage;
use std::alloc::Global;

// The type of a request for routes, of include/uapi/linux/rtnetlink.h.
const RTM_GETROUTE: u16 = 26;

// One message, which awaits replies: RTM_GETROUTE with a header of zeros.
pub(crate) fn dump_request(
    alloc: Global,
) -> Result<Vec<(NetlinkMessage<RouteNetlinkMessage>, ReplyExpectation)>, NoMemory>
    ensures messages { IfOk result (λ v. messages_of v.items ≡ dump_message ∷ []) }
    ensures marks { IfOk result (λ v. marks_of v.items ≡ true ∷ []) }
{
    let message = NetlinkMessage {
        header: NetlinkHeader {
            length: 28,
            message_type: RTM_GETROUTE,
            flags: NLM_F_REQUEST | NLM_F_DUMP,
            sequence_number: 0,
            port_number: 0,
        },
        payload: NetlinkPayload::InnerMessage(RouteNetlinkMessage::GetRoute(RouteMessage::empty(
            alloc,
        ))),
    };
    let mut messages = Vec::new(alloc);
    messages.push((message, ReplyExpectation::Expected))?;
    Ok(messages)
}
