//! What a message on a route changes in a peer's table.
ghost use Rattle.std.specs.Prelude.{◌≡◌, ◌<◌, ◌≤◌, ◌^◌, Some, None, if◌then◌else◌, length};
ghost use Rattle.std.specs.Slice.Scan.{big_endian};
ghost use Rattle.std.specs.Option.{IfSome, option_map, option_and_then, option_copied};
ghost use Rattle.mirror_model.specs.RouteChanges as model;
ghost use Rattle.route_table.specs.Networks.{IsPlain, IsPlainPrefix, pair_of};
ghost use Rattle.route_table.specs.Changes.{HasLastOf, change_value, next_hop};

use mirror_model::{Address, Network};
use rt_dispatch::RouteNetlinkMessage;
use rt_other::{AddressFamily, RouteAddress, RouteAttribute, RouteMessage};
use trie_map::{KeyBits, PlainPrefix};

/// What a peer does with what takes a route: the route's type (an `RTN_` number of
/// include/uapi/linux/rtnetlink.h), the index of the link that it leaves by, and its gateway.
#[derive(Clone, Copy, Debug, PartialEq, Eq)]
pub struct Hop {
    pub kind: u8,
    pub oif: Option<u32>,
    pub gateway: Option<Address>,
}

/// The change of one route, by its network without host bits and its priority: what is put there, or none where the
/// route is deleted.
#[derive(Clone, Copy, Debug, PartialEq, Eq)]
pub struct RouteChange {
    pub network: Network,
    pub priority: u32,
    pub hop: Option<Hop>,
}

// The last attribute of each kind.
#[derive(Clone, Copy)]
struct LastAttributes<'a> {
    destination: Option<&'a RouteAddress>,
    gateway: Option<&'a RouteAddress>,
    oif: Option<u32>,
    priority: Option<u32>,
    table: Option<u32>,
}

/// What a message changes in the routing table of this number: a new route of IPv4 or IPv6 puts, and replaces, a
/// deleted one deletes. None where the message is no change of this table.
pub fn message_change(message: &RouteNetlinkMessage, table: u32) -> Option<RouteChange>
    ensures change { option_map change_value result ≡ model.message_change table message.now }
    ensures plain { IfSome result (λ c. IsPlain c.network) }
{
    match message {
        RouteNetlinkMessage::NewRoute(route) => route_change(route, table, true),
        RouteNetlinkMessage::DelRoute(route) => route_change(route, table, false),
        _ => None,
    }
}

// The change by which a route comes or goes.
fn route_change(route: &RouteMessage, table: u32, comes: bool) -> Option<RouteChange>
    ensures change { option_map change_value result ≡ model.route_change route.now.header route.now.attributes table
        (if comes then Some (next_hop route.now) else None) }
    ensures plain { IfSome result (λ c. IsPlain c.network) }
{
    let header = &route.header;
    let last = last_attributes(route.attributes.as_slice());
    let its_table = last.table.unwrap_or(header.table as u32);
    if its_table != table || header.source_prefix_length != 0 {
        return None;
    }
    let family = header.address_family;
    let network = network_to(family, header.destination_prefix_length, last.destination)?;
    let hop = Hop {
        kind: header.kind.0,
        oif: last.oif,
        gateway: gateway_of(family, last.gateway),
    };
    Some(RouteChange {
        network,
        priority: last.priority.unwrap_or(0),
        hop: if comes { Some(hop) } else { None },
    })
}

// The last attribute of each kind, found in one pass.
fn last_attributes<'a>(attributes: &'a [RouteAttribute]) -> LastAttributes<'a>
    ensures { HasLastOf attributes.now result }
{
    let mut last = LastAttributes {
        destination: None,
        gateway: None,
        oif: None,
        priority: None,
        table: None,
    };
    for attribute in attributes {
        match attribute {
            RouteAttribute::Destination(address) => last.destination = Some(address),
            RouteAttribute::Gateway(address) => last.gateway = Some(address),
            RouteAttribute::Oif(index) => last.oif = Some(*index),
            RouteAttribute::Priority(priority) => last.priority = Some(*priority),
            RouteAttribute::Table(table) => last.table = Some(*table),
            RouteAttribute::Other(_) => {}
        }
    }
    last
}

// Where a route of a family leads.
fn network_to(
    family: AddressFamily,
    length: u8,
    destination: Option<&RouteAddress>,
) -> Option<Network>
    ensures network { result ≡ model.network_to family length (option_copied destination.entry) }
    ensures plain { IfSome result IsPlain }
{
    match family {
        AddressFamily::Inet => {
            let prefix = leading(length, destination.and_then(inet_number))?;
            Some(Network::V4(prefix))
        }
        AddressFamily::Inet6 => {
            let prefix = leading(length, destination.and_then(inet6_number))?;
            Some(Network::V6(prefix))
        }
        _ => None,
    }
}

// The gateway of a route of a family: none where the address is of another family.
fn gateway_of(family: AddressFamily, gateway: Option<&RouteAddress>) -> Option<Address>
    ensures { result ≡ model.gateway_of family (option_copied gateway.entry) }
{
    match family {
        AddressFamily::Inet => Some(Address::V4(inet_number(gateway?)?)),
        AddressFamily::Inet6 => Some(Address::V6(inet6_number(gateway?)?)),
        _ => None,
    }
}

// The number of an IPv4 address; any other address has none.
fn inet_number(address: &RouteAddress) -> Option<u32>
    ensures { result ≡ model.inet_number address.now }
{
    match address {
        RouteAddress::Inet(address) => Some(number_of(&address.0) as u32),
        _ => None,
    }
}

// The number of an IPv6 address; any other address has none.
fn inet6_number(address: &RouteAddress) -> Option<u128>
    ensures { result ≡ model.inet6_number address.now }
{
    match address {
        RouteAddress::Inet6(address) => Some(number_of(&address.0)),
        _ => None,
    }
}

// The number that octets spell, the highest first.
fn number_of(octets: &[u8]) -> u128
    requires { length octets.now ≤ 16 }
    ensures number { result ≡ big_endian 0 octets.now }
    ensures fits { result < 256 ^ length octets.now }
{
    let mut number = 0;
    for octet in octets {
        number = number * 256 + *octet as u128;
    }
    number
}

// The first bits of a number, and how many: none of a length above the width. The length 0 needs no number.
fn leading<P: PlainPrefix>(length: u8, number: Option<P::Number>) -> Option<P>
    requires { IfSome number (λ n. P.Number.number n < 2 ^ P.Number.width) }
    ensures leading { option_map (pair_of P.net) result ≡
        model.leading P.Number.width length (option_map P.Number.number number) }
    ensures plain { IfSome result (IsPlainPrefix P.Number.width P.net P.raw) }
{
    if length == 0 {
        return Some(P::from_number(P::Number::zero(), 0));
    }
    if length as u32 > P::Number::bits() {
        return None;
    }
    Some(P::from_number(number?, length))
}
