//! The lines of answers.
ghost use Rattle.std.specs.Prelude.{◌≡◌, ◌++◌, OnOk};
ghost use Rattle.session_model.specs.Networks.{base_of, family_word, length_of, octets_of};
ghost use Rattle.transcript_lines.specs.Spelling.{spelled};
ghost use Rattle.mirror_model.specs.OutputText.{answer_line, gateway_word, number_word};
ghost use Rattle.mirror.specs.Answers.{AreOctetsOf, family_in, gateway_in, octets_in};

use nl_core::NoMemory;
use route_mirror::{Address, Answer, Network, Route};
use transcript_lines::{Word, put_line};

// The octets of an address, highest first.
#[derive(Clone, Copy)]
enum AddressOctets {
    V4([u8; 4]),
    V6([u8; 16]),
}

impl AddressOctets {
    fn new(address: Address) -> Self
        ensures octets { octets_in result ≡ octets_of address }
        ensures family { family_in result ≡ family_word address }
    {
        match address {
            Address::V4(number) => AddressOctets::V4(number.to_be_bytes()),
            Address::V6(number) => AddressOctets::V6(number.to_be_bytes()),
        }
    }

    fn as_slice(&self) -> &[u8]
        ensures { result.now ≡ octets_in self.now }
    {
        match self {
            AddressOctets::V4(octets) => octets,
            AddressOctets::V6(octets) => octets,
        }
    }

    // The word of the family.
    fn family(&self) -> &[u8]
        ensures { result.now ≡ family_in self.now }
    {
        match self {
            AddressOctets::V4(_) => b"4",
            AddressOctets::V6(_) => b"6",
        }
    }
}

// The octets of a route that answers for an address.
#[derive(Clone, Copy)]
struct RouteOctets {
    address: AddressOctets,
    network: AddressOctets,
    length: u8,
    gateway: Option<AddressOctets>,
}

// The octets of a gateway, if there is one.
fn gateway_octets(gateway: Option<Address>) -> Option<AddressOctets>
    ensures { gateway_in result ≡ gateway_word gateway }
{
    match gateway {
        Some(address) => Some(AddressOctets::new(address)),
        None => None,
    }
}

impl RouteOctets {
    fn new(address: Address, route: &Route) -> Self
        ensures { AreOctetsOf address route.now result }
    {
        let (base, length) = parts_of(route.network);
        RouteOctets {
            address: AddressOctets::new(address),
            network: AddressOctets::new(base),
            length,
            gateway: gateway_octets(route.gateway),
        }
    }

    // The word of the gateway, `-` where there is none.
    fn gateway_word(&self) -> Word<'_>
        ensures { spelled result ≡ gateway_in self.now.gateway }
    {
        match &self.gateway {
            Some(octets) => Word::Hex(octets.as_slice()),
            None => Word::Plain(b"-"),
        }
    }
}

// The address whose number a network has, and how many of its leading bits count.
fn parts_of(network: Network) -> (Address, u8)
    ensures address { result.0 ≡ base_of network }
    ensures length { result.1 ≡ length_of network }
{
    match network {
        Network::V4((number, length)) => (Address::V4(number), length),
        Network::V6((number, length)) => (Address::V6(number), length),
    }
}

// A number, or `-` for none.
fn word_of<'a>(number: Option<u32>) -> Word<'a>
    ensures { spelled result ≡ number_word number }
{
    match number {
        Some(number) => Word::Number(u64::from(number)),
        None => Word::Plain(b"-"),
    }
}

// Adds the line of a route that answers.
fn put_route(text: &mut Vec<u8>, address: Address, route: &Route) -> Result<(), NoMemory>
    ensures { OnOk result (text.new.items ≡ text.old.items ++ answer_line address (Answer.Found route.now)) }
{
    let octets = RouteOctets::new(address, route);
    put_line(
        text,
        b"route",
        &[
            Word::Plain(octets.address.family()),
            Word::Hex(octets.address.as_slice()),
            Word::Prefix {
                octets: octets.network.as_slice(),
                length: octets.length,
            },
            Word::Number(u64::from(route.priority)),
            Word::Number(u64::from(route.kind)),
            word_of(route.oif),
            octets.gateway_word(),
        ],
    )
}

/// Adds the line of the answer for an address.
pub fn put_answer(text: &mut Vec<u8>, address: Address, answer: &Answer) -> Result<(), NoMemory>
    ensures { OnOk result (text.new.items ≡ text.old.items ++ answer_line address answer.now) }
{
    let name: &[u8] = match answer {
        Answer::Stale => b"stale",
        Answer::Absent => b"absent",
        Answer::Found(route) => return put_route(text, address, route),
    };
    let octets = AddressOctets::new(address);
    put_line(
        text,
        name,
        &[Word::Plain(octets.family()), Word::Hex(octets.as_slice())],
    )
}
