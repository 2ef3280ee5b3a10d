//! The address, or the network, that words of a line spell.
ghost use Rattle.std.specs.Prelude.{◌≡◌, ◌∷◌, [], ◌<◌, ◌≤◌, ◌^◌, length};
ghost use Rattle.std.specs.Int.{bytes_high_first};
ghost use Rattle.session_model.specs.Networks.{IsHost};
ghost use Rattle.transcript_lines.specs.Network.{IsFamilyOf, AreTwoWords, SpellOctets, count_in, word_of};
ghost use Rattle.transcript_lines.specs.Network.{AreOctetsOf, IsHostOf, IsNetworkOf, IsNetworkAt};
ghost use Rattle.transcript_lines.specs.Words.{words_left};

use crate::cut::cut_at;
use crate::digits::decode_pairs;
use crate::number::read_number;
use crate::words::Words;
use session_model::{Address, Network};

// The family of an address.
#[derive(Clone, Copy, PartialEq, Eq)]
pub(crate) enum Family {
    V4,
    V6,
}

fn family_of(word: &[u8]) -> Option<Family>
    ensures { IsFamilyOf word.now result }
{
    match word {
        b"4" => Some(Family::V4),
        b"6" => Some(Family::V6),
        _ => None,
    }
}

// How many octets an address of a family has.
fn octet_count(family: Family) -> usize
    ensures { result ≡ count_in family }
{
    match family {
        Family::V4 => 4,
        Family::V6 => 16,
    }
}

// The two words that are left.
fn two_words<'a>(words: Words<'a>) -> Option<(&'a [u8], &'a [u8])>
    ensures { AreTwoWords (words_left words.entry) result }
{
    let mut words = words;
    let first = words.next()?;
    let second = words.next()?;
    if words.next().is_some() {
        return None;
    }
    Some((first, second))
}

// The number of octets, the highest first.
fn number_of(octets: &[u8]) -> u128
    requires { length octets.now ≤ 16 }
    ensures octets { bytes_high_first (length octets.now) result ≡ octets.now }
    ensures fits { result < 256 ^ length octets.now }
{
    let mut number = 0;
    for octet in octets {
        number = number * 256 + *octet as u128;
    }
    number
}

// The address of the family with these octets.
fn host_at(family: Family, octets: &[u8]) -> Option<Address>
    ensures { AreOctetsOf (word_of family) octets.now result }
{
    if octets.len() != octet_count(family) {
        return None;
    }
    let number = number_of(octets);
    match family {
        Family::V4 => Some(Address::V4(number as u32)),
        Family::V6 => Some(Address::V6(number)),
    }
}

// Writes the octets that digits spell over a row of as many, and says whether they spell so many.
fn read_octets(digits: &[u8], octets: &mut [u8]) -> bool
    requires { 0 < length octets.old }
    ensures { SpellOctets digits.now octets.new result }
{
    if digits.len() != 2 * octets.len() {
        return false;
    }
    decode_pairs(digits, octets)
}

// The address of the family that digits spell; its octets are written over a row.
fn host_of_digits(family: Family, digits: &[u8], octets: &mut [u8]) -> Option<Address>
    requires { length octets.old ≡ count_in family }
    ensures { IsHostOf (word_of family ∷ digits.now ∷ []) result }
{
    if read_octets(digits, octets) {
        host_at(family, octets)
    } else {
        None
    }
}

// The address that a word of a family and one of digits spell.
fn spelled_host(family: &[u8], digits: &[u8]) -> Option<Address>
    ensures { IsHostOf (family.now ∷ digits.now ∷ []) result }
{
    match family_of(family)? {
        Family::V4 => host_of_digits(Family::V4, digits, &mut [0; 4]),
        Family::V6 => host_of_digits(Family::V6, digits, &mut [0; 16]),
    }
}

// The network of an address and of a length that its family has.
fn network_at(base: Address, length: u32) -> Option<Network>
    requires { IsHost base }
    ensures { IsNetworkAt base length result }
{
    match base {
        Address::V4(number) if length <= 32 => Some(Network::V4((number, length as u8))),
        Address::V6(number) if length <= 128 => Some(Network::V6((number, length as u8))),
        _ => None,
    }
}

// The address that the words that are left spell.
pub(crate) fn read_host(words: Words) -> Option<Address>
    ensures { IsHostOf (words_left words.entry) result }
{
    let (family, digits) = two_words(words)?;
    spelled_host(family, digits)
}

// The network that the words that are left spell.
pub(crate) fn read_network(words: Words) -> Option<Network>
    ensures { IsNetworkOf (words_left words.entry) result }
{
    let (family, word) = two_words(words)?;
    let (digits, length) = cut_at(word, b'/')?;
    let length = read_number(length)?;
    let base = spelled_host(family, digits)?;
    network_at(base, length)
}
