//! Prefixes of addresses, and the numbers that hold their bits.

ghost use Rattle.std.specs.Prelude.{◌≡◌, ℕ, ◌+◌, ◌-◌, ◌*◌, ◌^◌, ◌<◌, ◌≤◌, ◌↔◌, IsTrue, true};
ghost use Rattle.num_traits.specs.Laws.{bit_len};
ghost use Rattle.trie_model.specs.Spots.{five_bits, prefix_net};
ghost use Rattle.trie_model.specs.Nets.{Net, IsCommonLen, IsNet, masked, covers, net_of};

use num_traits::PrimInt;

/// The mask of the first `len` bits.
pub fn mask_from_prefix_len<R: PrimInt>(len: u8) -> R
    requires { len ≤ bit_len R.width }
    ensures { R.bits_of result ≡ 2 ^ bit_len R.width - 2 ^ (bit_len R.width - len) }
{
    if len == 0 {
        return R::zero();
    }
    let bits = R::zero().count_zeros();
    (!R::zero()).unsigned_shl(bits - len as u32)
}

/// A number of a fixed width, with what nodes and views do with it. It has no operators, so that
/// code that is generic in it stands under few bounds.
pub trait KeyBits: Copy + Drop {
    /// The number itself.
    ghost number: { Self → ℕ };

    /// How many bits it has.
    ghost width: { ℕ };

    /// No number is wider than an IPv6 address.
    ghost width_law: { width ≤ 128 };

    /// How many bits there are.
    fn bits() -> u32
        ensures { result ≡ width };

    /// 0.
    fn zero() -> Self
        ensures { number result ≡ 0 };

    /// The number without the bits past the first `len`.
    fn first_bits(self, len: u32) -> Self
        requires fits { number self < 2 ^ width }
        requires len { len ≤ width }
        ensures { number result ≡ masked width (number self) len };

    /// The five bits after the first `depth`. Past the end they are 0.
    fn five_bits(self, depth: u32) -> u32
        requires fits { number self < 2 ^ width }
        requires depth { depth ≤ width }
        ensures { result ≡ five_bits width depth (number self) };

    /// The first `depth` bits, then these `count` bits.
    fn with_bits(self, depth: u32, count: u32, bits: u32) -> Self
        requires fits { number self < 2 ^ width }
        requires depth { depth + count ≤ width }
        requires bits { bits < 2 ^ count }
        ensures { number result ≡ masked width (number self) depth + bits * 2 ^ (width - (depth + count)) };

    /// How many leading bits the numbers have in common.
    fn common_bits(self, other: Self) -> u32
        ensures { IsCommonLen width (number self) (number other) result };

    /// Whether the number is at most the other one.
    fn is_at_most(self, other: Self) -> bool
        ensures { IsTrue result ↔ (number self ≤ number other) };
}

/// A prefix as nodes and views see it. `net` is the prefix without its host bits, `raw` the number
/// with them.
pub trait PlainPrefix: Copy + Drop {
    type Number: KeyBits;

    /// The prefix without host bits.
    ghost net: { Self → Net };

    /// The number as it was given.
    ghost raw: { Self → ℕ };

    /// The length in bits.
    fn length(&self) -> u8
        ensures { result ≡ (net self.now).len };

    /// The bits of the prefix, with 0 for each host bit.
    fn number(&self) -> Self::Number
        requires { (net self.now).len ≤ Self.Number.width }
        ensures bits { Self.Number.number result ≡ (net self.now).bits }
        ensures prefix { IsNet Self.Number.width (net self.now) };

    /// The number as it was given, with its host bits.
    fn raw_number(&self) -> Self::Number
        ensures bits { Self.Number.number result ≡ raw self.now }
        ensures fits { raw self.now < 2 ^ Self.Number.width };

    /// The prefix of this number and length. The host bits are dropped.
    fn from_number(number: Self::Number, len: u8) -> Self
        requires fits { Self.Number.number number < 2 ^ Self.Number.width }
        requires len { len ≤ Self.Number.width }
        ensures net { net result ≡ prefix_net Self.Number.width (Self.Number.number number) len }
        ensures raw { raw result ≡ (net result).bits };

    /// The host bits are all that is dropped.
    ghost net_law: { (p : Self) → net p ≡ prefix_net Self.Number.width (raw p) (net p).len };

    /// A prefix is its number and its length.
    ghost one_law: { (p q : Self) → (net p).len ≡ (net q).len → raw p ≡ raw q → p ≡ q };

    /// Each network is that of a prefix without host bits.
    ghost net_onto: { (n : Net) → IsNet Self.Number.width n → (p : Self) × (net p ≡ n) × (raw p ≡ n.bits) };
}

/// A prefix of an address, as in the crate prefix-trie. Its length is at most `num_bits`.
pub trait Prefix: PlainPrefix<Number = Self::R> {
    type R: PrimInt;

    /// The number of the prefix, as it was given.
    fn repr(&self) -> Self::R
        ensures { Self.R.KeyBits.number result ≡ Self.raw self.now };

    /// The length in bits.
    fn prefix_len(&self) -> u8
        ensures { result ≡ (Self.net self.now).len };

    /// The prefix of this number and length. The host bits are dropped.
    fn from_repr_len(repr: Self::R, len: u8) -> Self
        requires fits { Self.R.KeyBits.number repr < 2 ^ Self.R.KeyBits.width }
        requires len { len ≤ Self.R.KeyBits.width }
        ensures net { Self.net result ≡ prefix_net Self.R.KeyBits.width (Self.R.KeyBits.number repr) len }
        ensures raw { Self.raw result ≡ (Self.net result).bits };

    /// The number without the host bits.
    fn mask(&self) -> Self::R
        requires { (Self.net self.now).len ≤ Self.R.KeyBits.width }
        ensures { Self.R.KeyBits.number result ≡ (Self.net self.now).bits };

    /// The width of the number.
    fn num_bits() -> u32
        ensures { result ≡ Self.R.KeyBits.width };

    /// Whether each address of the other prefix is one of this.
    fn contains(&self, other: &Self) -> bool
        requires len { (Self.net self.now).len ≤ Self.R.KeyBits.width }
        requires other { (Self.net other.now).len ≤ Self.R.KeyBits.width }
        ensures { IsTrue result ↔ (covers Self.R.KeyBits.width (Self.net self.now) (Self.net other.now) ≡ true) };

    /// The number's bits are those of its primitive integer, and the widths agree.
    ghost bits_law: { (x : Self.R) → Self.R.bits_of x ≡ Self.R.KeyBits.number x };

    ghost width_law: { bit_len Self.R.FixedWidth.width ≡ Self.R.KeyBits.width };
}

/// Whether a prefix lies in a place.
pub fn lies_in<W: KeyBits>(place: W, place_len: u32, key: W, len: u32) -> bool
    requires fits { W.number key < 2 ^ W.width }
    requires len { place_len ≤ W.width }
    ensures { IsTrue result ↔ (covers W.width (net_of (W.number place) place_len) (net_of (W.number key) len) ≡ true) }
{
    if len < place_len {
        return false;
    }
    let first = key.first_bits(place_len);
    first.is_at_most(place) && place.is_at_most(first)
}
