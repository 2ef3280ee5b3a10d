//! Prefixes of 32, 64 and 128 bits, as a number and a length.

ghost use Rattle.std.specs.Prelude.{refl};
ghost use Rattle.std.proofs.Common.{lit≤};
ghost use Rattle.trie_model.specs.Spots.{prefix_net};

use crate::prefix::{KeyBits, PlainPrefix, Prefix};

impl KeyBits for u32 {
    ghost number = { λ x. x };

    ghost width = { 32 };

    ghost width_law = { lit≤ tt };

    fn bits() -> u32 {
        32
    }

    fn zero() -> u32 {
        0
    }

    fn first_bits(self, len: u32) -> u32 {
        if len == 0 {
            return 0;
        }
        let rest = 32 - len;
        (self >> rest) << rest
    }

    fn five_bits(self, depth: u32) -> u32 {
        if depth == 32 {
            return 0;
        }
        self << depth >> 27
    }

    fn with_bits(self, depth: u32, count: u32, bits: u32) -> u32 {
        let first = self.first_bits(depth);
        if count == 0 {
            return first;
        }
        first + (bits << (32 - (depth + count)))
    }

    fn common_bits(self, other: u32) -> u32 {
        (self ^ other).leading_zeros()
    }

    fn is_at_most(self, other: u32) -> bool {
        self <= other
    }
}

impl PlainPrefix for (u32, u8) {
    type Number = u32;

    ghost net = { λ p. prefix_net 32 p.0 p.1 };

    ghost raw = { λ p. p.0 };

    fn length(&self) -> u8 {
        self.1
    }

    fn number(&self) -> u32 {
        self.0.first_bits(self.1 as u32)
    }

    fn raw_number(&self) -> u32 {
        self.0
    }

    fn from_number(number: u32, len: u8) -> (u32, u8) {
        (number.first_bits(len as u32), len)
    }

    ghost net_law = { λ p. refl };

    ghost one_law = { λ p q len raw i. (raw i, len i) };

    ghost net_onto = { λ n ok. ((n.bits, n.len), (λ i. record { bits = ok.no_rest i; len = n.len }), refl) };
}

impl Prefix for (u32, u8) {
    type R = u32;

    fn repr(&self) -> u32 {
        self.0
    }

    fn prefix_len(&self) -> u8 {
        self.1
    }

    fn from_repr_len(repr: u32, len: u8) -> (u32, u8) {
        PlainPrefix::from_number(repr, len)
    }

    fn mask(&self) -> u32 {
        self.number()
    }

    fn num_bits() -> u32 {
        32
    }

    fn contains(&self, other: &(u32, u8)) -> bool {
        self.1 <= other.1 && other.0.first_bits(self.1 as u32) == self.number()
    }

    ghost bits_law = { λ x. refl };

    ghost width_law = { refl };
}

impl KeyBits for u64 {
    ghost number = { λ x. x };

    ghost width = { 64 };

    ghost width_law = { lit≤ tt };

    fn bits() -> u32 {
        64
    }

    fn zero() -> u64 {
        0
    }

    fn first_bits(self, len: u32) -> u64 {
        if len == 0 {
            return 0;
        }
        let rest = 64 - len;
        (self >> rest) << rest
    }

    fn five_bits(self, depth: u32) -> u32 {
        if depth == 64 {
            return 0;
        }
        (self << depth >> 59) as u32
    }

    fn with_bits(self, depth: u32, count: u32, bits: u32) -> u64 {
        let first = self.first_bits(depth);
        if count == 0 {
            return first;
        }
        first + ((bits as u64) << (64 - (depth + count)))
    }

    fn common_bits(self, other: u64) -> u32 {
        (self ^ other).leading_zeros()
    }

    fn is_at_most(self, other: u64) -> bool {
        self <= other
    }
}

impl PlainPrefix for (u64, u8) {
    type Number = u64;

    ghost net = { λ p. prefix_net 64 p.0 p.1 };

    ghost raw = { λ p. p.0 };

    fn length(&self) -> u8 {
        self.1
    }

    fn number(&self) -> u64 {
        self.0.first_bits(self.1 as u32)
    }

    fn raw_number(&self) -> u64 {
        self.0
    }

    fn from_number(number: u64, len: u8) -> (u64, u8) {
        (number.first_bits(len as u32), len)
    }

    ghost net_law = { λ p. refl };

    ghost one_law = { λ p q len raw i. (raw i, len i) };

    ghost net_onto = { λ n ok. ((n.bits, n.len), (λ i. record { bits = ok.no_rest i; len = n.len }), refl) };
}

impl Prefix for (u64, u8) {
    type R = u64;

    fn repr(&self) -> u64 {
        self.0
    }

    fn prefix_len(&self) -> u8 {
        self.1
    }

    fn from_repr_len(repr: u64, len: u8) -> (u64, u8) {
        PlainPrefix::from_number(repr, len)
    }

    fn mask(&self) -> u64 {
        self.number()
    }

    fn num_bits() -> u32 {
        64
    }

    fn contains(&self, other: &(u64, u8)) -> bool {
        self.1 <= other.1 && other.0.first_bits(self.1 as u32) == self.number()
    }

    ghost bits_law = { λ x. refl };

    ghost width_law = { refl };
}

impl KeyBits for u128 {
    ghost number = { λ x. x };

    ghost width = { 128 };

    ghost width_law = { lit≤ tt };

    fn bits() -> u32 {
        128
    }

    fn zero() -> u128 {
        0
    }

    fn first_bits(self, len: u32) -> u128 {
        if len == 0 {
            return 0;
        }
        let rest = 128 - len;
        (self >> rest) << rest
    }

    fn five_bits(self, depth: u32) -> u32 {
        if depth == 128 {
            return 0;
        }
        (self << depth >> 123) as u32
    }

    fn with_bits(self, depth: u32, count: u32, bits: u32) -> u128 {
        let first = self.first_bits(depth);
        if count == 0 {
            return first;
        }
        first + ((bits as u128) << (128 - (depth + count)))
    }

    fn common_bits(self, other: u128) -> u32 {
        (self ^ other).leading_zeros()
    }

    fn is_at_most(self, other: u128) -> bool {
        self <= other
    }
}

impl PlainPrefix for (u128, u8) {
    type Number = u128;

    ghost net = { λ p. prefix_net 128 p.0 p.1 };

    ghost raw = { λ p. p.0 };

    fn length(&self) -> u8 {
        self.1
    }

    fn number(&self) -> u128 {
        self.0.first_bits(self.1 as u32)
    }

    fn raw_number(&self) -> u128 {
        self.0
    }

    fn from_number(number: u128, len: u8) -> (u128, u8) {
        (number.first_bits(len as u32), len)
    }

    ghost net_law = { λ p. refl };

    ghost one_law = { λ p q len raw i. (raw i, len i) };

    ghost net_onto = { λ n ok. ((n.bits, n.len), (λ i. record { bits = ok.no_rest i; len = n.len }), refl) };
}

impl Prefix for (u128, u8) {
    type R = u128;

    fn repr(&self) -> u128 {
        self.0
    }

    fn prefix_len(&self) -> u8 {
        self.1
    }

    fn from_repr_len(repr: u128, len: u8) -> (u128, u8) {
        PlainPrefix::from_number(repr, len)
    }

    fn mask(&self) -> u128 {
        self.number()
    }

    fn num_bits() -> u32 {
        128
    }

    fn contains(&self, other: &(u128, u8)) -> bool {
        self.1 <= other.1 && other.0.first_bits(self.1 as u32) == self.number()
    }

    ghost bits_law = { λ x. refl };

    ghost width_law = { refl };
}
