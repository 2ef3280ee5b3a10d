//! The bytes of headers and of fixed structs.

ghost use Rattle.std.specs.Prelude.{◌≡◌, ◌==◌, List, ℕ};
ghost use Rattle.std.specs.Cmp.Lexicographic.{pointwise, lists_per, lists_equiv};
ghost use Rattle.std.specs.Cmp.{nat_eq_equiv, partial_equiv_from_equiv};

use std::alloc::AllocError;
use std::marker::{Model, PhantomData};

/// The `N` bytes of an `X`, a header or another struct of a fixed length; a contract sees the list
/// of them. They are made from an `X` by `From`.
#[derive(Debug, Drop)]
pub struct FixedBuffer<X, const N: usize> {
    bytes: [u8; N],
    of: PhantomData<X>,
}

impl<X, const N: usize> Model for FixedBuffer<X, N> {
    ghost Value = { List ℕ };

    ghost view = { λ b. b.bytes };
}

impl<X, const N: usize> FixedBuffer<X, N> {
    /// The buffer that holds these bytes.
    pub fn from_bytes(bytes: [u8; N]) -> Self
        ensures { result ≡ bytes.entry }
    {
        FixedBuffer {
            bytes,
            of: PhantomData,
        }
    }

    /// The bytes.
    pub fn to_bytes(&self) -> [u8; N]
        ensures { result ≡ self.now }
    {
        self.bytes
    }
}

impl<X, const N: usize> Clone for FixedBuffer<X, N> {
    ghost is_clone = { λ b copy. copy ≡ b };

    fn clone(&self) -> Result<Self, AllocError> {
        Ok(FixedBuffer::from_bytes(self.bytes))
    }
}

impl<X, const N: usize> PartialEq for FixedBuffer<X, N> {
    ghost eq = { pointwise ◌==◌ };

    ghost laws = { lists_per (partial_equiv_from_equiv nat_eq_equiv) };

    fn eq(&self, other: &Self) -> bool {
        self.bytes == other.bytes
    }
}

impl<X, const N: usize> Eq for FixedBuffer<X, N> {
    ghost laws = { lists_equiv nat_eq_equiv };
}
