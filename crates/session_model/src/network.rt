//! Addresses and networks of both families.

/// An address. Its number is its octets, highest first.
#[derive(Clone, Copy, Debug, PartialEq, Eq)]
pub enum Address {
    V4(u32),
    V6(u128),
}

/// A network: the number of an address in it, and how many of its leading bits count, at most 32 or 128.
#[derive(Clone, Copy, Debug, PartialEq, Eq)]
pub enum Network {
    V4((u32, u8)),
    V6((u128, u8)),
}
