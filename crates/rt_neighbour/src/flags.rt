//! Flags of neighbours.

ghost use Rattle.std.specs.Prelude.{⊤, ◌≡◌, ◌==◌};
ghost use Rattle.std.specs.Int.RustNames.{bit_and, bit_or};
ghost use Rattle.rt_neighbour.specs.Flags.{flag_table, ext_flag_table};

use bitflags::{Flag, Flags};
use std::ops::BitOr;

/// Flags of a neighbour, the `NTF_` bits of include/uapi/linux/neighbour.h. All bits are kept.
#[derive(Clone, Copy, Debug, Default, PartialEq, Eq)]
pub struct NeighbourFlags(pub u8);

impl NeighbourFlags {
    /// The neighbour is in use.
    pub const Use: NeighbourFlags = NeighbourFlags(1);
    /// The address is the link's own.
    pub const Own: NeighbourFlags = NeighbourFlags(2);
    /// It belongs to the controller of the link.
    pub const Controller: NeighbourFlags = NeighbourFlags(4);
    /// It is answered for by proxy.
    pub const Proxy: NeighbourFlags = NeighbourFlags(8);
    /// It was learned from outside.
    pub const ExtLearned: NeighbourFlags = NeighbourFlags(0x10);
    /// It is in the hardware.
    pub const Offloaded: NeighbourFlags = NeighbourFlags(0x20);
    /// It does not move to another port.
    pub const Sticky: NeighbourFlags = NeighbourFlags(0x40);
    /// It is a router.
    pub const Router: NeighbourFlags = NeighbourFlags(0x80);

    const FLAGS: &'static [Flag<NeighbourFlags>] = &[
        Flag {
            name: "Use",
            value: NeighbourFlags::Use,
        },
        Flag {
            name: "Own",
            value: NeighbourFlags::Own,
        },
        Flag {
            name: "Controller",
            value: NeighbourFlags::Controller,
        },
        Flag {
            name: "Proxy",
            value: NeighbourFlags::Proxy,
        },
        Flag {
            name: "ExtLearned",
            value: NeighbourFlags::ExtLearned,
        },
        Flag {
            name: "Offloaded",
            value: NeighbourFlags::Offloaded,
        },
        Flag {
            name: "Sticky",
            value: NeighbourFlags::Sticky,
        },
        Flag {
            name: "Router",
            value: NeighbourFlags::Router,
        },
    ];

    /// No bit.
    pub fn empty() -> Self
        ensures { result.0 ≡ 0 }
    {
        NeighbourFlags(0)
    }

    /// Every bit.
    pub fn all() -> Self
        ensures { result.0 ≡ u8.MAX }
    {
        NeighbourFlags(u8::MAX)
    }

    /// The bits.
    pub fn bits(&self) -> u8
        ensures { result ≡ self.now.0 }
    {
        self.0
    }

    /// These bits, with or without names.
    pub fn from_bits_retain(bits: u8) -> Self
        ensures { result.0 ≡ bits }
    {
        NeighbourFlags(bits)
    }

    /// Whether all bits of another one are here.
    pub fn contains(&self, other: Self) -> bool
        ensures { result ≡ (bit_and self.now.0 other.0 == other.0) }
    {
        self.0 & other.0 == other.0
    }
}

impl BitOr for NeighbourFlags {
    type Output = NeighbourFlags;

    ghost bitor_gives = { λ a b r. r.0 ≡ bit_or a.0 b.0 };

    fn bitor(self, other: NeighbourFlags) -> NeighbourFlags {
        NeighbourFlags(self.0 | other.0)
    }
}

impl Flags for NeighbourFlags {
    type Bits = u8;

    ghost exact = { ⊤ };

    ghost table = { flag_table };

    ghost set_of = { λ f. f.0 };

    fn flags<'a>() -> &'a [Flag<NeighbourFlags>] {
        NeighbourFlags::FLAGS
    }

    fn bits(&self) -> u8 {
        self.0
    }

    fn from_bits_retain(bits: u8) -> NeighbourFlags {
        NeighbourFlags(bits)
    }
}

/// Further flags of a neighbour, the `NTF_EXT_` bits of include/uapi/linux/neighbour.h. All bits
/// are kept.
#[derive(Clone, Copy, Debug, Default, PartialEq, Eq)]
pub struct NeighbourExtFlags(pub u32);

impl NeighbourExtFlags {
    /// The kernel keeps the neighbour reachable.
    pub const Managed: NeighbourExtFlags = NeighbourExtFlags(1);
    /// It may not be changed from outside.
    pub const Locked: NeighbourExtFlags = NeighbourExtFlags(2);
    /// It is validated from outside.
    pub const ExtValidated: NeighbourExtFlags = NeighbourExtFlags(4);

    const FLAGS: &'static [Flag<NeighbourExtFlags>] = &[
        Flag {
            name: "Managed",
            value: NeighbourExtFlags::Managed,
        },
        Flag {
            name: "Locked",
            value: NeighbourExtFlags::Locked,
        },
        Flag {
            name: "ExtValidated",
            value: NeighbourExtFlags::ExtValidated,
        },
        Flag {
            name: "",
            value: NeighbourExtFlags(u32::MAX),
        },
    ];

    /// No bit.
    pub fn empty() -> Self
        ensures { result.0 ≡ 0 }
    {
        NeighbourExtFlags(0)
    }

    /// Every bit.
    pub fn all() -> Self
        ensures { result.0 ≡ u32.MAX }
    {
        NeighbourExtFlags(u32::MAX)
    }

    /// The bits.
    pub fn bits(&self) -> u32
        ensures { result ≡ self.now.0 }
    {
        self.0
    }

    /// These bits, with or without names.
    pub fn from_bits_retain(bits: u32) -> Self
        ensures { result.0 ≡ bits }
    {
        NeighbourExtFlags(bits)
    }

    /// Whether all bits of another one are here.
    pub fn contains(&self, other: Self) -> bool
        ensures { result ≡ (bit_and self.now.0 other.0 == other.0) }
    {
        self.0 & other.0 == other.0
    }
}

impl BitOr for NeighbourExtFlags {
    type Output = NeighbourExtFlags;

    ghost bitor_gives = { λ a b r. r.0 ≡ bit_or a.0 b.0 };

    fn bitor(self, other: NeighbourExtFlags) -> NeighbourExtFlags {
        NeighbourExtFlags(self.0 | other.0)
    }
}

impl Flags for NeighbourExtFlags {
    type Bits = u32;

    ghost exact = { ⊤ };

    ghost table = { ext_flag_table };

    ghost set_of = { λ f. f.0 };

    fn flags<'a>() -> &'a [Flag<NeighbourExtFlags>] {
        NeighbourExtFlags::FLAGS
    }

    fn bits(&self) -> u32 {
        self.0
    }

    fn from_bits_retain(bits: u32) -> NeighbourExtFlags {
        NeighbourExtFlags(bits)
    }
}
