//! Which statistics are asked for.

ghost use Rattle.std.specs.Prelude.{⊤, ◌≡◌, ◌==◌};
ghost use Rattle.std.specs.Int.RustNames.{bit_and, bit_or};
ghost use Rattle.rt_stats.specs.FilterMask.{mask_table};

use bitflags::{Flag, Flags};
use std::ops::BitOr;

/// Which statistics are asked for, the `IFLA_STATS_FILTER_BIT` bits of include/uapi/linux/if_link.h.
/// All bits are kept.
#[derive(Clone, Copy, Debug, Default, PartialEq, Eq, Hash)]
pub struct StatsFilterMask(pub u32);

impl StatsFilterMask {
    /// The counters of each link.
    pub const Link64: StatsFilterMask = StatsFilterMask(1);
    /// The extended statistics of bridges and bonds.
    pub const LinkXstats: StatsFilterMask = StatsFilterMask(2);
    /// The extended statistics of their ports.
    pub const LinkXstatsPort: StatsFilterMask = StatsFilterMask(4);
    /// What hardware counts.
    pub const LinkOffloadXstats: StatsFilterMask = StatsFilterMask(8);
    /// The statistics by address family.
    pub const AfSpec: StatsFilterMask = StatsFilterMask(0x10);

    const FLAGS: &'static [Flag<StatsFilterMask>] = &[
        Flag {
            name: "Link64",
            value: StatsFilterMask::Link64,
        },
        Flag {
            name: "LinkXstats",
            value: StatsFilterMask::LinkXstats,
        },
        Flag {
            name: "LinkXstatsPort",
            value: StatsFilterMask::LinkXstatsPort,
        },
        Flag {
            name: "LinkOffloadXstats",
            value: StatsFilterMask::LinkOffloadXstats,
        },
        Flag {
            name: "AfSpec",
            value: StatsFilterMask::AfSpec,
        },
        Flag {
            name: "",
            value: StatsFilterMask(u32::MAX),
        },
    ];

    /// No bit.
    pub fn empty() -> Self
        ensures { result.0 ≡ 0 }
    {
        StatsFilterMask(0)
    }

    /// Every bit.
    pub fn all() -> Self
        ensures { result.0 ≡ u32.MAX }
    {
        StatsFilterMask(u32::MAX)
    }

    /// The bits.
    pub fn bits(&self) -> u32
        ensures { result ≡ self.now.0 }
    {
        self.0
    }

    /// These bits, with or without names.
    pub fn from_bits_retain(bits: u32) -> Self
        ensures { result.0 ≡ bits }
    {
        StatsFilterMask(bits)
    }

    /// Whether all bits of another one are here.
    pub fn contains(&self, other: Self) -> bool
        ensures { result ≡ (bit_and self.now.0 other.0 == other.0) }
    {
        self.0 & other.0 == other.0
    }
}

impl BitOr for StatsFilterMask {
    type Output = StatsFilterMask;

    ghost bitor_gives = { λ a b r. r.0 ≡ bit_or a.0 b.0 };

    fn bitor(self, other: StatsFilterMask) -> StatsFilterMask {
        StatsFilterMask(self.0 | other.0)
    }
}

impl Flags for StatsFilterMask {
    type Bits = u32;

    ghost exact = { ⊤ };

    ghost table = { mask_table };

    ghost set_of = { λ f. f.0 };

    fn flags<'a>() -> &'a [Flag<StatsFilterMask>] {
        StatsFilterMask::FLAGS
    }

    fn bits(&self) -> u32 {
        self.0
    }

    fn from_bits_retain(bits: u32) -> StatsFilterMask {
        StatsFilterMask(bits)
    }
}
