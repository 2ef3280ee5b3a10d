//! States of neighbours.
#![tactic(auto)]

ghost use Rattle.std.specs.Prelude.{◌≡◌, Some};
ghost use Rattle.rt_neighbour.specs.State.{state_of, state_number, state_name, named, state_at};

use nl_core::DecodeError;
use std::fmt;
use std::str::FromStr;

/// The state of a neighbour, by the `NUD_` number that stands for it in
/// include/uapi/linux/neighbour.h.
#[derive(Clone, Copy, Debug, Default, PartialEq, Eq)]
pub enum NeighbourState {
    /// It is asked for, and has not answered yet.
    Incomplete,
    /// It has answered.
    Reachable,
    /// It has answered some time ago.
    Stale,
    /// It is about to be asked again.
    Delay,
    /// It is asked again.
    Probe,
    /// It has not answered.
    Failed,
    /// It needs no asking.
    Noarp,
    /// It was set and stays.
    Permanent,
    /// No state yet.
    #[default]
    None,
    /// Any other number.
    Other(u16),
}

impl From<u16> for NeighbourState {
    ghost from_gives = { λ n s. s ≡ state_of n };

    fn from(number: u16) -> Self {
        match number {
            1 => Self::Incomplete,
            2 => Self::Reachable,
            4 => Self::Stale,
            8 => Self::Delay,
            0x10 => Self::Probe,
            0x20 => Self::Failed,
            0x40 => Self::Noarp,
            0x80 => Self::Permanent,
            0 => Self::None,
            n => Self::Other(n),
        }
    }
}

impl From<NeighbourState> for u16 {
    ghost from_gives = { λ s n. n ≡ state_number s };

    fn from(state: NeighbourState) -> u16 {
        match state {
            NeighbourState::Incomplete => 1,
            NeighbourState::Reachable => 2,
            NeighbourState::Stale => 4,
            NeighbourState::Delay => 8,
            NeighbourState::Probe => 0x10,
            NeighbourState::Failed => 0x20,
            NeighbourState::Noarp => 0x40,
            NeighbourState::Permanent => 0x80,
            NeighbourState::None => 0,
            NeighbourState::Other(n) => n,
        }
    }
}

impl fmt::Display for NeighbourState {
    ghost output = { λ s. Some (state_name s) };

    fn fmt<W: fmt::Write>(&self, f: &mut fmt::Formatter<W>) -> fmt::Result {
        match self {
            Self::Incomplete => f.write_str("incomplete"),
            Self::Reachable => f.write_str("reachable"),
            Self::Stale => f.write_str("stale"),
            Self::Delay => f.write_str("delay"),
            Self::Probe => f.write_str("probe"),
            Self::Failed => f.write_str("failed"),
            Self::Noarp => f.write_str("noarp"),
            Self::Permanent => f.write_str("permanent"),
            Self::None => f.write_str("none"),
            Self::Other(n) => write!(f, "other({n})"),
        }
    }
}

// The state of a name; `None` where the text is none of the nine.
fn state_named(text: &str) -> Option<NeighbourState>
    ensures { result ≡ named text.now }
{
    if text == "incomplete" {
        return Some(NeighbourState::Incomplete);
    }
    if text == "reachable" {
        return Some(NeighbourState::Reachable);
    }
    if text == "stale" {
        return Some(NeighbourState::Stale);
    }
    if text == "delay" {
        return Some(NeighbourState::Delay);
    }
    if text == "probe" {
        return Some(NeighbourState::Probe);
    }
    if text == "failed" {
        return Some(NeighbourState::Failed);
    }
    if text == "noarp" {
        return Some(NeighbourState::Noarp);
    }
    if text == "permanent" {
        return Some(NeighbourState::Permanent);
    }
    if text == "none" {
        return Some(NeighbourState::None);
    }
    None
}

impl FromStr for NeighbourState {
    type Err = DecodeError;

    ghost from_str_gives = { λ text r. r ≡ state_at text };

    /// The state of a lower-case name; `BadText` exactly where the text is none of the nine.
    fn from_str(text: &str) -> Result<Self, DecodeError> {
        state_named(text).ok_or(DecodeError::BadText)
    }
}
