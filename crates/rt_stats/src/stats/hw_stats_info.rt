//! What is said of hardware that counts, of include/uapi/linux/if_link.h.
#![tactic(auto, using(nl_core::proofs::Wire::writes, crate::proofs::Lengths::lengths))]

ghost use Rattle.std.specs.Prelude.{◌≡◌, ◌∷◌, [], true, List, ℕ, Result};
ghost use Rattle.nl_core.specs.declared.error.DecodeError.{DecodeError};
ghost use Rattle.nl_core.specs.Attribute.{is_checked, attributes_text};
ghost use Rattle.rt_stats.specs.declared.stats.hw_stats_info.HwStatsInfo.{HwStatsInfo};
ghost use Rattle.rt_stats.specs.HwInfo.{info_text, info_at, info_by, number_said, number_says, says, updated, number_kind, number_value};

use nl_core::{
    DecodeError, Emitable, NLA_F_NESTED, Nla, NlaBuffer, attributes_len, emit_attributes,
    emit_bytes,
};

const IFLA_OFFLOAD_XSTATS_HW_S_INFO_REQUEST: u16 = 1;

const IFLA_OFFLOAD_XSTATS_HW_S_INFO_USED: u16 = 2;

const IFLA_OFFLOAD_XSTATS_L3_STATS: u16 = 3;

// The length of an attribute's header.
const NLA_HEADER_LEN: usize = 4;

// The length of a number as an attribute, with its padding.
const NUMBER_LEN: usize = 8;

/// What is said of the hardware that counts for a link.
#[derive(Clone, Debug, Default, PartialEq, Eq, Drop)]
pub struct HwStatsInfo {
    /// Whether it was asked to count.
    pub request: Option<u8>,
    /// Whether it counts.
    pub used: Option<u8>,
}

impl HwStatsInfo {
    /// What attributes say, the last one of a kind; `BadAttribute` where they are no attributes.
    /// What stands in an attribute of the counters of layer 3 counts as if it stood beside it.
    pub fn parse(payload: &[u8]) -> Result<Self, DecodeError>
        ensures { result ≡ info_at payload.now }
    {
        gather::<Outer>(payload)
    }

    // What was said before and what is said now, which counts where both say something.
    fn updated(self, said: HwStatsInfo) -> HwStatsInfo
        ensures { result ≡ updated self said }
    {
        HwStatsInfo {
            request: said.request.or(self.request),
            used: said.used.or(self.used),
        }
    }
}

// Attributes of one level.
trait Level {
    ghost says: { List ℕ → Result HwStatsInfo DecodeError };

    // What one of them says.
    fn said(nla: &NlaBuffer<'_>) -> Result<HwStatsInfo, DecodeError>
        requires { is_checked nla.now ≡ true }
        ensures { result ≡ says nla.now };
}

// What a number says; nothing where it has no byte, or is of another type.
fn number_said(nla: &NlaBuffer<'_>) -> HwStatsInfo
    requires { is_checked nla.now ≡ true }
    ensures { result ≡ number_said nla.now }
{
    let first = nla.value().first().copied();
    match nla.kind() {
        IFLA_OFFLOAD_XSTATS_HW_S_INFO_REQUEST => HwStatsInfo {
            request: first,
            used: None,
        },
        IFLA_OFFLOAD_XSTATS_HW_S_INFO_USED => HwStatsInfo {
            request: None,
            used: first,
        },
        _ => HwStatsInfo::default(),
    }
}

// Numbers within the attribute of the counters of layer 3.
struct Inner;

impl Level for Inner {
    ghost says = { number_says };

    fn said(nla: &NlaBuffer<'_>) -> Result<HwStatsInfo, DecodeError> {
        Ok(number_said(nla))
    }
}

// Numbers, and such an attribute, of which there may be more.
struct Outer;

impl Level for Outer {
    ghost says = { says };

    fn said(nla: &NlaBuffer<'_>) -> Result<HwStatsInfo, DecodeError> {
        if nla.kind() == IFLA_OFFLOAD_XSTATS_L3_STATS {
            return gather::<Inner>(nla.value());
        }
        Ok(number_said(nla))
    }
}

// What the attributes of one level say.
fn gather<L: Level>(bytes: &[u8]) -> Result<HwStatsInfo, DecodeError>
    ensures { result ≡ info_by L.says bytes.now }
{
    let mut info = HwStatsInfo::default();
    let mut rest = bytes;
    while rest.len() > 0 {
        let nla = NlaBuffer::new_checked(rest)?;
        let said = L::said(&nla)?;
        info = info.updated(said);
        rest = nla.after();
    }
    Ok(info)
}

// A number as an attribute.
#[derive(Drop)]
struct Number {
    kind: u16,
    value: u8,
}

impl Nla for Number {
    ghost kind_as_written = { number_kind };

    ghost value_text = { number_value };

    fn value_len(&self) -> usize {
        1
    }

    fn emit_value(&self, buf: &mut [u8]) {
        emit_bytes(buf, &[self.value]);
    }

    fn kind(&self) -> u16 {
        self.kind
    }
}

// Numbers within the attribute of the counters of layer 3.
#[derive(Drop)]
struct Numbers<'a>(&'a [Number]);

impl<'a> Nla for Numbers<'a> {
    ghost kind_as_written = { λ _. 32771 };

    ghost value_text = { λ n. attributes_text number_kind number_value n.0.now };

    fn value_len(&self) -> usize {
        attributes_len(self.0)
    }

    fn emit_value(&self, buf: &mut [u8]) {
        emit_attributes(self.0, buf);
    }

    fn kind(&self) -> u16 {
        IFLA_OFFLOAD_XSTATS_L3_STATS | NLA_F_NESTED
    }
}

// The number of the request.
fn request_of(value: u8) -> Number
    ensures { result ≡ record { kind = 1; value = value } }
{
    Number {
        kind: IFLA_OFFLOAD_XSTATS_HW_S_INFO_REQUEST,
        value,
    }
}

// The number of the use.
fn used_of(value: u8) -> Number
    ensures { result ≡ record { kind = 2; value = value } }
{
    Number {
        kind: IFLA_OFFLOAD_XSTATS_HW_S_INFO_USED,
        value,
    }
}

impl Emitable for HwStatsInfo {
    ghost text = { info_text };

    ghost fitting = { λ _. true };

    fn fits(&self) -> bool {
        true
    }

    fn buffer_len(&self) -> usize {
        match (self.request, self.used) {
            (None, None) => 0,
            (Some(_), Some(_)) => NLA_HEADER_LEN + 2 * NUMBER_LEN,
            _ => NLA_HEADER_LEN + NUMBER_LEN,
        }
    }

    fn emit(&self, buf: &mut [u8]) {
        match (self.request, self.used) {
            (Some(request), Some(used)) => {
                Numbers(&[request_of(request), used_of(used)]).emit(buf);
            }
            (Some(request), None) => Numbers(&[request_of(request)]).emit(buf),
            (None, Some(used)) => Numbers(&[used_of(used)]).emit(buf),
            (None, None) => {}
        }
    }
}
