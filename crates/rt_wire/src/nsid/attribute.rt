//! Attributes of network namespaces, of include/uapi/linux/net_namespace.h.
#![tactic(auto, using(nl_core::proofs::Wire::writes))]

ghost use Rattle.std.specs.Prelude.{◌≡◌, []};
ghost use Rattle.rt_layout.specs.Value.{value_text};
ghost use Rattle.rt_wire.specs.NsidAttribute.{kind, value, attribute_at, ReadsBack};
ghost use Rattle.rt_wire.specs.NsidAttributeLaws.{attribute-again, attribute-read};

use nl_core::{
    DecodeError, DefaultNla, Nla, NlaBuffer, NoMemory, Parseable, TryClone, parse_i32, parse_u32,
};
use rt_layout::{NoStruct, Value};
use rt_other::Attribute;
use std::alloc::Global;

const NETNSA_NSID: u16 = 1;

const NETNSA_PID: u16 = 2;

const NETNSA_FD: u16 = 3;

const NETNSA_TARGET_NSID: u16 = 4;

const NETNSA_CURRENT_NSID: u16 = 5;

/// An attribute of a network namespace.
#[derive(Debug, PartialEq, Eq, Drop)]
pub enum NsidAttribute {
    /// The number of the namespace, or -1 for none.
    Id(i32),
    /// A process in the namespace.
    Pid(u32),
    /// An open file that stands for the namespace.
    Fd(u32),
    /// The number of the namespace that is asked.
    TargetNsid(i32),
    /// The number in the namespace that asks.
    CurrentNsid(i32),
    /// Any other one.
    Other(DefaultNla),
}

impl NsidAttribute {
    // The type, and the value as it is written.
    fn row(&self) -> (u16, Value<'_, NoStruct>)
        ensures kind { result.0 ≡ kind self.now }
        ensures value { value_text (λ _. []) result.1 ≡ value self.now }
    {
        match self {
            Self::Id(nsid) => (NETNSA_NSID, Value::I32(*nsid)),
            Self::Pid(pid) => (NETNSA_PID, Value::U32(*pid)),
            Self::Fd(fd) => (NETNSA_FD, Value::U32(*fd)),
            Self::TargetNsid(nsid) => (NETNSA_TARGET_NSID, Value::I32(*nsid)),
            Self::CurrentNsid(nsid) => (NETNSA_CURRENT_NSID, Value::I32(*nsid)),
            Self::Other(nla) => (nla.kind, Value::Bytes(nla.value.as_slice())),
        }
    }
}

impl Nla for NsidAttribute {
    ghost kind_as_written = { kind };

    ghost value_text = { value };

    fn value_len(&self) -> usize {
        self.row().1.len()
    }

    fn emit_value(&self, buf: &mut [u8]) {
        self.row().1.emit(buf);
    }

    fn kind(&self) -> u16 {
        self.row().0
    }
}

impl<'a> Parseable<NlaBuffer<'a>> for NsidAttribute {
    ghost reads = { attribute_at };

    fn parse(alloc: Global, buf: &NlaBuffer<'a>) -> Result<Self, DecodeError> {
        let value = buf.value();
        match buf.kind() {
            NETNSA_NSID => Ok(Self::Id(parse_i32(value)?)),
            NETNSA_PID => Ok(Self::Pid(parse_u32(value)?)),
            NETNSA_FD => Ok(Self::Fd(parse_u32(value)?)),
            NETNSA_TARGET_NSID => Ok(Self::TargetNsid(parse_i32(value)?)),
            NETNSA_CURRENT_NSID => Ok(Self::CurrentNsid(parse_i32(value)?)),
            _ => Ok(Self::Other(DefaultNla::parse(alloc, buf)?)),
        }
    }
}

impl<'a> Attribute<'a, ()> for NsidAttribute {
    ghost ReadsBack = { λ _ x. ReadsBack x };

    ghost reads_back = { attribute-again };

    ghost read_reads_back = { attribute-read };
}

impl TryClone for NsidAttribute {
    fn clone_with(&self) -> Result<Self, NoMemory> {
        match self {
            Self::Id(nsid) => Ok(Self::Id(*nsid)),
            Self::Pid(pid) => Ok(Self::Pid(*pid)),
            Self::Fd(fd) => Ok(Self::Fd(*fd)),
            Self::TargetNsid(nsid) => Ok(Self::TargetNsid(*nsid)),
            Self::CurrentNsid(nsid) => Ok(Self::CurrentNsid(*nsid)),
            Self::Other(nla) => Ok(Self::Other(nla.clone_with()?)),
        }
    }
}
