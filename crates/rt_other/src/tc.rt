//! Messages on traffic control: queues, classes, filters and chains.
#![tactic(auto, using(nl_core::proofs::Wire::writes, crate::proofs::Headers::headers))]

ghost use Rattle.std.specs.Prelude.{◌≡◌, true, refl};
ghost use Rattle.std.proofs.Common.{arith, rules};
ghost use Rattle.nl_core.specs.Reading.{sized};
ghost use Rattle.rt_other.specs.Tc.{header_text, header_at, default_header, HeaderReadsBack};
ghost use Rattle.rt_other.specs.TcLaws.{length-header, header-again, header-read};

use crate::address_family::AddressFamily;
use crate::message::{Fixed, Header, Message};
use nl_core::{DecodeError, DefaultNla, Emitable, emit_bytes, i32_at, u32_at};

const HEADER_LEN: usize = 20;

/// The header of a message on traffic control, `struct tcmsg` of include/uapi/linux/rtnetlink.h.
#[derive(Clone, Debug, Default, PartialEq, Eq, Drop)]
pub struct TcHeader {
    /// The address family.
    pub family: AddressFamily,
    /// The index of the link.
    pub index: i32,
    /// The handle of the queue, class or filter.
    pub handle: u32,
    /// The handle of what it stands below.
    pub parent: u32,
    /// What its kind says of it.
    pub info: u32,
}

impl TcHeader {
    /// The header at the front of a payload; `TooSmall` where it has fewer than 20 bytes.
    pub fn parse(payload: &[u8]) -> Result<Self, DecodeError>
        ensures { result ≡ sized 20 payload.now (header_at payload.now) }
    {
        <TcHeader as Fixed>::parse(payload)
    }

    // The bytes of the header.
    #[tactic(auto, unfolding(crate::specs::Tc::header_text, nl_core::specs::Numbers::le32, nl_core::specs::Numbers::le_i32))]
    fn to_bytes(&self) -> [u8; HEADER_LEN]
        ensures { result ≡ header_text self.now }
    {
        let index = self.index.to_le_bytes();
        let handle = self.handle.to_le_bytes();
        let parent = self.parent.to_le_bytes();
        let info = self.info.to_le_bytes();
        [
            self.family.into(),
            0,
            0,
            0,
            index[0],
            index[1],
            index[2],
            index[3],
            handle[0],
            handle[1],
            handle[2],
            handle[3],
            parent[0],
            parent[1],
            parent[2],
            parent[3],
            info[0],
            info[1],
            info[2],
            info[3],
        ]
    }
}

impl Emitable for TcHeader {
    ghost text = { header_text };

    ghost fitting = { λ _. true };

    fn fits(&self) -> bool {
        true
    }

    fn buffer_len(&self) -> usize {
        HEADER_LEN
    }

    fn emit(&self, buf: &mut [u8]) {
        emit_bytes(buf, &self.to_bytes());
    }
}

impl Fixed for TcHeader {
    ghost LEN = { 20 };

    ghost read = { header_at };

    ghost ReadsBack = { HeaderReadsBack };

    ghost is_short = { omega arith };

    ghost always_fits = { λ h. refl };

    ghost text_length = { length-header };

    ghost reads_back = { header-again };

    ghost read_reads_back = { header-read };

    const LEN: usize = HEADER_LEN;

    fn at_front(bytes: &[u8]) -> Self {
        TcHeader {
            family: bytes[0].into(),
            index: i32_at(bytes, 4),
            handle: u32_at(bytes, 8),
            parent: u32_at(bytes, 12),
            info: u32_at(bytes, 16),
        }
    }
}

impl Header for TcHeader {
    type Param = ();

    ghost zeros = { default_header };

    ghost by = { λ _. tt };

    ghost default_is_zeros = { λ h is. Prim.search (rules, is) };

    ghost clone_is_same = { λ h g is. Prim.search (rules, is) };

    fn param(&self) {}
}

/// A message on traffic control.
pub type TcMessage = Message<TcHeader, DefaultNla>;
