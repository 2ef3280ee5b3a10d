//! Messages on actions of traffic control.
#![tactic(auto, using(nl_core::proofs::Wire::writes, crate::proofs::Headers::headers))]

ghost use Rattle.std.specs.Prelude.{◌≡◌, true, refl};
ghost use Rattle.std.proofs.Common.{arith, rules};
ghost use Rattle.nl_core.specs.Reading.{sized};
ghost use Rattle.rt_other.specs.TcAction.{header_text, header_at, default_header, HeaderReadsBack};
ghost use Rattle.rt_other.specs.TcActionLaws.{length-header, header-again, header-read};

use crate::address_family::AddressFamily;
use crate::message::{Fixed, Header, Message};
use nl_core::{DecodeError, DefaultNla, Emitable, emit_bytes};

const HEADER_LEN: usize = 4;

/// The header of a message on an action of traffic control, `struct tcamsg` of
/// include/uapi/linux/rtnetlink.h.
#[derive(Clone, Debug, Default, PartialEq, Eq, Drop)]
pub struct TcActionHeader {
    /// The address family.
    pub family: AddressFamily,
}

impl TcActionHeader {
    /// The header at the front of a payload; `TooSmall` where it has fewer than 4 bytes.
    pub fn parse(payload: &[u8]) -> Result<Self, DecodeError>
        ensures { result ≡ sized 4 payload.now (header_at payload.now) }
    {
        <TcActionHeader as Fixed>::parse(payload)
    }

    // The bytes of the header.
    #[tactic(auto, unfolding(crate::specs::TcAction::header_text))]
    fn to_bytes(&self) -> [u8; HEADER_LEN]
        ensures { result ≡ header_text self.now }
    {
        [self.family.into(), 0, 0, 0]
    }
}

impl Emitable for TcActionHeader {
    ghost text = { header_text };

    ghost fitting = { λ _. true };

    fn fits(&self) -> bool {
        true
    }

    fn buffer_len(&self) -> usize {
        HEADER_LEN
    }

    fn emit(&self, buf: &mut [u8]) {
        emit_bytes(buf, &self.to_bytes());
    }
}

impl Fixed for TcActionHeader {
    ghost LEN = { 4 };

    ghost read = { header_at };

    ghost ReadsBack = { HeaderReadsBack };

    ghost is_short = { omega arith };

    ghost always_fits = { λ h. refl };

    ghost text_length = { length-header };

    ghost reads_back = { header-again };

    ghost read_reads_back = { header-read };

    const LEN: usize = HEADER_LEN;

    fn at_front(bytes: &[u8]) -> Self {
        TcActionHeader {
            family: bytes[0].into(),
        }
    }
}

impl Header for TcActionHeader {
    type Param = ();

    ghost zeros = { default_header };

    ghost by = { λ _. tt };

    ghost default_is_zeros = { λ h is. Prim.search (rules, is) };

    ghost clone_is_same = { λ h g is. Prim.search (rules, is) };

    fn param(&self) {}
}

/// A message on an action of traffic control.
pub type TcActionMessage = Message<TcActionHeader, DefaultNla>;
