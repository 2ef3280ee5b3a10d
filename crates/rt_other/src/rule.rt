//! Messages on rules of route look-ups.
#![tactic(auto, using(nl_core::proofs::Wire::writes, crate::proofs::Headers::headers))]

ghost use Rattle.std.specs.Prelude.{◌≡◌, true, refl};
ghost use Rattle.std.proofs.Common.{arith, rules};
ghost use Rattle.nl_core.specs.Reading.{sized};
ghost use Rattle.rt_other.specs.Rule.{header_text, header_at, default_header, HeaderReadsBack};
ghost use Rattle.rt_other.specs.RuleLaws.{length-header, header-again, header-read};

use crate::address_family::AddressFamily;
use crate::message::{Fixed, Header, Message};
use nl_core::{DecodeError, DefaultNla, Emitable, emit_bytes, u32_at};

const HEADER_LEN: usize = 12;

/// The header of a message on a rule of route look-ups, `struct fib_rule_hdr` of
/// include/uapi/linux/fib_rules.h.
#[derive(Clone, Debug, Default, PartialEq, Eq, Drop)]
pub struct RuleHeader {
    /// The address family.
    pub family: AddressFamily,
    /// The length of the destination prefix in bits.
    pub dst_len: u8,
    /// The length of the source prefix in bits.
    pub src_len: u8,
    /// The type of service.
    pub tos: u8,
    /// The routing table.
    pub table: u8,
    /// What the rule does, an `FR_ACT_` number.
    pub action: u8,
    /// The `FIB_RULE_` flags.
    pub flags: u32,
}

impl RuleHeader {
    /// The header at the front of a payload; `TooSmall` where it has fewer than 12 bytes.
    pub fn parse(payload: &[u8]) -> Result<Self, DecodeError>
        ensures { result ≡ sized 12 payload.now (header_at payload.now) }
    {
        <RuleHeader as Fixed>::parse(payload)
    }

    // The bytes of the header.
    #[tactic(auto, unfolding(crate::specs::Rule::header_text, nl_core::specs::Numbers::le32))]
    fn to_bytes(&self) -> [u8; HEADER_LEN]
        ensures { result ≡ header_text self.now }
    {
        let flags = self.flags.to_le_bytes();
        [
            self.family.into(),
            self.dst_len,
            self.src_len,
            self.tos,
            self.table,
            0,
            0,
            self.action,
            flags[0],
            flags[1],
            flags[2],
            flags[3],
        ]
    }
}

impl Emitable for RuleHeader {
    ghost text = { header_text };

    ghost fitting = { λ _. true };

    fn fits(&self) -> bool {
        true
    }

    fn buffer_len(&self) -> usize {
        HEADER_LEN
    }

    fn emit(&self, buf: &mut [u8]) {
        emit_bytes(buf, &self.to_bytes());
    }
}

impl Fixed for RuleHeader {
    ghost LEN = { 12 };

    ghost read = { header_at };

    ghost ReadsBack = { HeaderReadsBack };

    ghost is_short = { omega arith };

    ghost always_fits = { λ h. refl };

    ghost text_length = { length-header };

    ghost reads_back = { header-again };

    ghost read_reads_back = { header-read };

    const LEN: usize = HEADER_LEN;

    fn at_front(bytes: &[u8]) -> Self {
        RuleHeader {
            family: bytes[0].into(),
            dst_len: bytes[1],
            src_len: bytes[2],
            tos: bytes[3],
            table: bytes[4],
            action: bytes[7],
            flags: u32_at(bytes, 8),
        }
    }
}

impl Header for RuleHeader {
    type Param = ();

    ghost zeros = { default_header };

    ghost by = { λ _. tt };

    ghost default_is_zeros = { λ h is. Prim.search (rules, is) };

    ghost clone_is_same = { λ h g is. Prim.search (rules, is) };

    fn param(&self) {}
}

/// A message on a rule of route look-ups.
pub type RuleMessage = Message<RuleHeader, DefaultNla>;
