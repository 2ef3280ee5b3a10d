//! Counters of eight bytes as the value of an attribute.
#![tactic(auto, using(nl_core::proofs::Wire::writes, nl_core::proofs::Wire::lengths))]

ghost use Rattle.nl_core.specs.Numbers.{words64};

use nl_core::Emitable;
use rt_layout::AttributeValue;
use rt_other::Stats64;

// Counters as the value of an attribute.
#[derive(Drop)]
pub(crate) struct Counters<'a>(pub(crate) &'a Stats64);

impl<'a> AttributeValue for Counters<'a> {
    ghost written = { λ c. words64 c.0.now.0 };

    fn value_len(&self) -> usize {
        let counters = &self.0.0;
        counters.len().saturating_mul(8)
    }

    fn emit_value(&self, buf: &mut [u8]) {
        self.0.emit(buf);
    }
}
