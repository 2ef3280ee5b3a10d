//! Counters of eight bytes.
#![tactic(auto, using(nl_core::proofs::Wire::writes))]

ghost use Rattle.nl_core.specs.Numbers.{words64};
ghost use Rattle.nl_core.specs.Reading.{Gives};
ghost use Rattle.rt_other.specs.Stats.{stats_at, stats_fit};

use nl_core::{DecodeError, Emitable, Items, NoMemory, TryClone, emit_u64s, u64_at};
use std::alloc::Global;

const COUNTER_LEN: usize = 8;

/// A list of counters, each of eight bytes, little endian.
#[derive(Debug, PartialEq, Eq, Drop)]
pub struct Stats64(pub Items<u64>);

impl Stats64 {
    /// The counters that bytes are; `BadLength` where the last one is cut short.
    pub fn parse(alloc: Global, payload: &[u8]) -> Result<Self, DecodeError>
        ensures { Gives result (stats_at payload.now) }
    {
        if payload.len() % COUNTER_LEN != 0 {
            return Err(DecodeError::BadLength);
        }
        let mut counters = Items::new(alloc);
        for i in 0..payload.len() / COUNTER_LEN {
            counters.push(u64_at(payload, i * COUNTER_LEN))?;
        }
        Ok(Stats64(counters))
    }
}

impl Emitable for Stats64 {
    ghost text = { λ s. words64 s.0 };

    ghost fitting = { stats_fit };

    fn fits(&self) -> bool {
        self.0.len() <= usize::MAX / COUNTER_LEN
    }

    fn buffer_len(&self) -> usize {
        self.0.len() * COUNTER_LEN
    }

    fn emit(&self, buf: &mut [u8]) {
        emit_u64s(buf, self.0.as_slice());
    }
}

impl TryClone for Stats64 {
    fn clone_with(&self) -> Result<Self, NoMemory> {
        Ok(Stats64(self.0.clone_with()?))
    }
}
