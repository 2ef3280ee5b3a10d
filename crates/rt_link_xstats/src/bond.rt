//! What bonds count.

mod attribute;
mod three_ad;

pub use attribute::BondXstat;
pub use three_ad::Bond3adStats;
