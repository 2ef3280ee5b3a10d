//! A generated transcript, for trials of any size: a dump of routes spread over all addresses, networks that are blocked,
//! and a look-up for each route.
#![tactic(auto)]

mod frames;
mod laws;
#[cfg(test)]
mod tests;
mod text;

pub use laws::generated_is_valid;
pub use text::{MOST_ROUTES, gen_text};
