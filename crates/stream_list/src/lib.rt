//! A list of items of many streams: the oldest of all and the oldest of one stream are each taken out in constant
//! time, and room is made ahead.
#![tactic(auto)]

mod ends;
mod links;
mod list;
mod node;
mod stream;

pub use list::StreamList;
pub use stream::InStream;

#[cfg(test)]
mod tests;
