//! What messages share whose attributes are read: buffers of fixed structs, arrays, and the values
//! of attributes as they are written.
#![tactic(auto)]

mod array;
mod buffer;
mod value;

pub use array::{bytes_of_u64s, parse_array};
pub use buffer::FixedBuffer;
pub use value::{AttributeValue, NoStruct, Value};

#[cfg(test)]
mod tests;
