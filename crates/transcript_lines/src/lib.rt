//! The lines of a transcript, read exactly, and the lines of a session's text, written.
//!
//! Each record has one line, and a line that no record has is reported as none.
#![tactic(auto)]

mod batch_reader;
mod bytes;
mod cut;
mod datagram_reader;
mod decoder;
mod digits;
mod frame_word;
mod laws;
mod line;
mod network;
mod number;
mod open_line;
mod record;
mod session_text;
mod spelling;
#[cfg(test)]
mod tests;
mod words;

pub use bytes::BytesReader;
pub use decoder::{Fed, Line, LineDecoder};
pub use laws::{every_input_has_an_outcome, one_record, pieces_agree};
pub use number::NumberReader;
pub use record::read_record;
pub use session_text::{put_closed, put_incoming, put_outgoing, put_reply};
pub use spelling::{Word, put_line};
