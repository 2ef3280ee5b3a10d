//! What a session over netlink means: transcripts, their events, which replies are awaited, the text of a session,
//! and why an input has none. The definitions stand in specs/; here are the plain types that they speak of.
#![tactic(auto)]

mod address;
mod awaited;
mod laws;
mod network;
mod outcome;
mod settings;
mod transcript;

pub use address::SocketAddr;
pub use awaited::Awaited;
pub use laws::{one_cut, text_grows};
pub use network::{Address, Network};
pub use outcome::{Report, RunFault};
pub use settings::Settings;
pub use transcript::{BatchFrame, Mark, Record};
