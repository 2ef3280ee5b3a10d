//! The route mirror: the transcript of a netlink session in, its text out.
#![tactic(auto)]

mod answers;
mod command;
mod exchange;
mod generated;
mod handed;
mod laws;
mod ledger;
mod message;
mod observers;
mod open_streams;
mod options;
mod output;
mod program;
mod program_fault;
mod records;
mod request;
mod run_state;
mod runner;
mod step_fault;

pub use command::{cli, run_words};
pub use laws::{one_outcome, one_settings};
pub use message::{Message, RouteConnection};
pub use program::run;
pub use program_fault::ProgramFault;
pub use records::read_line;
pub use route_mirror::{Address, Answer, Mirror, Network, Route};
pub use runner::Runner;
pub use session_model::{BatchFrame, Mark, Record, Report, RunFault, Settings, SocketAddr};
pub use transcript_generator::gen_text;
pub use transcript_io::{MemorySink, MemorySource, Read, Sink, Source, StdSink, StdSource, Wrote};
pub use transcript_lines::{Fed, Line, LineDecoder};
