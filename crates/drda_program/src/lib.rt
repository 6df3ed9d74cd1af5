//! The program `drdad` over words, files, a network and streams that are handed in.
#![tactic(auto)]

mod bad_arguments;
mod deciding;
mod logins;
mod program;
mod records;
mod version;

// What event records come in on and go out on.
pub use counted_streams::{Reader, Ready, Writer};
// What conversations come over, and who is told what becomes of them.
pub use drda_server::{
    ErrorLog, Failure, Gauge, Lack, Log, Name, Network, Notice, Outcome, Part, Rules, Served,
    Silent, Streams, SystemNetwork, serve_streams,
};
pub use program::run_words;
pub use store_files::{Fault, StoreFiles, SystemFiles};
