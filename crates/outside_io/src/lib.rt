//! The outside as the program sees it: a store of files by name, and a sink for what is printed.
#![tactic(auto)]

mod calls;
mod fail_plan;
mod faults;
mod file_reading;
mod file_store;
mod file_writing;
mod files_calls;
mod laws;
mod mem_sink;
mod mem_store;
mod noting;
mod outgoing;
mod piece_buffer;
mod pieces;
mod raw_files;
mod raw_out;
mod sink;
mod std_sink;
mod store;

pub use file_store::FileStore;
pub use files_calls::FilesCalls;
pub use laws::spares_are_no_files;
pub use mem_sink::MemSink;
pub use mem_store::{Files, MemStore};
pub use outgoing::Outgoing;
pub use pieces::put_all;
pub use raw_files::RawFiles;
pub use raw_out::{OutCalls, RawOut};
pub use sink::{Failed, MAX_PIECE, Sink};
pub use std_sink::StdSink;
pub use store::{Store, StoreError};
