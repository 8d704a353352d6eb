//! The outside as the program sees it: files, sinks, and the status that it ends with.
#![tactic(auto)]

mod files;
mod mem_files;
mod mem_sink;
mod reading;
mod sink;
mod status;
#[cfg(test)]
mod tests;
mod writing;

pub use files::Files;
pub use mem_files::MemFiles;
pub use mem_sink::MemSink;
pub use reading::{ReadEnd, read_all};
pub use sink::Sink;
pub use status::{Failed, NoMemory, Status};
pub use writing::write_all;
