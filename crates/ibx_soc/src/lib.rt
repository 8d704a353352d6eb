//! The system: two cores in lockstep with their register file, the cache's memories, RAM behind two bus ports, and the
//! plan of a run. It takes memory when it is opened alone.
#![tactic(auto)]

mod changes;
mod config;
mod cycle;
mod memories;
mod pending;
mod soc;
#[cfg(test)]
mod tests;
mod words;

pub use config::Config;
pub use cycle::{BusOut, Cycle};
pub use soc::Soc;
