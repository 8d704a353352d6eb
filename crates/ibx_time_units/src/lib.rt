//! The units that fetch, each by itself, keep the time equations.
#![tactic(auto)]

mod laws;

pub use laws::{core_holds_the_fetches, prefetch_keeps_times, word_port_keeps_times};
