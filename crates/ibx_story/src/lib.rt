//! Where a story ends: the event that halts it, and the cycles that its events took.
#![tactic(auto)]

mod halting;

pub use halting::halts;
