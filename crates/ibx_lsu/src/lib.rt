//! The load-store unit: the order of an access's portions on the bus.
#![tactic(auto)]

#[cfg(test)]
mod tests;
mod unit;

pub use ibx_isa::{gather, lanes, parts};
pub use unit::{LsTurn, Lsu};
