//! Dummy instructions: when one is due, and which one it is. Every value of the unit's fields is a state, and no call
//! has a condition.
#![tactic(auto)]

#[cfg(test)]
mod tests;
mod unit;

pub use unit::Dummy;
