//! The multiplier and divider: shift-and-add and restoring division, in steps of one clock cycle.
#![tactic(auto)]

mod operands;
#[cfg(test)]
mod tests;
mod unit;
mod work;

pub use unit::MulDiv;
