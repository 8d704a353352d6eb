//! Traps: the interrupt that is taken, and what a trap and a return from it do to the registers.
#![tactic(auto)]

mod interrupt;
#[cfg(test)]
mod tests;
mod trap;

pub use interrupt::pending;
pub use trap::{enter, leave};
