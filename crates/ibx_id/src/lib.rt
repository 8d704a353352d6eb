//! The decisions of the stage that decodes and executes: what it does in each cycle.
#![tactic(auto)]

mod decide;
mod stage;
#[cfg(test)]
mod tests;

pub use decide::turn;
pub use stage::{IdIn, IdState, Turn};
