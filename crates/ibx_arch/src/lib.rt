//! What one step of the instruction set's architecture is: definitions, which the crates above cite, the words that
//! they share with the code, and the laws of every step.
#![tactic(auto)]

mod done;
mod fetched;
mod laws;

pub use done::{Done, Retirement};
pub use fetched::Fetched;
pub use laws::laws_of_steps;
