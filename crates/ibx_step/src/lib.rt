//! A machine that takes one step of the architecture at a time.
#![tactic(auto)]

mod access;
mod choice;
mod csr;
mod execute;
mod fetch;
mod machine;
mod outcome;
mod storage;
#[cfg(test)]
mod tests;

pub use choice::Choice;
pub use machine::Machine;
