//! The whole program: its words, its file, its run and its answers.
#![tactic(auto)]

mod asm_command;
mod bytes;
mod dis_command;
mod driving;
mod faults;
mod gen_command;
mod inject_command;
mod outcome;
mod run_command;
mod seal;
mod steps;
#[cfg(test)]
mod tests;
mod top;
mod totals;
mod twin_command;
mod twin_lines;
mod verdict;

pub use driving::drive;
pub use top::ibex;
