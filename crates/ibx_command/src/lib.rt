//! Reads the words of a command line: a command, then files and options in any order.
#![tactic(auto)]

mod command;
mod numbers;
mod options;
mod parts;

pub use command::{Assemble, Command, Disassemble, Generate, Inject, Run, Twin, read_words};
pub use options::Options;

#[cfg(test)]
mod tests;
