//! Firmware from a number: a program of 4,105 words whose body is drawn at random from a seed.
#![tactic(auto)]

mod draws;
mod firmware;
mod words;

pub use firmware::generate;

#[cfg(test)]
mod tests;
