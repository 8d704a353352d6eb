//! Numbers as text and texts as numbers. A number that is read is decimal or `0x` and hexadecimal; one that is written
//! lies in the value itself, two digits at a time from tables, so that it takes no memory. The formats are our own.
#![tactic(auto)]

mod digits;
mod numbers;
mod pairs;
#[cfg(test)]
mod tests;

pub use digits::Digits;
pub use numbers::number;
