//! Memories of codewords: a memory of any code, and the register file.
//!
//! A word is kept as it was put, with the flips made since, and is neither checked nor corrected here.
#![tactic(auto)]

mod coded;
mod registers;
#[cfg(test)]
mod tests;

pub use coded::CodedRam;
pub use registers::RegFile;
