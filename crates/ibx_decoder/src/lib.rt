//! Instruction words and what they stand for: the 32-bit instructions of RV32IM, Zicsr and Zifencei, and the
//! compressed ones of RV32C.
#![tactic(auto)]

mod assemble;
mod fields;
mod half_fields;
mod halves;
mod instructions;
#[cfg(test)]
mod tests;
mod words;

pub use halves::{expand, is_short};
pub use instructions::instruction;
pub use words::decode;
