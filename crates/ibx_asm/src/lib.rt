//! The assembler, text to the code that it stands for, and the disassembler, an instruction to its text.
#![tactic(auto)]

mod assembler;
mod digits;
mod disassembler;
mod fault;
mod fields;
mod labels;
mod line;
mod operand;
mod rows;
mod slot;
#[cfg(test)]
mod tests;
mod text;

pub use assembler::assemble;
pub use disassembler::dis;
pub use fault::{AsmFault, AsmKind};
pub use ibx_wrap::wrap;
