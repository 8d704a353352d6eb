//! The memory and the two bus ports, a cycle at a time.
//!
//! A port counts its transactions and goes through its list of waits again and again: transaction n, issued at
//! cycle t, is granted at `t + g` and answered at `t + g + 1 + w`, with g and w from entry n modulo the list's length.
//! Memory is read or written in the grant cycle. The host page, 0x00020000 to 0x00020fff, reads as 0 and stores
//! nothing here; what its stores mean is the host's business. Every other address outside RAM answers an error.
#![tactic(auto)]

mod memory;
mod merge;
mod port;
#[cfg(test)]
mod tests;

pub use memory::Memory;
pub use port::Port;
