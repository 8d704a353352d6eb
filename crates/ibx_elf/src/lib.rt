//! Reads firmware as a linker leaves it: an ELF32 file of the System V gABI, little-endian, for RISC-V.
//!
//! [`load`] tells the first fault of a file, or gives the memory [`Image`] that the file describes. The
//! image reads the file in place: nothing is copied and no memory is taken.
#![tactic(auto)]

mod checks;
mod fault;
mod fields;
mod filling;
mod image;
mod ram;
mod segments;

pub use fault::ElfFault;
pub use image::{Image, load};
pub use ram::Ram;

#[cfg(test)]
mod tests;
