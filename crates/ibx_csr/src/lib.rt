//! The control and status registers, each register that protects the core with a complemented copy.
#![tactic(auto)]

mod bits;
mod csrs;
mod fields;
mod guard;
mod kept;
mod name;
#[cfg(test)]
mod tests;

pub use bits::{CsrBits, is_control_at};
pub use csrs::{Csrs, PmpView};
pub use name::{Csr, csr_at};
