//! Physical memory protection: which bytes of memory an access may touch.
#![tactic(auto)]

mod protection;
#[cfg(test)]
mod tests;

pub use protection::{AccessKind, PmpRegs, allow};
