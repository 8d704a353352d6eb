//! The system of two cores as definitions: its state, its cycle, its first state, its runs, and a flip of one of its
//! bits. Its words stay codewords, and one cycle of the core keeps to ten laws.
#![tactic(auto)]

mod laws;

pub use laws::{cycle_laws, one_bit};
