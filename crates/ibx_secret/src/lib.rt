//! Whether the time of a run depends on secret bytes of its image: marks, leaks, and the laws of them.
#![tactic(auto)]

mod kept;
mod laws;
mod leak;
mod registers;
#[cfg(test)]
mod tests;

pub use kept::CsrMarks;
pub use laws::{laws_of_leaks, laws_of_marks};
pub use leak::{Leak, Reason, What};
pub use registers::RegisterMarks;
