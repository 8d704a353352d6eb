//! Two systems side by side: cycle by cycle, or event by event.
#![tactic(auto)]

mod comparison;
mod flipped;
mod next;
#[cfg(test)]
mod tests;
mod time_twins;
mod twins;

pub use comparison::Twin;
pub use flipped::{Verdict, inject};
pub use time_twins::{TwinBy, Views, twin_by};
pub use twins::twin;
