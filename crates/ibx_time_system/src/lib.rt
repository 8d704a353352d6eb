//! The system of two cores is the machine of the time equations: the same cycle, with other words round it. So its
//! steps without a flip are the history.
#![tactic(auto)]

mod law;

pub use law::{placed, runs_the_history, same_cycle, starts};
