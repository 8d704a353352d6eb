//! The core: 89 fields, and what a cycle makes of them and of the wires in. It is total on every value of its fields
//! within their widths, and has no other state.
#![tactic(auto)]

mod admit;
mod cycle;
mod effect;
mod fields;
mod heard;
mod machine;
mod outcome;
mod output;
mod protection;
mod reads;
mod sight;
mod state;
mod step;
mod wires;

pub use machine::Core;
pub use reads::Reads;
pub use wires::{In, Out};
