//! The printed lines of a trace: one for each event, the last line of a run, and one for each view of an
//! event. A line is a text of at most 96 bytes that lies in the value itself, so printing takes no memory.
//! The formats are our own. All hexadecimal digits are lower case.
#![tactic(auto)]

mod digits;
mod events;
#[cfg(test)]
mod tests;
mod views;

pub use events::{end_line, line};
pub use views::view_line;
