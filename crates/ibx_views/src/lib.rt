//! Time views: what of an event the core's time can depend on, and their laws.
#![tactic(auto)]

mod laws;
mod observer;
mod parts;
#[cfg(test)]
mod tests;
mod time_view;

pub use laws::{laws_of_operands, laws_of_parts, laws_of_time_views};
pub use observer::Observer;
pub use parts::part_of;
pub use time_view::{Change, ItemView, Part, Portions, TimeView};
