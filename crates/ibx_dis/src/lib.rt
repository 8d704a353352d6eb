//! A file's code as text, one line for each instruction.
#![tactic(auto)]

mod law;
mod listing;
#[cfg(test)]
mod tests;

pub use law::laws_of_listings;
pub use listing::print_listing;
