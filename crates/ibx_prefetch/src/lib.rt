//! The prefetch buffer: requests the words that follow a redirect, holds up to three of them, and offers their parcels
//! of 16 bits in order. Every value of its fields is a state, and no call has a condition.
#![tactic(auto)]

mod buffer;
#[cfg(test)]
mod tests;

pub use buffer::{Head, Parcel, Prefetch, WordAns};
