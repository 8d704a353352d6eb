//! When each cycle's event happens: equations between the cycles of requests, answers and items, the history
//! that they give, and its laws.
#![tactic(auto)]

mod laws;

pub use laws::{laws_of_histories, laws_of_time};
