//! The instruction cache's word port: it answers one word request at a time, from the cache or from the bus, fills the
//! cache after a miss, and empties it at reset and after a FENCE.I.
//!
//! The cache has 256 sets of two ways. A line is two words; its set is bits 10:3 of the address, and its tag is bits
//! 31:11 below a valid bit. Tag words are of `Code<22, 6>` and data words of `Code<32, 7>`. All of it is our own rule.
#![tactic(auto)]

mod doing;
mod lookup;
mod port;
#[cfg(test)]
mod tests;
mod wires;
mod writes;

pub use ibx_prefetch::WordAns;
pub use port::{Met, WordPort};
pub use wires::{CacheIn, CacheOut};
