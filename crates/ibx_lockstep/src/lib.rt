//! Two cores in lockstep: the shadow runs one to four cycles behind main, by main's own inputs, and a comparator finds
//! where the shadow's output isn't the one that main gave then, which the next cycle tells.
#![tactic(auto)]

mod core_cycle;
mod core_step;
mod delay;
mod pair;
mod ring;
mod slots;
#[cfg(test)]
mod tests;

pub use core_cycle::CoreCycle;
pub use core_step::CoreStep;
pub use delay::Delay;
pub use pair::Pair;
pub use ring::Ring;
