//! Bits and bytes of words, and the fixed numbers of the platform.
#![tactic(auto)]

mod byte;
mod platform;
#[cfg(test)]
mod tests;

pub use byte::byte_at;
pub use platform::{HALT_REGISTER, HOST_PAGE, HOST_PAGE_END, INTERRUPT_LINES, host_page_has};
