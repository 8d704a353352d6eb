use ibx_elf::Ram;
use ibx_isa::MulKind;
use ibx_lockstep::Delay;

/// What a system is built with.
#[derive(Clone, Copy, Debug, PartialEq, Eq)]
pub struct Config {
    /// The byte addresses that are RAM.
    pub ram: Ram,
    pub mul: MulKind,
    /// By how many cycles the shadow is behind main.
    pub delay: Delay,
}
