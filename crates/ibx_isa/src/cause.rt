//! The causes of exceptions (Privileged ISA 1.12, 3.1.15, table 3.6).

/// A fetch that protection refuses or no memory answers.
pub const FETCH_FAULT: u8 = 1;

/// An instruction that no row fits, or that its mode may not execute.
pub const ILLEGAL_INSTRUCTION: u8 = 2;

/// EBREAK.
pub const BREAKPOINT: u8 = 3;

/// A load that protection refuses or no memory answers.
pub const LOAD_FAULT: u8 = 5;

/// A store that protection refuses or no memory answers.
pub const STORE_FAULT: u8 = 7;

/// ECALL from U mode.
pub const USER_CALL: u8 = 8;

/// ECALL from M mode.
pub const MACHINE_CALL: u8 = 11;
