//! The instruction set's own words: instructions, events, views of
//! events, the portions of an access, and the wires between the units.
#![tactic(auto)]

mod bus;
pub mod cause;
mod compute;
pub mod control;
mod cost;
mod csr_writes;
mod event;
mod insn;
mod lengths;
mod portions;
mod reads;
#[cfg(test)]
mod tests;
mod trap;
mod views;

pub use bus::{Alerts, Req, Rsp};
pub use compute::{alu, branch};
pub use cost::md_cost;
pub use csr_writes::{writes, written};
pub use event::{Access, Event, View};
pub use insn::{AluOp, BranchOp, CsrOp, Insn, LoadOp, MdOp, MulKind};
pub use lengths::is_long;
pub use portions::{access_size, gather, lanes, low_bytes, parts, portion_bytes, portion_start};
pub use reads::sources;
pub use trap::TrapRegs;
pub use views::view;
