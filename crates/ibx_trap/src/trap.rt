ghost use Rattle.std.specs.Prelude.{◌≡◌, ◌<◌, ◌%◌};
ghost use Rattle.ibx_trap.specs.Traps.{enter_of, enter_target, leave_of, entered_mstatus, left_mstatus, excepted};
ghost use Rattle.ibx_trap.specs.Traps.{IsKept};

use ibx_isa::TrapRegs;
use ibx_isa::control::{DOUBLE_FAULT_SEEN, MIE, MPIE, MPP, MPRV, SYNC_EXC_SEEN};

/// The registers after a trap, and the byte address of its handler.
///
/// `pc` is the byte address of the instruction that trapped or wasn't begun. `cause` is the number of the
/// exception, or of the interrupt where `irq` is true, and `tval` the new value of `mtval`. An exception
/// goes to the base of `mtvec`, which is a multiple of 256, and interrupt n to the base plus 4n (Privileged
/// ISA 1.12, 3.1.6.1, 3.1.7 and 3.1.15).
#[tactic(auto, unfolding(crate::specs::Traps::enter_of, crate::specs::Traps::enter_target))]
pub fn enter(r: &TrapRegs, pc: u32, cause: u8, irq: bool, tval: u32) -> (TrapRegs, u32)
    ensures regs { result.0 ≡ enter_of r.now pc cause irq tval }
    ensures target { result.1 ≡ enter_target r.now cause irq }
    ensures kept { IsKept r.now → pc % 2 ≡ 0 → cause < 32 → IsKept result.0 }
{
    let base = r.mtvec & 0xffff_ff00;
    let number = cause as u32;
    let (mcause, cpuctrl, target) = if irq {
        let target = base.wrapping_add(4 * number);
        (number + 0x8000_0000, r.cpuctrl, target)
    } else {
        (number, with_exception(r.cpuctrl), base)
    };
    let after = TrapRegs {
        machine: true,
        mstatus: stacked(r.mstatus, r.machine),
        mtvec: r.mtvec,
        mepc: pc,
        mcause,
        mtval: tval,
        cpuctrl,
    };
    (after, target)
}

/// The registers after MRET, and the byte address that it goes to (Privileged ISA 1.12, 3.1.6.1 and 3.3.2).
/// A value of MPP other than 3 returns to U.
#[tactic(auto, unfolding(crate::specs::Traps::leave_of))]
pub fn leave(r: &TrapRegs) -> (TrapRegs, u32)
    ensures regs { result.0 ≡ leave_of r.now }
    ensures target { result.1 ≡ r.now.mepc }
    ensures kept { IsKept r.now → IsKept result.0 }
{
    let machine = r.mstatus & MPP == MPP;
    let after = TrapRegs {
        machine,
        mstatus: unstacked(r.mstatus, machine),
        mtvec: r.mtvec,
        mepc: r.mepc,
        mcause: r.mcause,
        mtval: r.mtval,
        cpuctrl: r.cpuctrl & !SYNC_EXC_SEEN,
    };
    (after, r.mepc)
}

// The status after a trap from the given mode: MPIE and MPP keep the old bit and the old mode.
fn stacked(mstatus: u32, machine: bool) -> u32
    ensures { result ≡ entered_mstatus mstatus machine }
{
    let enabled = if mstatus & MIE != 0 { MPIE } else { 0 };
    let mode = if machine { MPP } else { 0 };
    (mstatus & !(MIE | MPIE | MPP)) | enabled | mode
}

// The status after a return to the given mode.
fn unstacked(mstatus: u32, machine: bool) -> u32
    ensures { result ≡ left_mstatus mstatus machine }
{
    let enabled = if mstatus & MPIE != 0 { MIE } else { 0 };
    let keeps_rights = machine && mstatus & MPRV != 0;
    let rights = if keeps_rights { MPRV } else { 0 };
    (mstatus & !(MIE | MPIE | MPP | MPRV)) | enabled | MPIE | rights
}

fn with_exception(cpuctrl: u32) -> u32
    ensures { result ≡ excepted cpuctrl }
{
    let is_second = cpuctrl & SYNC_EXC_SEEN != 0;
    let again = if is_second { DOUBLE_FAULT_SEEN } else { 0 };
    cpuctrl | SYNC_EXC_SEEN | again
}
