ghost use Rattle.std.specs.Prelude.{◌≡◌, ◌<◌, ◌^◌};
ghost use Rattle.ibx_arch.specs.Effects.{csr_access, return_from_trap};
ghost use Rattle.ibx_step.specs.Machines.{state_of, left_in, KeepsPlace, HasRegister};

use crate::machine::Machine;
use ibx_arch::{Done, Retirement};
use ibx_csr::is_control_at;
use ibx_isa::{CsrOp, writes, written};
use ibx_trap::leave;

/// A CSR instruction: the operation, the register that takes the old value, the source field and the source's
/// value, and the CSR's address.
#[derive(Clone, Copy)]
pub(crate) struct CsrAccess {
    pub op: CsrOp,
    pub rd: u8,
    pub src: u8,
    pub source: u32,
    pub addr: u16,
}

impl Machine {
    /// A CSR instruction, at a cycle with these interrupt lines.
    #[tactic(auto, unfolding(ibx_arch::specs::Effects::csr_access, ibx_csr::specs::Values::csr_can_write, ibx_csr::specs::Values::csr_tick))]
    pub(crate) fn csr(&mut self, access: CsrAccess, word: u32, next_pc: u32, lines: u32) -> Done
        requires { access.rd < 32 }
        ensures left { left_in result self.new ≡ csr_access (state_of self.old) access.op access.rd access.src
            access.source access.addr word next_pc lines }
        ensures place { KeepsPlace self.old self.new }
        ensures register { HasRegister result }
    {
        let Some(old) = self.csrs.read(access.addr, lines) else {
            return self.illegal(word);
        };
        if !writes(access.op, access.src) {
            return self.plain(access.rd, old, next_pc);
        }
        let value = written(access.op, old, access.source);
        let mut csrs = self.csrs;
        csrs.tick(true, Some(access.addr));
        if !csrs.write(access.addr, value) {
            return self.illegal(word);
        }
        self.csrs = csrs;
        Done::Retires(Retirement {
            rd: access.rd,
            value: old,
            mem: None,
            ctl: if is_control_at(access.addr) {
                Some(value)
            } else {
                None
            },
            next_pc,
        })
    }

    /// MRET.
    #[tactic(auto, unfolding(ibx_arch::specs::Effects::return_from_trap))]
    pub(crate) fn return_from_trap(&mut self, word: u32) -> Done
        ensures left { left_in result self.new ≡ return_from_trap (state_of self.old) word }
        ensures place { KeepsPlace self.old self.new }
        ensures register { HasRegister result }
    {
        let regs = self.csrs.regs();
        if !regs.machine {
            return self.illegal(word);
        }
        let (after, next_pc) = leave(&regs);
        let done = self.plain(0, 0, next_pc);
        self.csrs.set_regs(&after);
        done
    }
}
