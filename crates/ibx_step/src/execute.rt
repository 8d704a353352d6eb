ghost use Rattle.std.specs.Prelude.{◌≡◌, ◌≤◌, ◌<◌, ◌+◌, ◌%◌, ◌^◌};
ghost use Rattle.ibx_isa.specs.WellFormed.{IsWellFormed};
ghost use Rattle.ibx_isa.specs.Multiply.{md_value};
ghost use Rattle.ibx_arch.specs.Effects.{execute};
ghost use Rattle.ibx_step.specs.Machines.{state_of, left_in, KeepsPlace, HasRegister};

use crate::csr::CsrAccess;
use crate::machine::Machine;
use ibx_arch::Done;
use ibx_isa::cause::{BREAKPOINT, MACHINE_CALL, USER_CALL};
use ibx_isa::{Insn, MdOp, MulKind, alu, branch};
use ibx_muldiv::MulDiv;

impl Machine {
    /// What an instruction does, whose word and length in bytes are these.
    #[tactic(auto, unfolding(ibx_arch::specs::Effects::execute))]
    pub(crate) fn execute(&mut self, insn: Insn, word: u32, length: u32, lines: u32) -> Done
        requires sound { IsWellFormed insn }
        requires length { length ≤ 4 }
        ensures left { left_in result self.new ≡ execute (state_of self.old) insn word length lines }
        ensures place { KeepsPlace self.old self.new }
        ensures register { HasRegister result }
    {
        let next = self.pc.wrapping_add(length);
        match insn {
            Insn::Lui { rd, imm } => self.plain(rd, imm, next),
            Insn::Auipc { rd, imm } => self.plain(rd, self.pc.wrapping_add(imm), next),
            Insn::Jal { rd, imm } => self.plain(rd, next, self.pc.wrapping_add(imm)),
            Insn::Jalr { rd, rs1, imm } => {
                let target = self.reg(rs1).wrapping_add(imm);
                self.plain(rd, next, target / 2 * 2)
            }
            Insn::Branch { op, rs1, rs2, imm } => {
                let taken = branch(op, self.reg(rs1), self.reg(rs2));
                let target = if taken {
                    self.pc.wrapping_add(imm)
                } else {
                    next
                };
                self.plain(0, 0, target)
            }
            Insn::Load { op, rd, rs1, imm } => {
                let addr = self.reg(rs1).wrapping_add(imm);
                self.load(op, rd, addr, next)
            }
            Insn::Store {
                size,
                rs1,
                rs2,
                imm,
            } => {
                let addr = self.reg(rs1).wrapping_add(imm);
                self.store(size, addr, self.reg(rs2), next)
            }
            Insn::AluImm { op, rd, rs1, imm } => self.plain(rd, alu(op, self.reg(rs1), imm), next),
            Insn::Alu { op, rd, rs1, rs2 } => {
                self.plain(rd, alu(op, self.reg(rs1), self.reg(rs2)), next)
            }
            Insn::MulDiv { op, rd, rs1, rs2 } => {
                self.plain(rd, md(op, self.reg(rs1), self.reg(rs2)), next)
            }
            Insn::Csr {
                op,
                rd,
                src,
                imm,
                addr,
            } => {
                let source = if imm { src as u32 } else { self.reg(src) };
                let access = CsrAccess {
                    op,
                    rd,
                    src,
                    source,
                    addr,
                };
                self.csr(access, word, next, lines)
            }
            Insn::Fence | Insn::FenceI => self.plain(0, 0, next),
            Insn::Ecall => {
                let cause = if self.csrs.regs().machine {
                    MACHINE_CALL
                } else {
                    USER_CALL
                };
                self.trap(cause, 0, 0)
            }
            Insn::Ebreak => self.trap(BREAKPOINT, 0, 0),
            Insn::Mret => self.return_from_trap(word),
            Insn::Wfi => {
                if self.csrs.may_wait() {
                    self.plain(0, 0, next)
                } else {
                    self.illegal(word)
                }
            }
        }
    }
}

// The value of an M instruction, by the steps of the multiplier and divider.
fn md(op: MdOp, a: u32, b: u32) -> u32
    ensures { result ≡ md_value op a b }
{
    let mut unit = MulDiv::idle();
    unit.start(op, a, b, false, MulKind::Fast);
    while unit.left() != 0 {
        unit.tick();
    }
    unit.result()
}
