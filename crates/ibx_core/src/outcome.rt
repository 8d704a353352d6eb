ghost use Rattle.std.specs.Prelude.{◌≡◌, ◌+◌, ◌%◌, ◌^◌, ◌<◌, ◌==◌, None, Some, true, if◌then◌else◌};
ghost use Rattle.ibx_isa.specs.Alu.{branch_of};
ghost use Rattle.ibx_isa.specs.Events.{IsStore};
ghost use Rattle.ibx_isa.specs.Portions.{gather_of};
ghost use Rattle.ibx_csr.specs.Bits.{is_control_at as is_control_of};
ghost use Rattle.ibx_csr.specs.Fields.{tick_of, values, with_regs, write_of};
ghost use Rattle.ibx_csr.specs.Values.{csr_read, trap_regs};
ghost use Rattle.ibx_dummy.specs.Dummies.{seeded};
ghost use Rattle.ibx_trap.specs.Traps.{leave_of};
ghost use Rattle.ibx_core.specs.Effects.{access_or, carried, csr_outcome, csr_value, csr_written};
ghost use Rattle.ibx_core.specs.Effects.{following as following_of, outcome_by, plain_outcome, yield_of};
ghost use Rattle.ibx_core.specs.Sights.{IsSight};

use crate::sight::Sight;
use crate::state::State;
use ibx_csr::{Csrs, is_control_at};
use ibx_dummy::Dummy;
use ibx_id::IdState;
use ibx_isa::{
    Access, BranchOp, CsrOp, Insn, LoadOp, alu, branch, gather, is_long, writes, written,
};
use ibx_trap::leave;

// The CSR whose write seeds the dummies.
const SECURESEED: u16 = 0x7c1;

/// What an instruction that retires gives to its event and to the register file.
#[derive(Clone, Copy)]
pub struct Yield {
    /// The register that is written, 0 for none, and its value.
    pub rd: u8,
    pub value: u32,
    /// The value handed to the write of a CSR that controls the core.
    pub ctl: Option<u32>,
}

// The address of the next instruction.
#[inline(always)]
fn following(st: &IdState) -> u32
    ensures { result ≡ following_of st.now }
{
    st.pc.wrapping_add(if is_long(st.word) { 4 } else { 2 })
}

#[inline(always)]
fn access_addr(access: Option<Access>) -> u32
    ensures { result ≡ (access_or access).addr }
{
    match access {
        Some(want) => want.addr,
        None => 0,
    }
}

fn csr_read_value(csrs: &Csrs, addr: u16, lines: u32) -> u32
    ensures { result ≡ csr_value (csr_read (values csrs.now) addr lines) }
{
    match csrs.read(addr, lines) {
        Some(value) => value,
        None => 0,
    }
}

fn seed_by(dummies: &mut Dummy, addr: u16, value: u32)
    ensures value { dummies.new ≡ (if addr == 0x7c1 then seeded value dummies.old else dummies.old) }
    ensures count { dummies.new.dcount ≡ dummies.old.dcount }
{
    if addr == SECURESEED {
        dummies.seed(value);
    }
}

fn control_value(addr: u16, value: u32) -> Option<u32>
    ensures { result ≡ (if is_control_of addr then Some value else None) }
{
    if is_control_at(addr) {
        Some(value)
    } else {
        None
    }
}

// Where a branch goes on.
#[inline(always)]
fn branched(op: BranchOp, imm: u32, st: &IdState, g: &Sight) -> u32
    ensures { result ≡ (if branch_of op g.now.a g.now.b then (st.now.pc + imm) % 2 ^ 32 else following_of st.now) }
{
    if branch(op, g.a, g.b) {
        st.pc.wrapping_add(imm)
    } else {
        following(st)
    }
}

#[inline(always)]
fn loaded(op: LoadOp, g: &Sight) -> u32
    ensures { result ≡ gather_of op (access_or g.now.access).addr g.now.ls.first g.now.ls.second }
{
    gather(op, access_addr(g.access), g.ls.first, g.ls.second)
}

impl State {
    // An instruction that writes no CSR: a value for a register, and where to go on.
    #[inline(always)]
    #[tactic(auto, unfolding(crate::specs::Effects::plain_outcome))]
    fn plain(&mut self, rd: u8, value: u32, next_pc: u32) -> Yield
        ensures value { result ≡ yield_of (plain_outcome self.old rd value next_pc) }
        ensures fields { self.new ≡ carried self.old (plain_outcome self.old rd value next_pc) }
        ensures register { result.rd ≡ rd }
        ensures count { self.new.dummies.dcount ≡ self.old.dummies.dcount }
    {
        self.csrs.tick(true, None);
        self.next_pc = next_pc;
        Yield {
            rd,
            value,
            ctl: None,
        }
    }

    // The write of a CSR, before which the counters move.
    #[tactic(auto, unfolding(crate::specs::Effects::csr_written, crate::specs::Effects::plain_outcome))]
    fn write_csr(&mut self, rd: u8, old: u32, value: u32, addr: u16) -> Yield
        ensures value { result ≡ yield_of (csr_written self.old true rd old value addr) }
        ensures fields { self.new ≡ carried self.old (csr_written self.old true rd old value addr) }
        ensures register { result.rd ≡ rd }
        ensures count { self.new.dummies.dcount ≡ self.old.dummies.dcount }
    {
        self.next_pc = following(&self.id);
        self.csrs.tick(true, Some(addr));
        self.csrs.write(addr, value);
        seed_by(&mut self.dummies, addr, value);
        Yield {
            rd,
            value: old,
            ctl: control_value(addr, value),
        }
    }

    #[cold]
    #[tactic(auto, unfolding(crate::specs::Effects::csr_outcome, crate::specs::Effects::csr_written))]
    fn csr(&mut self, op: CsrOp, writing: bool, rd: u8, source: u32, addr: u16, lines: u32) -> Yield
        ensures value { result ≡ yield_of (csr_outcome self.old op writing rd source addr lines) }
        ensures fields { self.new ≡ carried self.old (csr_outcome self.old op writing rd source addr lines) }
        ensures register { result.rd ≡ rd }
        ensures count { self.new.dummies.dcount ≡ self.old.dummies.dcount }
    {
        let old = csr_read_value(&self.csrs, addr, lines);
        let next = following(&self.id);
        if writing {
            self.write_csr(rd, old, written(op, old, source), addr)
        } else {
            self.plain(rd, old, next)
        }
    }

    // An MRET (Privileged ISA 1.12, 3.1.6.1 and 3.3.2).
    #[cold]
    #[tactic(auto, unfolding(crate::specs::Effects::outcome_by, crate::specs::Effects::plain_outcome))]
    fn return_from_trap(&mut self) -> Yield
        ensures value { result ≡ yield_of (plain_outcome self.old 0 0 self.old.csrs.mepc) }
        ensures fields { self.new ≡ record self.old {
          next_pc = self.old.csrs.mepc;
          csrs = with_regs (tick_of self.old.csrs true None) (leave_of (trap_regs (values self.old.csrs)));
        } }
    {
        let (regs, _) = leave(&self.csrs.regs());
        let yields = self.plain(0, 0, self.csrs.mepc);
        self.csrs.set_regs(&regs);
        yields
    }

    /// Moves the fields by the row of an instruction that retires.
    #[inline(always)]
    #[tactic(auto, unfolding(crate::specs::Effects::outcome_by, crate::specs::Effects::plain_outcome, crate::specs::Sights::access_by))]
    pub fn carry_out(&mut self, g: &Sight, lines: u32) -> Yield
        requires { IsSight self.old g.now }
        ensures value { result ≡ yield_of (outcome_by g.now.row self.old g.now lines) }
        ensures fields { self.new ≡ carried self.old (outcome_by g.now.row self.old g.now lines) }
        ensures register { result.rd < 32 }
        ensures stores { IsStore g.now.access → result.rd ≡ 0 }
        ensures count { self.new.dummies.dcount ≡ self.old.dummies.dcount }
    {
        let pc = self.id.pc;
        let next = following(&self.id);
        match g.row {
            Some(Insn::Lui { rd, imm }) => self.plain(rd, imm, next),
            Some(Insn::Auipc { rd, imm }) => self.plain(rd, pc.wrapping_add(imm), next),
            Some(Insn::Jal { rd, imm }) => self.plain(rd, next, pc.wrapping_add(imm)),
            Some(Insn::Jalr { rd, imm, .. }) => self.plain(rd, next, g.a.wrapping_add(imm) / 2 * 2),
            Some(Insn::Branch { op, imm, .. }) => {
                let target = branched(op, imm, &self.id, g);
                self.plain(0, 0, target)
            }
            Some(Insn::Load { op, rd, .. }) => self.plain(rd, loaded(op, g), next),
            Some(Insn::AluImm { op, rd, imm, .. }) => self.plain(rd, alu(op, g.a, imm), next),
            Some(Insn::Alu { op, rd, .. }) => self.plain(rd, alu(op, g.a, g.b), next),
            Some(Insn::MulDiv { rd, .. }) => {
                // A copy, so that what the stage sees needn't stand in memory for this call.
                let unit = g.md;
                self.plain(rd, unit.result(), next)
            }
            Some(
                Insn::Csr {
                    op,
                    rd,
                    src,
                    imm,
                    addr,
                },
            ) => {
                let source = if imm { src as u32 } else { g.a };
                self.csr(op, writes(op, src), rd, source, addr, lines)
            }
            Some(Insn::Mret) => self.return_from_trap(),
            _ => self.plain(0, 0, next),
        }
    }
}
