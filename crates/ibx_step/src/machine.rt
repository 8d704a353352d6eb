ghost use Rattle.std.specs.Prelude.{◌≡◌, ◌+◌, ◌≤◌, ◌<◌, ◌^◌, IfOk, IfSome};
ghost use Rattle.ibx_csr.specs.Fields.{values};
ghost use Rattle.ibx_arch.specs.State.{reg, with_reg, at_cycle};
ghost use Rattle.ibx_arch.specs.Step.{finished, interrupted, operands, reset_state, present_step, step_with};
ghost use Rattle.ibx_arch.specs.Laws.{IsAligned};
ghost use Rattle.ibx_isa.specs.WellFormed.{IsWellFormed};
ghost use Rattle.ibx_step.specs.Machines.{state_of, left_in, stepped_to, choice_of, HasRegister, Steps};
ghost use Rattle.ibx_step.specs.Preparing.{carried_out, IsSound};
ghost use Rattle.ibx_isa.specs.Events.{IsPrintable};
ghost use Rattle.ibx_isa.specs.Lengths.{IsWordOrHalf};

use crate::choice::Choice;
use crate::fetch::Prepared;
use crate::storage::Storage;
use ibx_arch::Done;
use ibx_base::NoMemory;
use ibx_csr::Csrs;
use ibx_elf::Image;
use ibx_isa::cause::FETCH_FAULT;
use ibx_isa::control::DATA_IND_TIMING;
use ibx_isa::{Event, Insn, sources};
use ibx_trap::enter;
use std::alloc::Global;

/// The state of the architecture: the program counter (a byte address), the registers x0 to x31, memory, the
/// CSRs with the mode, and the cycle at which their counters stand.
#[derive(Drop)]
pub struct Machine {
    pub(crate) pc: u32,
    pub(crate) regs: [u32; 32],
    pub(crate) storage: Storage,
    pub(crate) csrs: Csrs,
    pub(crate) stands: u64,
}

impl Machine {
    /// The machine at reset, with an image in its memory.
    #[tactic(auto, unfolding(ibx_arch::specs::Step::reset_state))]
    pub fn reset(alloc: Global, image: &Image<'_>) -> Result<Machine, NoMemory>
        ensures state { IfOk result (λ machine. state_of machine ≡ reset_state image.now) }
        ensures aligned { IfOk result (λ machine. IsAligned (state_of machine)) }
    {
        let storage = Storage::new(alloc, image)?;
        let pc = image.entry();
        Ok(Machine {
            pc,
            regs: [0; 32],
            storage,
            csrs: Csrs::reset(pc),
            stands: 0,
        })
    }

    /// The step with the parcels that memory holds at the program counter, at a cycle that is not before the
    /// one at which the counters stand, where no interrupt line is ever high. The program counter is even, as it
    /// is after a reset and stays. None for a WFI that would wait for ever, and then nothing changes.
    pub fn step(&mut self, cycle: u64) -> Option<Event>
        requires cycle { cycle < 2 ^ 62 }
        requires aligned { IsAligned (state_of self.old) }
        ensures stepped { Steps (state_of self.old) (present_step (state_of self.old) cycle) result
            (state_of self.new) }
        ensures refused { result ≡ None → self.new ≡ self.old }
        ensures aligned { IsAligned (state_of self.new) }
        ensures printable { IfSome result IsPrintable }
    {
        let first = self.storage.parcel(self.pc);
        let second = self.storage.parcel(self.pc.wrapping_add(2));
        let prepared = self.prepare(first, second);
        if self.waits(prepared) {
            return None;
        }
        Some(self.carry_out(prepared, cycle, 0))
    }

    /// The step with a choice, at a cycle that is not before the one at which the counters stand, with the interrupt
    /// lines of that cycle. It is the step whether or not the state takes the choice.
    pub fn take(&mut self, choice: Choice, cycle: u64, lines: u32) -> Event
        requires cycle { cycle + 1 < 2 ^ 64 }
        requires aligned { IsAligned (state_of self.old) }
        ensures stepped { stepped_to result self.new ≡ step_with (λ _. lines) (state_of self.old) (choice_of choice)
            cycle }
        ensures aligned { IsAligned (state_of self.new) }
        ensures printable { IsPrintable result }
    {
        match choice {
            Choice::Interrupt(number) => self.interrupt(number, cycle),
            Choice::Parcels(first, second) => {
                let prepared = self.prepare(first, second);
                self.carry_out(prepared, cycle, lines)
            }
        }
    }

    /// The program counter, a byte address.
    pub fn pc(&self) -> u32
        ensures { result ≡ (state_of self.now).pc }
    {
        self.pc
    }

    /// The CSRs with the mode. Their counters stand at the cycle after the last step.
    pub fn csrs(&self) -> &Csrs
        ensures { values result.now ≡ (state_of self.now).csrs }
    {
        &self.csrs
    }

    // Moves the counters to a cycle.
    fn move_to(&mut self, cycle: u64)
        ensures { state_of self.new ≡ at_cycle (state_of self.old) cycle }
    {
        let passed = cycle.saturating_sub(self.stands);
        self.csrs.pass(passed);
        self.stands = cycle;
    }

    // Takes an interrupt.
    #[tactic(auto, unfolding(ibx_arch::specs::Step::interrupted))]
    fn interrupt(&mut self, number: u8, cycle: u64) -> Event
        requires { cycle + 1 < 2 ^ 64 }
        ensures stepped { stepped_to result self.new ≡ interrupted (at_cycle (state_of self.old) cycle) number cycle }
        ensures printable { IsPrintable result }
    {
        self.move_to(cycle);
        let pc = self.pc;
        let (regs, target) = enter(&self.csrs.regs(), pc, number, true, 0);
        self.csrs.tick(false, None);
        self.csrs.set_regs(&regs);
        self.pc = target;
        self.stands = cycle + 1;
        Event::Irq {
            cycle,
            pc,
            cause: number,
        }
    }

    // Carries out what was fetched and decoded.
    #[tactic(auto, unfolding(crate::specs::Preparing::carried_out))]
    fn carry_out(&mut self, prepared: Prepared, cycle: u64, lines: u32) -> Event
        requires cycle { cycle + 1 < 2 ^ 64 }
        requires sound { IsSound prepared }
        ensures stepped { stepped_to result self.new ≡ carried_out (at_cycle (state_of self.old) cycle) cycle lines
            prepared }
        ensures printable { IsPrintable result }
    {
        self.move_to(cycle);
        match prepared {
            Prepared::Unsound(addr) => {
                let done = self.trap(FETCH_FAULT, addr, 0);
                self.finish(cycle, 0, None, done)
            }
            Prepared::Illegal(word) => {
                let done = self.illegal(word);
                self.finish(cycle, word, None, done)
            }
            Prepared::Legal { insn, word, length } => {
                let operands = self.operands(&insn);
                let done = self.execute(insn, word, length, lines);
                self.finish(cycle, word, operands, done)
            }
        }
    }

    // The operands of an instruction, where fixed timing is off.
    #[tactic(auto, unfolding(ibx_arch::specs::Step::operands))]
    fn operands(&self, insn: &Insn) -> Option<(u32, u32)>
        requires { IsWellFormed insn.now }
        ensures { result ≡ operands (state_of self.now) insn.now }
    {
        if self.csrs.regs().cpuctrl & DATA_IND_TIMING != 0 {
            return None;
        }
        let (first, second) = sources(insn);
        Some((self.reg(first), self.reg(second)))
    }

    // The event of an instruction that ended, and the state after it.
    #[tactic(auto, unfolding(ibx_arch::specs::Step::finished))]
    fn finish(&mut self, cycle: u64, word: u32, ops: Option<(u32, u32)>, done: Done) -> Event
        requires cycle { cycle + 1 < 2 ^ 64 }
        requires register { HasRegister done }
        requires word { IsWordOrHalf word }
        ensures stepped { stepped_to result self.new ≡ finished self.old.pc self.old.regs cycle word ops
            (left_in done self.old) }
        ensures printable { IsPrintable result }
    {
        let pc = self.pc;
        self.stands = cycle + 1;
        match done {
            Done::Retires(r) => {
                self.set_reg(r.rd, r.value);
                self.pc = r.next_pc;
                Event::Retire {
                    cycle,
                    pc,
                    word,
                    rd: r.rd,
                    value: if r.rd == 0 { 0 } else { r.value },
                    mem: r.mem,
                    ctl: r.ctl,
                    ops,
                }
            }
            Done::Traps { cause, tval, addr } => {
                let (regs, target) = enter(&self.csrs.regs(), pc, cause, false, tval);
                self.csrs.set_regs(&regs);
                self.pc = target;
                Event::Trap {
                    cycle,
                    pc,
                    word,
                    cause,
                    tval,
                    addr,
                }
            }
        }
    }

    /// A register's value; x0 reads as 0.
    pub(crate) fn reg(&self, n: u8) -> u32
        requires { n < 32 }
        ensures { result ≡ reg (state_of self.now) n }
    {
        if n == 0 { 0 } else { self.regs[n as usize] }
    }

    // Writes a register; a write to x0 has no effect.
    fn set_reg(&mut self, n: u8, value: u32)
        requires { n < 32 }
        ensures { self.new ≡ record self.old { regs = with_reg self.old.regs n value } }
    {
        if n != 0 {
            self.regs[n as usize] = value;
        }
    }
}
