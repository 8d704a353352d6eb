ghost use Rattle.std.specs.Prelude.{◌≡◌, ◌<◌, ◌^◌, ◌==◌, IfSome, None, Some, false, if◌then◌else◌};
ghost use Rattle.ibx_isa.specs.Events.{IsPrintable};
ghost use Rattle.ibx_csr.specs.Fields.{tick_of, with_regs};
ghost use Rattle.ibx_core.specs.Core.{HasLeft, with_effect};
ghost use Rattle.ibx_core.specs.Effects.{access_or, carried, cause_fails, cause_or, effect_by, fails, interrupts};
ghost use Rattle.ibx_core.specs.Effects.{outcome_by, portion_fails, rests, retirement_by, retirement_of};
ghost use Rattle.ibx_core.specs.Effects.{trap_value_of, written_by};
ghost use Rattle.ibx_core.specs.Sights.{IsSight};

use crate::outcome::Yield;
use crate::reads::stage_word;
use crate::sight::{Sight, is_fixed};
use crate::state::State;
use crate::wires::Out;
use ibx_id::{IdState, Turn};
use ibx_isa::cause::{FETCH_FAULT, ILLEGAL_INSTRUCTION, LOAD_FAULT, STORE_FAULT};
use ibx_isa::{Access, Event, TrapRegs, portion_start};
use ibx_secded::Code;
use ibx_trap::enter;

// The event of an instruction that retires; `fixed` is that timing doesn't depend on its operands.
#[inline(always)]
fn retirement(st: &IdState, g: &Sight, yields: &Yield, fixed: bool) -> Event
    ensures { result ≡ retirement_by st.now g.now yields.now fixed }
{
    Event::Retire {
        cycle: 0,
        pc: st.pc,
        word: stage_word(st),
        rd: yields.rd,
        value: if yields.rd == 0 { 0 } else { yields.value },
        mem: g.access,
        ctl: yields.ctl,
        ops: if fixed { None } else { Some((g.a, g.b)) },
    }
}

// No register is written, and nothing or a trap is done.
#[inline(always)]
#[tactic(auto, unfolding(crate::specs::Core::write_word))]
fn put_event(o: &mut Out, event: Option<Event>)
    ensures { o.new ≡ with_effect o.old None event }
{
    o.rw = false;
    o.rwn = 0;
    o.rwword = 0;
    o.event = event;
}

// An instruction retires, and writes its register, if any.
#[inline(always)]
#[tactic(auto, unfolding(crate::specs::Core::write_word))]
fn put_retirement(o: &mut Out, yields: &Yield, event: Event)
    requires { yields.now.rd < 32 }
    ensures { o.new ≡ with_effect o.old (if yields.now.rd == 0 then None else Some (yields.now.rd, yields.now.value))
        (Some event) }
{
    let written = yields.rd != 0;
    o.rw = written;
    o.rwn = yields.rd;
    o.rwword = if written {
        Code::<32, 7>::encode(yields.value as u64)
    } else {
        0
    };
    o.event = Some(event);
}

#[inline(always)]
fn access(g: &Sight) -> Access
    ensures { result ≡ access_or g.now.access }
{
    match g.access {
        Some(want) => want,
        None => Access {
            addr: 0,
            size: 4,
            store: false,
            value: 0,
        },
    }
}

#[inline(always)]
fn cause(g: &Sight) -> u8
    ensures { result ≡ cause_or g.now.cause }
{
    match g.cause {
        Some(cause) => cause,
        None => ILLEGAL_INSTRUCTION,
    }
}

impl State {
    #[inline(always)]
    fn retire(&mut self, g: &Sight, lines: u32, o: &mut Out)
        requires { IsSight self.old g.now }
        ensures fields { self.new ≡ carried self.old (outcome_by g.now.row self.old g.now lines) }
        ensures wires { o.new ≡ with_effect o.old (written_by (outcome_by g.now.row self.old g.now lines))
            (Some (retirement_of self.old g.now (outcome_by g.now.row self.old g.now lines))) }
        ensures count { self.new.dummies.dcount ≡ self.old.dummies.dcount }
        ensures printable { IfSome o.new.event IsPrintable }
    {
        let fixed = is_fixed(&self.csrs);
        let yields = self.carry_out(g, lines);
        let event = retirement(&self.id, g, &yields, fixed);
        put_retirement(o, &yields, event);
    }

    #[inline(always)]
    #[tactic(auto, unfolding(crate::specs::Effects::rests))]
    fn rest(&mut self, o: &mut Out)
        ensures { HasLeft self.old o.old (rests self.old) self.new o.new }
    {
        self.csrs.tick(false, None);
        put_event(o, None);
    }

    // Goes to a handler, with these registers.
    fn go_to(&mut self, regs: &TrapRegs, target: u32)
        ensures { self.new ≡ record self.old {
          next_pc = target;
          csrs = with_regs (tick_of self.old.csrs false None) regs.now;
        } }
    {
        self.csrs.tick(false, None);
        self.csrs.set_regs(regs);
        self.next_pc = target;
    }

    // A trap with this cause and value, of an access at `addr`.
    #[tactic(auto, unfolding(crate::specs::Effects::fails, crate::specs::Effects::rests))]
    fn fail(&mut self, cause: u8, tval: u32, addr: u32, o: &mut Out)
        ensures { HasLeft self.old o.old (fails self.old cause tval addr) self.new o.new }
    {
        let (regs, target) = enter(&self.csrs.regs(), self.id.pc, cause, false, tval);
        let word = if cause == FETCH_FAULT {
            0
        } else {
            stage_word(&self.id)
        };
        self.go_to(&regs, target);
        put_event(
            o,
            Some(Event::Trap {
                cycle: 0,
                pc: self.id.pc,
                word,
                cause,
                tval,
                addr,
            }),
        );
    }

    // A portion of an access failed.
    #[cold]
    #[tactic(auto, unfolding(crate::specs::Effects::portion_fails))]
    fn fail_portion(&mut self, want: &Access, second: bool, o: &mut Out)
        ensures { HasLeft self.old o.old (portion_fails self.old want.now second) self.new o.new }
    {
        let cause = if want.store { STORE_FAULT } else { LOAD_FAULT };
        self.fail(cause, portion_start(want.addr, second), want.addr, o);
    }

    // What a trap for another cause puts into mtval.
    fn trap_value(&self, cause: u8) -> u32
        ensures { result ≡ trap_value_of self.now cause }
    {
        match cause {
            FETCH_FAULT if self.id.fault == 2 => self.id.pc.wrapping_add(2),
            FETCH_FAULT => self.id.pc,
            ILLEGAL_INSTRUCTION => stage_word(&self.id),
            _ => 0,
        }
    }

    #[cold]
    #[tactic(auto, unfolding(crate::specs::Effects::cause_fails))]
    fn fail_cause(&mut self, cause: u8, o: &mut Out)
        ensures { HasLeft self.old o.old (cause_fails self.old cause) self.new o.new }
    {
        let tval = self.trap_value(cause);
        self.fail(cause, tval, 0, o);
    }

    #[cold]
    #[tactic(auto, unfolding(crate::specs::Effects::interrupts, crate::specs::Effects::rests))]
    fn interrupt(&mut self, number: u8, o: &mut Out)
        ensures { HasLeft self.old o.old (interrupts self.old number) self.new o.new }
    {
        let pc = self.id.pc;
        let (regs, target) = enter(&self.csrs.regs(), pc, number, true, 0);
        self.go_to(&regs, target);
        put_event(
            o,
            Some(Event::Irq {
                cycle: 0,
                pc,
                cause: number,
            }),
        );
    }

    /// Moves the registers and the address of the next real instruction as the turn leaves them, and drives the
    /// register write and the event.
    #[inline(always)]
    #[tactic(auto, unfolding(crate::specs::Effects::effect_by, crate::specs::Effects::retires))]
    pub fn take(&mut self, g: &Sight, lines: u32, o: &mut Out)
        requires { IsSight self.old g.now }
        ensures { HasLeft self.old o.old (effect_by g.now.turn self.old g.now lines) self.new o.new }
    {
        match g.turn {
            Turn::Idle | Turn::Hold(_) | Turn::Dummy => self.rest(o),
            Turn::Irq => self.interrupt((self.id.word % 32) as u8, o),
            Turn::Trap { portion: 1 } => self.fail_portion(&access(g), false, o),
            Turn::Trap { portion: 2 } => self.fail_portion(&access(g), true, o),
            Turn::Trap { .. } => self.fail_cause(cause(g), o),
            Turn::Retire { .. } => self.retire(g, lines, o),
        }
    }
}
