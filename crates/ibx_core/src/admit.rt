ghost use Rattle.std.specs.Prelude.{◌≡◌, ◌≤◌, ◌<◌, ◌^◌, ◌+◌, ◌%◌, IfSome, not, ◌&&◌};
ghost use Rattle.ibx_id.specs.declared.stage.Turn.TheVariants.{Hold};
ghost use Rattle.ibx_id.specs.declared.stage.IdState.{IdState};
ghost use Rattle.ibx_id.specs.Turns.{IsWithinWidths, empty_stage};
ghost use Rattle.ibx_dummy.specs.Dummies.{dummy_word, inserted};
ghost use Rattle.ibx_core.specs.Entries.{admits_at, dummy_mask as dummy_mask_of};
ghost use Rattle.ibx_core.specs.Entries.{enables_dummies as enables_dummies_of, entered, enters, entry_by, fetched_by};
ghost use Rattle.ibx_core.specs.Entries.{fetched_of, may_execute as may_execute_of};

use crate::protection::may_execute;
use crate::state::{EMPTY_STAGE, State};
use ibx_csr::Csrs;
use ibx_id::{IdState, Turn};
use ibx_isa::control::{DUMMY_INSTR_EN, DUMMY_INSTR_MASK};
use ibx_isa::is_long;
use ibx_prefetch::{Head, Parcel};
use ibx_trap::pending;

// An item in its first cycle.
#[inline(always)]
fn item(kind: u8, pc: u32, word: u32, fault: u8) -> IdState
    requires kind { kind < 4 }
    requires fault { fault < 4 }
    ensures value { result ≡ enters kind pc word fault }
    ensures fits { IsWithinWidths result }
{
    IdState {
        valid: true,
        kind,
        pc,
        word,
        fault,
        phase: 0,
        count: 0,
    }
}

#[inline(always)]
fn enables_dummies(csrs: &Csrs) -> bool
    ensures { result ≡ enables_dummies_of csrs.now }
{
    csrs.cpuctrl & DUMMY_INSTR_EN != 0
}

#[inline(always)]
fn dummy_mask(csrs: &Csrs) -> u8
    ensures { result ≡ dummy_mask_of csrs.now }
{
    ((csrs.cpuctrl & DUMMY_INSTR_MASK) / 8) as u8
}

// A parcel that answered without an error, and may be executed.
#[inline(always)]
fn is_sound(parcel: &Parcel, csrs: &Csrs, addr: u32) -> bool
    ensures { result ≡ (not parcel.now.err && may_execute_of csrs.now addr) }
{
    !parcel.err && may_execute(csrs, addr)
}

impl State {
    // An item enters, and so many parcels leave the buffer.
    #[inline(always)]
    fn taking(&mut self, taken: u8, id: IdState) -> u8
        ensures fields { self.new ≡ record self.old { id = id } }
        ensures taken { result ≡ taken }
    {
        self.id = id;
        taken
    }

    // The real instruction at the next address, where its parcels are there.
    #[inline(always)]
    #[tactic(auto, unfolding(crate::specs::Entries::fetched_of, crate::specs::Entries::fetched_by))]
    fn fetch_item(&mut self, head: &Head) -> u8
        requires { self.old.dummies.dcount < 2 ^ 5 }
        ensures fields { self.new
            ≡ entered self.old (fetched_of head.now self.old.csrs self.old.dummies self.old.next_pc) }
        ensures taken { result ≡ (fetched_of head.now self.old.csrs self.old.dummies self.old.next_pc).taken }
        ensures item { IsWithinWidths self.new.id }
        ensures count { self.new.dummies.dcount < 2 ^ 5 }
        ensures two { result ≤ 2 }
    {
        let pc = self.next_pc;
        if !head.first.ready {
            return self.taking(0, EMPTY_STAGE);
        }
        let first = head.first.half as u32;
        let sound = is_sound(&head.first, &self.csrs, pc);
        let long = is_long(first);
        if sound && long && !head.second.ready {
            return self.taking(0, EMPTY_STAGE);
        }
        self.dummies.admitted(enables_dummies(&self.csrs));
        if !sound {
            self.taking(1, item(0, pc, 0, 1))
        } else if !long {
            self.taking(1, item(0, pc, first, 0))
        } else if !is_sound(&head.second, &self.csrs, pc.wrapping_add(2)) {
            self.taking(2, item(0, pc, 0, 2))
        } else {
            let word = first + head.second.half as u32 * 0x1_0000;
            self.taking(2, item(0, pc, word, 0))
        }
    }

    #[cold]
    fn insert(&mut self) -> u8
        requires { self.old.dummies.dcount < 2 ^ 5 }
        ensures fields { self.new ≡ record self.old {
          id = enters 1 self.old.next_pc (dummy_word self.old.dummies.lfsr) 0;
          dummies = inserted self.old.dummies;
        } }
        ensures taken { result ≡ 0 }
        ensures item { IsWithinWidths self.new.id }
        ensures count { self.new.dummies.dcount < 2 ^ 5 }
    {
        let dummy = item(1, self.next_pc, self.dummies.pick(), 0);
        self.dummies.inserted();
        self.taking(0, dummy)
    }

    // What enters next: an interrupt that is pending, a dummy that is due, or a real instruction.
    #[inline(always)]
    #[tactic(auto, unfolding(crate::specs::Entries::entry_by))]
    fn enter(&mut self, irq: Option<u8>, due: bool, head: &Head) -> u8
        requires { self.old.dummies.dcount < 2 ^ 5 }
        ensures fields { self.new
            ≡ entered self.old (entry_by irq due head.now self.old.csrs self.old.dummies self.old.next_pc) }
        ensures taken { result ≡ (entry_by irq due head.now self.old.csrs self.old.dummies self.old.next_pc).taken }
        ensures item { IsWithinWidths self.new.id }
        ensures count { self.new.dummies.dcount < 2 ^ 5 }
        ensures two { result ≤ 2 }
    {
        match irq {
            Some(number) => self.taking(0, item(2, self.next_pc, number as u32, 0)),
            None if due => self.insert(),
            None => self.fetch_item(head),
        }
    }

    /// What the stage holds in the next cycle, by the registers as this cycle's event left them, and how many parcels,
    /// 0 to 2, leave the buffer for it.
    #[inline(always)]
    #[tactic(auto, unfolding(crate::specs::Entries::admits_at))]
    pub fn admit(&mut self, turn: &Turn, head: &Head, lines: u32) -> u8
        requires count { self.old.dummies.dcount < 2 ^ 5 }
        requires held { (next : IdState) → turn.now ≡ Hold next → IsWithinWidths next }
        ensures fields { self.new
            ≡ entered self.old (admits_at turn.now head.now self.old.csrs self.old.dummies self.old.next_pc lines) }
        ensures taken { result
            ≡ (admits_at turn.now head.now self.old.csrs self.old.dummies self.old.next_pc lines).taken }
        ensures item { IsWithinWidths self.new.id }
        ensures count { self.new.dummies.dcount < 2 ^ 5 }
        ensures two { result ≤ 2 }
    {
        match *turn {
            Turn::Hold(next) => self.taking(0, next),
            _ => {
                let irq = pending(self.csrs.priv_, self.csrs.mstatus, self.csrs.mie, lines);
                let enabled = enables_dummies(&self.csrs);
                let due = self.dummies.due(enabled, dummy_mask(&self.csrs));
                self.enter(irq, due, head)
            }
        }
    }
}
