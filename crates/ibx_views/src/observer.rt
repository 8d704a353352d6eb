ghost use Rattle.std.specs.Prelude.{◌≡◌, ◌≤◌, IfSome, false};
ghost use Rattle.ibx_csr.specs.Fields.{values};
ghost use Rattle.ibx_csr.specs.Values.{cfg_bytes, sec_of};
ghost use Rattle.ibx_isa.specs.Lengths.{IsWordOrHalf};
ghost use Rattle.ibx_isa.specs.Views.{view_of};
ghost use Rattle.ibx_isa.specs.WellFormed.{IsWellFormed};
ghost use Rattle.ibx_arch.specs.Access.{is_refused};
ghost use Rattle.ibx_arch.specs.Memory.{is_mapped};
ghost use Rattle.ibx_decoder.specs.Instructions.{instruction_of};
ghost use Rattle.ibx_plan.specs.Plan.{PlanValue};
ghost use Rattle.ibx_time.specs.Controls.{ctl_after, ctl_entered, ctl_reset, is_fixed};
ghost use Rattle.ibx_time.specs.Items.{operand2, item_of, is_turned, parcels_of, plain, portions_at, portions_for};
ghost use Rattle.ibx_time.specs.Items.{retired_item, trap_parcels};
ghost use Rattle.ibx_views.specs.TimeViews.{change_of, change_retired, ctl_changed, item_view, portions_view};
ghost use Rattle.ibx_views.specs.TimeViews.{time_view};
ghost use Rattle.ibx_views.specs.Observers.{ctl_in, settings_with, settings_in};

use crate::time_view::{Change, ItemView, Portions, TimeView};
use ibx_bits::host_page_has;
use ibx_csr::Csrs;
use ibx_decoder::instruction;
use ibx_elf::Ram;
use ibx_isa::cause::FETCH_FAULT;
use ibx_isa::control::DATA_IND_TIMING;
use ibx_isa::{
    BranchOp, Event, Insn, MulKind, View, access_size, branch, is_long, md_cost, parts,
    portion_bytes, portion_start, view,
};
use ibx_pmp::{AccessKind, PmpRegs, allow};
use ibx_trap::{enter, leave};

/// Sees events in order, and follows the registers that control time. Of the configuration it has the range of RAM and
/// the multiplier. It takes no memory.
#[derive(Clone, Copy, Debug, PartialEq, Eq)]
pub struct Observer {
    pub ram: Ram,
    pub mul: MulKind,
    /// Of these the mode, `mstatus`, `mie`, `cpuctrl` and the registers of the protection unit are followed.
    pub csrs: Csrs,
}

impl Observer {
    /// Before the first event the registers are at reset.
    pub fn new(ram: Ram, mul: MulKind) -> Observer
        ensures ram { result.ram ≡ ram }
        ensures mul { result.mul ≡ mul }
        ensures registers { ctl_in result ≡ ctl_reset }
    {
        Observer {
            ram,
            mul,
            csrs: Csrs::reset(0),
        }
    }

    /// The time view of the next event, whose word is one of 32 bits or a halfword. It is the same whatever the plan.
    pub fn observe(&mut self, event: &Event) -> TimeView
        requires { IsWordOrHalf (view_of event.now).word }
        ensures seen { (plan : PlanValue) → result ≡ time_view (settings_with self.old plan) (ctl_in self.old)
            (view_of event.now) }
        ensures registers { ctl_in self.new ≡ ctl_after (ctl_in self.old) (view_of event.now) }
        ensures ram { self.new.ram ≡ self.old.ram }
        ensures mul { self.new.mul ≡ self.old.mul }
    {
        let seen = self.look(&view(event));
        self.follow(seen.change);
        seen
    }

    // The time view of an event with this view.
    fn look(&self, view: &View) -> TimeView
        requires { IsWordOrHalf view.now.word }
        ensures { result ≡ time_view (settings_in self.now) (ctl_in self.now) view.now }
    {
        TimeView {
            pc: view.pc,
            item: self.item(view),
            change: change(view),
        }
    }

    // The registers after an event with this change.
    fn follow(&mut self, change: Change)
        ensures registers { ctl_in self.new ≡ ctl_changed (ctl_in self.old) change }
        ensures ram { self.new.ram ≡ self.old.ram }
        ensures mul { self.new.mul ≡ self.old.mul }
    {
        match change {
            Change::Unchanged => {}
            Change::Trapped => self.enter(false),
            Change::Interrupted => self.enter(true),
            Change::Returned => {
                let (after, _) = leave(&self.csrs.regs());
                self.csrs.set_regs(&after);
            }
            Change::Wrote { addr, value } => {
                self.csrs.write(addr, value);
            }
        }
    }

    // The registers after a trap or an interrupt: `mepc`, `mcause` and `mtval` control no time.
    fn enter(&mut self, irq: bool)
        ensures registers { ctl_in self.new ≡ ctl_entered (ctl_in self.old) irq }
        ensures ram { self.new.ram ≡ self.old.ram }
        ensures mul { self.new.mul ≡ self.old.mul }
    {
        let (after, _) = enter(&self.csrs.regs(), 0, 0, irq, 0);
        self.csrs.set_regs(&after);
    }

    // What of the event with this view decides its own cycles.
    #[tactic(auto, unfolding(ibx_time::specs::Items::item_of))]
    fn item(&self, view: &View) -> ItemView
        requires { IsWordOrHalf view.now.word }
        ensures { result ≡ item_view (item_of (settings_in self.now) (ctl_in self.now) view.now) }
    {
        let insn = instruction(view.word);
        match view.kind {
            2 => ItemView {
                redirects: true,
                ..at_once(0)
            },
            1 => ItemView {
                portions: self.portions(insn, view.addr),
                cost: 1,
                redirects: true,
                ..at_once(trap_parcels(view))
            },
            _ => self.retired(view, insn),
        }
    }

    // The same for an instruction that retired.
    #[tactic(auto, unfolding(ibx_time::specs::Items::retired_item))]
    fn retired(&self, view: &View, insn: Option<Insn>) -> ItemView
        requires { IfSome insn IsWellFormed }
        ensures { result ≡ item_view (retired_item (settings_in self.now) (ctl_in self.now) view.now insn
            (plain (parcels_of view.now.word))) }
    {
        let item = at_once(parcels(view.word));
        match insn {
            Some(Insn::Branch { op, .. }) => {
                let turns = self.is_fixed() || is_taken(op, view.ops);
                ItemView {
                    cost: u8::from(turns),
                    redirects: turns,
                    ..item
                }
            }
            Some(Insn::MulDiv { op, .. }) => ItemView {
                cost: md_cost(op, second(view.ops), self.is_fixed(), self.mul),
                ..item
            },
            Some(Insn::Load { .. } | Insn::Store { .. }) => ItemView {
                portions: self.portions(insn, view.addr),
                ..item
            },
            Some(Insn::Jal { .. } | Insn::Jalr { .. }) => ItemView {
                redirects: true,
                ..item
            },
            Some(Insn::FenceI) => ItemView {
                redirects: true,
                fences: true,
                ..item
            },
            Some(Insn::Mret) => ItemView {
                cost: 1,
                redirects: true,
                ..item
            },
            Some(Insn::Wfi) => ItemView {
                sleeps: true,
                ..item
            },
            _ => item,
        }
    }

    // The portions of a load or store whose address is known.
    fn portions(&self, insn: Option<Insn>, addr: Option<u32>) -> Portions
        requires { IfSome insn IsWellFormed }
        ensures { result ≡ portions_view (portions_for (settings_in self.now) (ctl_in self.now) insn addr) }
    {
        match (insn, addr) {
            (Some(Insn::Load { op, .. }), Some(addr)) => {
                self.portions_at(addr, access_size(op), AccessKind::Read)
            }
            (Some(Insn::Store { size, .. }), Some(addr)) => {
                self.portions_at(addr, size, AccessKind::Write)
            }
            _ => Portions::Nothing,
        }
    }

    // The portions of an access, by what refuses it and which memory answers.
    fn portions_at(&self, addr: u32, size: u8, kind: AccessKind) -> Portions
        requires { size ≤ 4 }
        ensures { result ≡ portions_view (portions_at (settings_in self.now) (ctl_in self.now) addr size kind) }
    {
        let has_second = parts(addr, size) == 2;
        if self.is_refused(addr, size, kind, false)
            || (has_second && self.is_refused(addr, size, kind, true))
        {
            return Portions::Nothing;
        }
        let is_mapped = self.is_mapped(portion_start(addr, false));
        let is_mapped_next = self.is_mapped(portion_start(addr, true));
        match (is_mapped, has_second) {
            (false, _) => Portions::SingleError,
            (true, false) => Portions::Single,
            (true, true) if is_mapped_next => Portions::Double,
            (true, true) => Portions::DoubleError,
        }
    }

    // Whether protection refuses a portion of an access.
    fn is_refused(&self, addr: u32, size: u8, kind: AccessKind, second: bool) -> bool
        requires { size ≤ 4 }
        ensures { result ≡ is_refused (values self.now.csrs) addr size kind second }
    {
        let start = portion_start(addr, second);
        let bytes = portion_bytes(addr, size, second);
        !allow(
            &self.protection(),
            start,
            bytes,
            kind,
            self.csrs.access_machine(),
        )
    }

    fn protection(&self) -> PmpRegs
        ensures cfg { result.cfg ≡ cfg_bytes (values self.now.csrs) }
        ensures addr { result.addr ≡ (values self.now.csrs).pmpaddr }
        ensures sec { result.sec ≡ sec_of (values self.now.csrs) }
    {
        let view = self.csrs.pmp();
        let cfg = view.cfg;
        let addr = view.addr;
        let sec = view.sec;
        PmpRegs { cfg, addr, sec }
    }

    fn is_mapped(&self, addr: u32) -> bool
        ensures { result ≡ is_mapped self.now.ram addr }
    {
        self.ram.has(addr) || host_page_has(addr)
    }

    // Whether timing is fixed.
    #[tactic(auto, unfolding(ibx_csr::specs::Fields::values))]
    fn is_fixed(&self) -> bool
        ensures { result ≡ is_fixed (ctl_in self.now) }
    {
        self.csrs.cpuctrl & DATA_IND_TIMING != 0
    }
}

// An item that takes so many halfwords, and ends as it enters.
fn at_once(parcels: u8) -> ItemView
    ensures { result ≡ item_view (plain parcels) }
{
    ItemView {
        parcels,
        portions: Portions::Nothing,
        cost: 0,
        sleeps: false,
        redirects: false,
        fences: false,
    }
}

// The halfwords of an instruction.
fn parcels(word: u32) -> u8
    ensures { result ≡ parcels_of word }
{
    if is_long(word) { 2 } else { 1 }
}

// The halfwords that a trap takes: an unsound first one is taken alone.
fn trap_parcels(view: &View) -> u8
    ensures { result ≡ trap_parcels view.now }
{
    if view.cause != FETCH_FAULT {
        parcels(view.word)
    } else if view.tval == view.pc {
        1
    } else {
        2
    }
}

// Whether a branch with these operands is taken.
fn is_taken(op: BranchOp, operands: Option<(u32, u32)>) -> bool
    ensures { result ≡ is_turned false op operands }
{
    match operands {
        Some((a, b)) => branch(op, a, b),
        None => false,
    }
}

// The second operand, 0 where there is none.
fn second(operands: Option<(u32, u32)>) -> u32
    ensures { result ≡ operand2 operands }
{
    match operands {
        Some((_, b)) => b,
        None => 0,
    }
}

// What the event with this view does to the registers.
#[tactic(auto, unfolding(crate::specs::TimeViews::change_of))]
fn change(view: &View) -> Change
    requires { IsWordOrHalf view.now.word }
    ensures { result ≡ change_of view.now }
{
    match view.kind {
        2 => Change::Interrupted,
        1 => Change::Trapped,
        _ => retired_change(instruction(view.word), view.ctl),
    }
}

// What an instruction that retired does to them, with the value that it handed to a write.
fn retired_change(insn: Option<Insn>, written: Option<u32>) -> Change
    ensures { result ≡ change_retired insn written }
{
    match (insn, written) {
        (Some(Insn::Mret), _) => Change::Returned,
        (Some(Insn::Csr { addr, .. }), Some(value)) => Change::Wrote { addr, value },
        _ => Change::Unchanged,
    }
}
