ghost use Rattle.std.specs.Prelude.{◌≡◌, ◌+◌, ◌-◌, ◌*◌, ◌^◌, ◌<◌, ◌≤◌, length};
ghost use Rattle.ibx_plan.specs.Plan.{empty_plan, lines_at, plan_with_entry, with_line, Leaves};

use crate::bounds::{Bounds, LineKind, PlanFault};
use crate::capped::append;
use crate::changes::Changes;
use crate::counter::Steps;
use crate::entry::{Entry, line_entry};
use crate::row::is_skipped;
use crate::site::{Flip, Wait};
use crate::text::Words;
use std::alloc::Global;
use std::marker::{Brand, Model};
use std::sync::ledger::{Blank, Ledger};

/// The waits of each port's transactions, the changes of the interrupt lines, and at most one flip.
#[derive(Drop)]
pub struct Plan {
    iwaits: Vec<Wait>,
    dwaits: Vec<Wait>,
    changes: Changes,
    flip: Option<Flip>,
}

impl Model for Plan {
    ghost use Rattle.ibx_plan.specs.Plan.{PlanValue};

    ghost Value = { PlanValue };

    ghost view = { λ p. record {
      iwaits = p.iwaits.items;
      dwaits = p.dwaits.items;
      changes = p.changes;
      flip = p.flip;
    } };
}

impl Plan {
    /// A plan with no waits, no interrupt and no flip. It takes no memory.
    pub fn empty(alloc: Global) -> Plan
        ensures { result ≡ empty_plan }
    {
        Plan {
            iwaits: Vec::new(alloc),
            dwaits: Vec::new(alloc),
            changes: Changes::new(alloc),
            flip: None,
        }
    }

    /// The waits of the instruction port's transactions, which go over the list again and again.
    pub fn iwaits(&self) -> &[Wait]
        ensures { result.now ≡ self.now.iwaits }
    {
        self.iwaits.as_slice()
    }

    /// The waits of the data port's transactions.
    pub fn dwaits(&self) -> &[Wait]
        ensures { result.now ≡ self.now.dwaits }
    {
        self.dwaits.as_slice()
    }

    /// The interrupt lines in a cycle, a bit for each: those of the last `irq` line at or before it, else 0.
    pub fn lines(&self, cycle: u64) -> u32
        ensures { result ≡ lines_at self.now.changes cycle }
    {
        self.lines_over::<Brand>(cycle, Blank::new(1))
    }

    // The same over a new ledger, whose count nobody reads.
    fn lines_over<L: Ledger>(&self, cycle: u64, blank: Blank) -> u32
        requires name { blank.name ≡ L.name }
        requires parts { blank.parts ≡ L.parts }
        requires some { 0 < blank.parts }
        ensures { result ≡ lines_at self.now.changes cycle }
    {
        let mut steps = Steps::<L>::new(blank);
        self.changes.lines(cycle, &mut steps)
    }

    /// What `lines` gives, with a count of the changes that are looked at, each of which is one step: at
    /// most as many as the number of changes has binary digits.
    pub fn lines_counted<L: Ledger>(&self, cycle: u64, steps: &mut Steps<L>) -> u32
        ensures value { result ≡ lines_at self.now.changes cycle }
        ensures grows { steps.old ≤ steps.new }
        ensures probes { 2 ^ (steps.new - steps.old) ≤ 2 * length self.now.changes + 1 }
    {
        self.changes.lines(cycle, steps)
    }

    /// The flip, if the plan has one.
    pub fn flip(&self) -> Option<Flip>
        ensures { result ≡ self.now.flip }
    {
        self.flip
    }

    #[tactic(auto, unfolding(crate::specs::Plan::plan_with_entry))]
    fn add(&mut self, entry: Entry, line: u32, bounds: &Bounds) -> Result<(), PlanFault>
        ensures { Leaves result self.new (plan_with_entry bounds.now line self.old entry) }
    {
        match entry {
            Entry::Iwait(wait) => append(&mut self.iwaits, wait, line),
            Entry::Dwait(wait) => append(&mut self.dwaits, wait, line),
            Entry::Irq(change) if self.changes.are_before(change) => self.changes.add(change, line),
            Entry::Irq(_) => Err(PlanFault::Line(line, LineKind::Order)),
            Entry::Flip(flip) if bounds.flips > 0 && self.flip.is_none() => {
                self.flip = Some(flip);
                Ok(())
            }
            Entry::Flip(_) => Err(PlanFault::Line(line, LineKind::Flip)),
        }
    }

    /// Adds what the line of this number says.
    #[tactic(auto, unfolding(crate::specs::Plan::with_line))]
    pub(crate) fn add_line(
        &mut self,
        text: &[u8],
        line: u32,
        bounds: &Bounds,
    ) -> Result<(), PlanFault>
        ensures { Leaves result self.new (with_line bounds.now line self.old text.now) }
    {
        let words = Words::of(text);
        if is_skipped(&words) {
            return Ok(());
        }
        match line_entry(&words, bounds) {
            Ok(entry) => self.add(entry, line, bounds),
            Err(kind) => Err(PlanFault::Line(line, kind)),
        }
    }
}
