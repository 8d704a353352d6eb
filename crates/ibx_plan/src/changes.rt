ghost use Rattle.std.specs.Prelude.{◌≡◌, ◌+◌, ◌-◌, ◌*◌, ◌^◌, ◌<◌, ◌≤◌, [], true, length, slice_index_or};
ghost use Rattle.ibx_plan.specs.Changes.{rises_from};
ghost use Rattle.ibx_plan.specs.Plan.{lines_at, follows, appended, Leaves};

use crate::bounds::PlanFault;
use crate::capped::append;
use crate::counter::Steps;
use crate::entry::Change;
use std::alloc::Global;
use std::marker::Model;
use std::sync::ledger::Ledger;

/// The changes of the interrupt lines, each in a later cycle than the one before it.
#[derive(Drop)]
pub struct Changes {
    list: Vec<Change>,
}

impl Model for Changes {
    ghost use Rattle.std.specs.Prelude.{◌≡◌, List, true};
    ghost use Rattle.ibx_plan.specs.declared.entry.Change.{Change};
    ghost use Rattle.ibx_plan.specs.Changes.{rises_from};

    ghost Value = { List Change };

    ghost view = { λ c. c.list.items };

    ghost invariant = { λ c. rises_from 0 c.list.items ≡ true };
}

// A look at one change, which is one step.
fn probe<L: Ledger>(changes: &[Change], index: usize, steps: &mut Steps<L>) -> Change
    requires { index < length changes.now }
    ensures change { result ≡ slice_index_or changes.now index result }
    ensures step { steps.new ≡ steps.old + 1 }
{
    steps.tick();
    changes[index]
}

// The lines in a cycle, found by halving the part of the list that is open.
fn lines_in<L: Ledger>(changes: &[Change], cycle: u64, steps: &mut Steps<L>) -> u32
    requires { rises_from 0 changes.now ≡ true }
    ensures value { result ≡ lines_at changes.now cycle }
    ensures grows { steps.old ≤ steps.new }
    ensures probes { 2 ^ (steps.new - steps.old) ≤ 2 * length changes.now + 1 }
{
    let mut lines = 0;
    let mut low = 0;
    let mut high = changes.len();
    while low < high {
        let middle = low + (high - low) / 2;
        let change = probe(changes, middle, steps);
        if change.cycle <= cycle {
            lines = change.mask;
            low = middle + 1;
        } else {
            high = middle;
        }
    }
    lines
}

impl Changes {
    pub(crate) fn new(alloc: Global) -> Changes
        ensures { result ≡ [] }
    {
        Changes {
            list: Vec::new(alloc),
        }
    }

    /// Whether a change is in a later cycle than those so far.
    pub(crate) fn are_before(&self, change: Change) -> bool
        ensures { result ≡ follows self.now change }
    {
        match self.list.last() {
            Some(last) => last.cycle < change.cycle,
            None => true,
        }
    }

    pub(crate) fn add(&mut self, change: Change, line: u32) -> Result<(), PlanFault>
        requires { follows self.old change ≡ true }
        ensures { Leaves result self.new (appended self.old change line) }
    {
        append(&mut self.list, change, line)
    }

    pub(crate) fn lines<L: Ledger>(&self, cycle: u64, steps: &mut Steps<L>) -> u32
        ensures value { result ≡ lines_at self.now cycle }
        ensures grows { steps.old ≤ steps.new }
        ensures probes { 2 ^ (steps.new - steps.old) ≤ 2 * length self.now + 1 }
    {
        lines_in(self.list.as_slice(), cycle, steps)
    }
}
