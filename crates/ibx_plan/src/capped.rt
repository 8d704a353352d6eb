ghost use Rattle.std.specs.Prelude.{◌≡◌, OnErr};
ghost use Rattle.ibx_plan.specs.Plan.{appended, Leaves};

use crate::bounds::PlanFault;

// The most entries of each list.
const MOST: usize = 65_536;

/// Adds the entry of the line of this number to a list.
pub(crate) fn append<T: Copy>(entries: &mut Vec<T>, entry: T, line: u32) -> Result<(), PlanFault>
    ensures leaves { Leaves result entries.new.items (appended entries.old.items entry line) }
    ensures refused { OnErr result (entries.new.items ≡ entries.old.items) }
{
    if entries.len() >= MOST {
        return Err(PlanFault::TooMany(line));
    }
    match entries.push(entry) {
        Ok(()) => Ok(()),
        Err(_) => Err(PlanFault::Memory),
    }
}
