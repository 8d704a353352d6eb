ghost use Rattle.std.specs.Prelude.{◌≡◌, ◌<◌, ◌^◌, length, IfOk, IfSome};
ghost use Rattle.std.specs.Str.Lines.{lines};
ghost use Rattle.ibx_plan.specs.Plan.{with_lines, plan_of, entries_of, Holds, FlipFits, ReadsPlan, Leaves};

use crate::bounds::{Bounds, PlanFault};
use crate::lists::Plan;
use crate::text::first_line;
use std::alloc::Global;

fn add_lines(plan: &mut Plan, text: &[u8], bounds: &Bounds) -> Result<(), PlanFault>
    requires { length text.now < 2 ^ 32 }
    ensures { Leaves result plan.new (with_lines bounds.now 1 plan.old (lines text.now)) }
{
    let mut rest = text;
    let mut number = 0u32;
    while !rest.is_empty() {
        let (line, after) = first_line(rest);
        number += 1;
        plan.add_line(line, number, bounds)?;
        rest = after;
    }
    Ok(())
}

#[tactic(auto, unfolding(crate::specs::Plan::plan_of))]
fn read_plan(alloc: Global, text: &[u8], bounds: &Bounds) -> Result<Plan, PlanFault>
    requires { length text.now < 2 ^ 32 }
    ensures { ReadsPlan result (plan_of bounds.now text.now) }
{
    let mut plan = Plan::empty(alloc);
    add_lines(&mut plan, text, bounds)?;
    if bounds.flips > 0 && plan.flip().is_none() {
        return Err(PlanFault::NoFlip);
    }
    Ok(plan)
}

/// The plan that a text writes, or why it is refused.
///
/// A line feed ends a line, and the last line may lack it; a carriage return right before a line feed is
/// dropped. Words stand between spaces and tabs. A line without words, or whose first word begins with `#`,
/// says nothing. A number is 1 to 10 decimal digits, or `0x` and 1 to 8 hexadecimal digits.
pub fn read(alloc: Global, text: &[u8], bounds: &Bounds) -> Result<Plan, PlanFault>
    requires { length text.now < 2 ^ 32 }
    ensures value { ReadsPlan result (plan_of bounds.now text.now) }
    // Each list has the entries of its lines, in their order.
    ensures holds { IfOk result (λ plan. Holds plan (entries_of bounds.now text.now)) }
    // The flip is made in a cycle of the run, at a bit that there is.
    ensures flip_fits { IfOk result (λ plan. IfSome plan.flip (FlipFits bounds.now)) }
{
    read_plan(alloc, text, bounds)
}
