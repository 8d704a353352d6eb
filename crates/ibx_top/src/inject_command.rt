//! A file run twice, with and without the flip of a plan.
ghost use Rattle.std.specs.Prelude.{◌≡◌, ◌+◌, ◌≤◌, ◌<◌, [], ◌∷◌, length, true, IfSome};
ghost use Rattle.ibx_plan.specs.Sites.{site_fits};
ghost use Rattle.ibx_lockstep.specs.Delays.{cycles_of};
ghost use Rattle.ibx_soc.specs.First.{IsAsNew};
ghost use Rattle.ibx_compare.specs.Verdicts.{IsNoticed};
ghost use Rattle.ibx_top.specs.Verdicts.{verdict_by};
ghost use Rattle.ibx_command.specs.Options.{IsInRange};
ghost use Rattle.ibx_top.specs.Answers.{IsInject};
ghost use Rattle.ibx_top.specs.Outcomes.{EndsNoticed, Leaves, end_of};

use crate::outcome::{Finish, Outcome, Refusal};
use crate::steps::{FILE_LIMIT, load_image, open_system, read_bytes, read_plan};
use crate::verdict::print_verdict;
use ibx_base::{Files, Sink};
use ibx_command::Inject;
use ibx_compare::Verdict;
use ibx_plan::Flip;
use ibx_soc::Soc;
use std::alloc::Global;

// Runs two systems that are as they were opened, the second with a flip if there is one.
#[tactic(auto, unfolding(crate::specs::Verdicts::verdict_by))]
fn compare(clean: &mut Soc<'_>, faulty: &mut Soc<'_>, flip: Option<Flip>, cycles: u64) -> Verdict
    requires as_new { IsAsNew clean.old }
    requires alike { faulty.old ≡ clean.old }
    requires some { 1 ≤ cycles }
    requires most { cycles ≤ 1000000000 }
    requires below { IfSome flip (λ f. f.cycle < cycles) }
    requires fits { IfSome flip (λ f. site_fits (length clean.old.place.memory.words) clean.old.delay f.site ≡ true) }
    ensures value { result ≡ verdict_by clean.old cycles flip }
    ensures noticed { IsNoticed (clean.old.delay + 1) result }
{
    match flip {
        Some(flip) => ibx_compare::inject(clean, faulty, &flip, cycles),
        None => Verdict {
            first_diff: None,
            first_alert: None,
        },
    }
}

/// Reads a plan and a file, runs the file with and without the flip of the plan, and writes the verdict.
pub(crate) fn inject<'w, F: Files, K: Sink>(
    alloc: Global,
    asked: Inject<'w>,
    files: &mut F,
    out: &mut K,
) -> Result<Finish, Outcome<'w>>
    requires { IsInRange asked.options }
    ensures leaves { Leaves F.contents F.begun F.faults F.misses K.taken K.faults
        (asked.entry.plan.now ∷ asked.entry.file.now ∷ [])
        (IsInject (F.contents files.old) asked.entry.file.now asked.entry.plan.now asked.entry.options)
        (end_of result) files.old files.new out.old out.new }
    ensures noticed { EndsNoticed (cycles_of asked.entry.options.delay) (end_of result) (K.taken out.old)
        (K.taken out.new) }
{
    let options = asked.options;
    let plan = read_plan(alloc, Some(asked.plan), 1, options, files)?;
    let bytes = read_bytes(alloc, asked.file, FILE_LIMIT, Refusal::FileTooLong, files)?;
    let image = load_image(asked.file, &bytes, options.ram)?;
    let mut clean = open_system(alloc, &image, options, &plan)?;
    let mut faulty = open_system(alloc, &image, options, &plan)?;
    let verdict = compare(&mut clean, &mut faulty, plan.flip(), options.cycles);
    print_verdict(&verdict, out)?;
    Ok(Finish::Injected(verdict.first_alert.is_some()))
}
