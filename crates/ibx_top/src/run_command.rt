//! A file run by a plan.
ghost use Rattle.std.specs.Prelude.{◌≡◌, ◌++◌, [], ◌∷◌};
ghost use Rattle.std.specs.Option.{option_map};
ghost use Rattle.ibx_command.specs.Options.{IsInRange};
ghost use Rattle.ibx_top.specs.Answers.{IsRun, named};
ghost use Rattle.ibx_top.specs.Outcomes.{Leaves, end_of};

use crate::driving::drive;
use crate::outcome::{Finish, Outcome, Refusal};
use crate::seal::field_sum;
use crate::steps::{FILE_LIMIT, load_image, open_system, read_bytes, read_plan};
use ibx_base::{Files, Sink};
use ibx_command::Run;
use std::alloc::Global;

/// Reads a plan, if one is named, and a file, runs the file on two cores in lockstep, and writes its events.
pub(crate) fn run<'w, F: Files, K: Sink>(
    alloc: Global,
    asked: Run<'w>,
    files: &mut F,
    out: &mut K,
) -> Result<Finish, Outcome<'w>>
    requires { IsInRange asked.options }
    ensures { Leaves F.contents F.begun F.faults F.misses K.taken K.faults
        (named (option_map (λ plan. plan.now) asked.entry.plan) ++ asked.entry.file.now ∷ [])
        (IsRun (F.contents files.old) asked.entry.file.now (option_map (λ plan. plan.now) asked.entry.plan)
        asked.entry.options)
        (end_of result) files.old files.new out.old out.new }
{
    let options = asked.options;
    let plan = read_plan(alloc, asked.plan, 0, options, files)?;
    let bytes = read_bytes(alloc, asked.file, FILE_LIMIT, Refusal::FileTooLong, files)?;
    let image = load_image(asked.file, &bytes, options.ram)?;
    let mut soc = open_system(alloc, &image, options, &plan)?;
    let halted = drive(&mut soc, options.cycles, out)?;
    Ok(Finish::Ran {
        halted,
        seal: field_sum(soc.main()),
    })
}
