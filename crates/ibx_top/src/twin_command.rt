//! Two files run by a plan, and compared by the views of their events.
ghost use Rattle.std.specs.Prelude.{◌≡◌, ◌+◌, ◌%◌, ◌^◌, ◌++◌, [], ◌∷◌};
ghost use Rattle.std.specs.Option.{option_map};
ghost use Rattle.ibx_command.specs.Options.{IsInRange};
ghost use Rattle.ibx_top.specs.Answers.{IsTwin, named};
ghost use Rattle.ibx_top.specs.Outcomes.{Leaves, end_of};
ghost use Rattle.ibx_top.specs.Seals.{seal_of};
ghost use Rattle.ibx_top.specs.Twins.{differs};

use crate::outcome::{Finish, Outcome, Refusal};
use crate::seal::field_sum;
use crate::steps::{FILE_LIMIT, load_image, open_system, read_bytes, read_plan};
use crate::twin_lines::print_twin;
use ibx_base::{Files, Sink};
use ibx_command::Twin as Pair;
use ibx_compare::Twin;
use ibx_soc::Soc;
use std::alloc::Global;

// Whether an answer is a difference.
fn is_difference(answer: &Twin) -> bool
    ensures { result ≡ differs answer.now }
{
    matches!(answer, Twin::Differ { .. })
}

// The sum of main's fields of both systems, modulo 2^64.
fn sum_of_both(a: &Soc<'_>, b: &Soc<'_>) -> u64
    ensures { result ≡ (seal_of a.now.main + seal_of b.now.main) % 2 ^ 64 }
{
    field_sum(a.main()).wrapping_add(field_sum(b.main()))
}

/// Reads a plan, if one is named, and both files, runs the files side by side, and writes how they compare.
pub(crate) fn twin<'w, F: Files, K: Sink>(
    alloc: Global,
    asked: Pair<'w>,
    files: &mut F,
    out: &mut K,
) -> Result<Finish, Outcome<'w>>
    requires { IsInRange asked.options }
    ensures { Leaves F.contents F.begun F.faults F.misses K.taken K.faults
        (named (option_map (λ plan. plan.now) asked.entry.plan)
        ++ asked.entry.first.now ∷ asked.entry.second.now ∷ [])
        (IsTwin (F.contents files.old) asked.entry.first.now asked.entry.second.now
        (option_map (λ plan. plan.now) asked.entry.plan) asked.entry.options)
        (end_of result) files.old files.new out.old out.new }
{
    let options = asked.options;
    let plan = read_plan(alloc, asked.plan, 0, options, files)?;
    let bytes = read_bytes(alloc, asked.first, FILE_LIMIT, Refusal::FileTooLong, files)?;
    let a = load_image(asked.first, &bytes, options.ram)?;
    let others = read_bytes(alloc, asked.second, FILE_LIMIT, Refusal::FileTooLong, files)?;
    let b = load_image(asked.second, &others, options.ram)?;
    let mut first = open_system(alloc, &a, options, &plan)?;
    let mut second = open_system(alloc, &b, options, &plan)?;
    let answer = ibx_compare::twin(&mut first, &mut second, options.cycles);
    print_twin(&answer, out)?;
    Ok(Finish::Compared {
        differ: is_difference(&answer),
        seal: sum_of_both(&first, &second),
    })
}
