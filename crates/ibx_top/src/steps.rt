//! The steps that commands share, each with the end that it may come to: a plan is read, a file's bytes are read, an
//! image is loaded, and a system is opened.
ghost use Rattle.std.specs.Prelude.{◌≡◌, ◌≤◌, ◌<◌, ℕ, [], ◌∷◌, length, IfOk, IfErr, IfSome};
ghost use Rattle.std.specs.Option.{option_map};
ghost use Rattle.ibx_base.specs.Files.{IsContent};
ghost use Rattle.ibx_elf.specs.Image.{image_of};
ghost use Rattle.ibx_elf.specs.Faults.{first_fault};
ghost use Rattle.ibx_elf.specs.Ram.{IsRamRange};
ghost use Rattle.ibx_isa.specs.declared.insn.MulKind.{MulKind};
ghost use Rattle.ibx_plan.specs.Plan.{FlipFits, PlanValue, plan_of};
ghost use Rattle.ibx_soc.specs.First.{IsAsNew};
ghost use Rattle.ibx_time.specs.Runs.{IsPlaced};
ghost use Rattle.ibx_time_system.specs.Projection.{AreWords};
ghost use Rattle.ibx_top.specs.Answers.{IsBytesAnswer, IsPlanAnswer, IsPlanIn, IsTextAnswer};
ghost use Rattle.ibx_top.specs.Answers.{bounds_of as bounds_of_lem, file_limit, named, plan_limit};
ghost use Rattle.ibx_top.specs.Outcomes.{IsTooLong, LacksOrRefuses, Passes, Refuses, Stops};
ghost use Rattle.ibx_top.specs.Verdicts.{system_of};
ghost use Rattle.std.specs.Prelude.{None, Ok, Some};

use crate::bytes::are_bytes;
use crate::outcome::{Outcome, Refusal};
use ibx_base::{Files, NoMemory, ReadEnd, read_all};
use ibx_command::Options;
use ibx_elf::{Image, Ram, load};
use ibx_plan::{Bounds, Plan, PlanFault, read};
use ibx_soc::{Config, Soc};
use std::alloc::Global;

/// The most bytes that a file may have, 32 MiB.
pub(crate) const FILE_LIMIT: usize = 33_554_432;

/// The most bytes that a plan or a text may have, 4 MiB.
pub(crate) const PLAN_LIMIT: usize = 4_194_304;

// What the plan of a command with so many flips may say.
fn bounds_of(flips: u32, options: Options) -> Bounds
    ensures { result ≡ bounds_of_lem flips options }
{
    Bounds {
        ram_words: options.ram.size / 4,
        delay: options.delay.cycles(),
        flips,
        cycles: options.cycles,
    }
}

/// Reads the bytes of a file, a plan or a text, of which there are at most `limit`.
pub(crate) fn read_bytes<'w, F: Files>(
    alloc: Global,
    name: &'w str,
    limit: usize,
    too_long: Refusal,
    files: &mut F,
) -> Result<Vec<u8>, Outcome<'w>>
    ensures passes { Passes F.contents F.faults F.misses (name.now ∷ []) files.old files.new }
    ensures content { IfOk result (λ bytes. IsContent (F.contents files.old) name.now bytes.items) }
    ensures fits { IfOk result (λ bytes. length bytes.items ≤ limit) }
    ensures stops { IfErr result (λ end. Stops F.begun F.faults (name.now ∷ [])
        (IsTooLong (F.contents files.old) name.now limit too_long) end files.old files.new) }
{
    match read_all(alloc, files, name, limit) {
        Ok(bytes) => Ok(bytes),
        Err(ReadEnd::Failed) => Err(Outcome::CannotRead(name)),
        Err(ReadEnd::TooLong) => Err(Outcome::Refused(name, too_long)),
        Err(ReadEnd::Memory) => Err(Outcome::OutOfMemory),
    }
}

// The plan that a text writes.
fn plan_of_text<'w>(
    alloc: Global,
    name: &'w str,
    text: &[u8],
    bounds: &Bounds,
) -> Result<Plan, Outcome<'w>>
    requires { length text.now ≤ plan_limit }
    ensures plan { IfOk result (λ plan. plan_of bounds.now text.now ≡ Ok plan) }
    ensures words { IfOk result (λ plan. AreWords plan.changes) }
    ensures flip { IfOk result (λ plan. IfSome plan.flip (FlipFits bounds.now)) }
    ensures stops { IfErr result (LacksOrRefuses (IsTextAnswer name.now bounds.now (λ _ _. ⊥) text.now)) }
{
    match read(alloc, text, bounds) {
        Ok(plan) => Ok(plan),
        Err(fault) => match fault {
            PlanFault::Memory => Err(Outcome::OutOfMemory),
            _ => Err(Outcome::Refused(name, Refusal::Plan(fault))),
        },
    }
}

// Reads the plan of this name.
fn read_named_plan<'w, F: Files>(
    alloc: Global,
    name: &'w str,
    bounds: &Bounds,
    files: &mut F,
) -> Result<Plan, Outcome<'w>>
    ensures passes { Passes F.contents F.faults F.misses (name.now ∷ []) files.old files.new }
    ensures plan { IfOk result (IsPlanIn (F.contents files.old) (Some name.now) bounds.now) }
    ensures words { IfOk result (λ plan. AreWords plan.changes) }
    ensures flip { IfOk result (λ plan. IfSome plan.flip (FlipFits bounds.now)) }
    ensures stops { IfErr result (λ end. Stops F.begun F.faults (name.now ∷ [])
        (IsPlanAnswer (F.contents files.old) (Some name.now) bounds.now (λ _ _. ⊥)) end files.old files.new) }
{
    let text = read_bytes(alloc, name, PLAN_LIMIT, Refusal::PlanTooLong, files)?;
    plan_of_text(alloc, name, &text, bounds)
}

/// Reads the plan of a command with so many flips, which is empty where none is named.
pub(crate) fn read_plan<'w, F: Files>(
    alloc: Global,
    name: Option<&'w str>,
    flips: u32,
    options: Options,
    files: &mut F,
) -> Result<Plan, Outcome<'w>>
    ensures passes { Passes F.contents F.faults F.misses (named (option_map (λ plan. plan.now) name.entry)) files.old
        files.new }
    ensures plan { IfOk result (IsPlanIn (F.contents files.old) (option_map (λ plan. plan.now) name.entry)
        (bounds_of_lem flips options)) }
    ensures words { IfOk result (λ plan. AreWords plan.changes) }
    ensures flip { IfOk result (λ plan. IfSome plan.flip (FlipFits (bounds_of_lem flips options))) }
    ensures stops { IfErr result (λ end. Stops F.begun F.faults (named (option_map (λ plan. plan.now) name.entry))
        (IsPlanAnswer (F.contents files.old) (option_map (λ plan. plan.now) name.entry) (bounds_of_lem flips options)
        (λ _ _. ⊥)) end files.old files.new) }
{
    match name {
        None => Ok(Plan::empty(alloc)),
        Some(name) => read_named_plan(alloc, name, &bounds_of(flips, options), files),
    }
}

/// Loads the image of a file's bytes, which with any multiplier and any plan of words is the setup of a run.
pub(crate) fn load_image<'b, 'w>(
    name: &'w str,
    bytes: &'b [u8],
    ram: Ram,
) -> Result<Image<'b>, Outcome<'w>>
    requires range { IsRamRange ram }
    requires fits { length bytes.now ≤ file_limit }
    ensures sound { IfOk result (λ image. first_fault bytes.now ram ≡ None) }
    ensures image { IfOk result (λ image. image ≡ image_of bytes.now ram) }
    ensures placed { IfOk result (λ image. (mul : MulKind) → (plan : PlanValue) → AreWords plan.changes
        → IsPlaced (record { image = image; mul = mul; plan = plan })) }
    ensures stops { IfErr result (Refuses (IsBytesAnswer name.now ram (λ _ _. ⊥) bytes.now)) }
{
    are_bytes(bytes);
    match load(bytes, ram) {
        Ok(image) => Ok(image),
        Err(fault) => Err(Outcome::Refused(name, Refusal::File(fault))),
    }
}

/// Opens the two cores at reset with an image in RAM, the multiplier and the delay of the options, and a plan, whose
/// flip isn't made. An `Err` means that there was no memory.
pub(crate) fn open_system<'p>(
    alloc: Global,
    image: &Image<'_>,
    options: Options,
    plan: &'p Plan,
) -> Result<Soc<'p>, NoMemory>
    ensures first { IfOk result (λ soc. soc ≡ system_of image.now options plan.now) }
    ensures as_new { IfOk result IsAsNew }
{
    let config = Config {
        ram: image.ram(),
        mul: options.mul,
        delay: options.delay,
    };
    Soc::new(alloc, image, &config, plan)
}
