//! A file's code turned into text.
ghost use Rattle.std.specs.Prelude.{◌≡◌, [], ◌∷◌};
ghost use Rattle.ibx_elf.specs.Ram.{IsRamRange};
ghost use Rattle.ibx_top.specs.Answers.{IsListed};
ghost use Rattle.ibx_top.specs.Outcomes.{Leaves, end_of};

use crate::outcome::{Finish, Outcome, Refusal};
use crate::steps::{FILE_LIMIT, load_image, read_bytes};
use ibx_base::{Files, Sink};
use ibx_command::Disassemble;
use ibx_dis::print_listing;
use std::alloc::Global;

/// Reads a file, and writes its code as text.
pub(crate) fn disassemble<'w, F: Files, K: Sink>(
    alloc: Global,
    asked: Disassemble<'w>,
    files: &mut F,
    out: &mut K,
) -> Result<Finish, Outcome<'w>>
    requires { IsRamRange asked.ram }
    ensures { Leaves F.contents F.begun F.faults F.misses K.taken K.faults (asked.entry.file.now ∷ [])
        (IsListed (F.contents files.old) asked.entry.file.now asked.entry.ram)
        (end_of result) files.old files.new out.old out.new }
{
    let bytes = read_bytes(alloc, asked.file, FILE_LIMIT, Refusal::FileTooLong, files)?;
    let image = load_image(asked.file, &bytes, asked.ram)?;
    print_listing(&image, out)?;
    Ok(Finish::Written)
}
