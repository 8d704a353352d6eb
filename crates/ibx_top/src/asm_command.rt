//! A text turned into a file.
ghost use Rattle.std.specs.Prelude.{◌≡◌, ◌≤◌, [], ◌∷◌, length, IfOk, IfErr, Ok};
ghost use Rattle.ibx_asm.specs.Denote.{denoted};
ghost use Rattle.ibx_top.specs.Answers.{IsAssembled, asm_answer, plan_limit};
ghost use Rattle.ibx_top.specs.Outcomes.{Leaves, LacksOrRefuses, end_of};

use crate::outcome::{Finish, Outcome, Refusal};
use crate::steps::{PLAN_LIMIT, read_bytes};
use ibx_asm::AsmFault;
use ibx_base::{Files, Sink, write_all};
use ibx_command::Assemble;
use ibx_wrap::wrap;
use std::alloc::Global;

// The code that a text stands for.
fn code_of<'w>(alloc: Global, name: &'w str, text: &[u8]) -> Result<Vec<u8>, Outcome<'w>>
    requires { length text.now ≤ plan_limit }
    ensures code { IfOk result (λ code. denoted text.now ≡ Ok code.items) }
    ensures fits { IfOk result (λ code. length code.items ≤ 16777216) }
    ensures stops { IfErr result (LacksOrRefuses (λ answer. answer ≡ asm_answer name.now text.now)) }
{
    match ibx_asm::assemble(alloc, text) {
        Ok(code) => Ok(code),
        Err(fault) => match fault {
            AsmFault::Memory => Err(Outcome::OutOfMemory),
            _ => Err(Outcome::Refused(name, Refusal::Text(fault))),
        },
    }
}

/// Reads a text, and writes the file around its code.
pub(crate) fn assemble<'w, F: Files, K: Sink>(
    alloc: Global,
    asked: Assemble<'w>,
    files: &mut F,
    out: &mut K,
) -> Result<Finish, Outcome<'w>>
    ensures { Leaves F.contents F.begun F.faults F.misses K.taken K.faults (asked.entry.file.now ∷ [])
        (IsAssembled (F.contents files.old) asked.entry.file.now)
        (end_of result) files.old files.new out.old out.new }
{
    let text = read_bytes(alloc, asked.file, PLAN_LIMIT, Refusal::TextTooLong, files)?;
    let code = code_of(alloc, asked.file, &text)?;
    let file = wrap(alloc, &code)?;
    write_all(out, &file)?;
    Ok(Finish::Written)
}
