ghost use Rattle.std.specs.Prelude.{◌≡◌, ◌+◌, ◌*◌, ◌<◌, ◌≤◌, ◌^◌, length, map, IfOk};
ghost use Rattle.std.specs.Str.Lines.{lines};
ghost use Rattle.ibx_asm.specs.Denote.{code_base, placed, labels_of, code_of_all, denoted, Assembles};
ghost use Rattle.ibx_asm.specs.Held.{stands};

use crate::fault::AsmFault;
use crate::labels::{Label, Labels};
use crate::line::{Line, code_of, label_of, size_of};
use crate::text::{first_line, without_comment};
use std::alloc::{AllocError, Global};

// The byte address of the code's first line.
const CODE_BASE: u64 = 0x10_0080;

// The lines of a text. The code of each follows that of the line before.
fn placed(alloc: Global, text: &[u8]) -> Result<Vec<Line<'_>>, AllocError>
    requires { length text.now < 2 ^ 32 }
    ensures value { IfOk result (λ all. map stands all.items ≡ placed 1 code_base (lines text.now)) }
    ensures few { IfOk result (λ all. length all.items ≤ length text.now) }
{
    let mut all = Vec::new(alloc);
    let mut address = CODE_BASE;
    let mut number = 0u32;
    let mut rest = text;
    while !rest.is_empty() {
        let (line, after) = first_line(rest);
        let line = without_comment(line);
        number += 1;
        all.push(Line {
            number,
            address,
            text: line,
        })?;
        address += u64::from(size_of(line));
        rest = after;
    }
    Ok(all)
}

// The labels that lines define, in the order of their definitions.
fn labels_of<'a>(alloc: Global, all: &[Line<'a>]) -> Result<Labels<'a>, AllocError>
    ensures { IfOk result (λ labels. labels ≡ labels_of (map stands all.now)) }
{
    let mut labels = Vec::new(alloc);
    for line in all {
        if let Some(name) = label_of(line.text) {
            labels.push(Label {
                name,
                line: line.number,
                address: line.address,
            })?;
        }
    }
    Labels::new(alloc, labels)
}

// The code of lines of a text that has these labels.
fn code_of_all(alloc: Global, all: &[Line], labels: &Labels) -> Result<Vec<u8>, AsmFault>
    ensures value { Assembles result (code_of_all labels.now (map stands all.now)) }
    ensures size { IfOk result (λ code. length code.items ≤ 4 * length all.now) }
{
    let mut code = Vec::new(alloc);
    for line in all {
        let bytes = match code_of(*line, labels) {
            Ok(bytes) => bytes,
            Err(kind) => return Err(AsmFault::Line(line.number, kind)),
        };
        code.extend_from_slice(&bytes.word.to_le_bytes()[..bytes.size as usize])?;
    }
    Ok(code)
}

/// The code that a text stands for, or why it is refused. Our own rules.
///
/// A line feed ends a line, and the last line may lack it; a carriage return right before a line feed is dropped. A
/// line is cut at a `#`. It is empty, `NAME :`, or a mnemonic with its operands; spaces and tabs separate, and `,`,
/// `(`, `)` and `:` stand for themselves. Numbers are decimal, or hexadecimal after `0x`, with or without a `-`.
/// Registers are `x0` to `x31`. The target of a jump or branch is a signed offset in bytes, or a label. The code begins
/// at 0x00100080, and each line's code follows that of the line before.
///
/// The first line that is refused decides, with the first of the kinds of [`AsmKind`](crate::AsmKind) that holds.
pub fn assemble(alloc: Global, text: &[u8]) -> Result<Vec<u8>, AsmFault>
    requires { length text.now < 2 ^ 32 }
    // The bytes that the text denotes, or the first line that is refused with its first kind; or memory ran out.
    ensures value { Assembles result (denoted text.now) }
    // No line has more than four bytes of code.
    ensures size { IfOk result (λ code. length code.items ≤ 4 * length text.now) }
{
    let all = placed(alloc, text)?;
    let labels = labels_of(alloc, all.as_slice())?;
    code_of_all(alloc, all.as_slice(), &labels)
}
