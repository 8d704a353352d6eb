ghost use Rattle.std.specs.Prelude.{◌≡◌, ◌≤◌, IfOk, IfSome, drop};
ghost use Rattle.std.specs.List.{fold, zip};
ghost use Rattle.std.specs.Option.{option_map};
ghost use Rattle.ibx_asm.specs.Held.{coded, stands};
ghost use Rattle.ibx_asm.specs.Denote.{are_operands, instruction_of, size_of, label_of, in_range, known, with_operand};
ghost use Rattle.ibx_asm.specs.Denote.{code_with, code_of_label, code_of};
ghost use Rattle.ibx_asm.specs.Forms.{slots_of};
ghost use Rattle.ibx_asm.specs.Text.{tokens};

use crate::fault::AsmKind;
use crate::labels::Labels;
use crate::operand::is_name;
use crate::rows::{Encoding, encoding_of};
use crate::slot::{Slot, slots_of};
use crate::text::first_token;

/// A line of a text without its comment, its number, counted from 1, and the byte address of its code.
#[derive(Clone, Copy)]
pub(crate) struct Line<'a> {
    pub(crate) number: u32,
    pub(crate) address: u64,
    pub(crate) text: &'a [u8],
}

/// The code of a line: the lowest `size` bytes of a word.
#[derive(Clone, Copy)]
pub(crate) struct Code {
    pub(crate) word: u32,
    pub(crate) size: u8,
}

// The operands of an instruction, as a whole.
#[derive(Clone, Copy)]
struct Combined {
    in_range: bool,
    known: bool,
    word: u32,
}

/// The label that a line without comment defines.
#[tactic(auto, unfolding(crate::specs::Denote::label_of))]
pub(crate) fn label_of(text: &[u8]) -> Option<&[u8]>
    ensures { option_map (λ name. name.now) result ≡ label_of (tokens text.now) }
{
    let (name, rest) = first_token(text)?;
    let (mark, rest) = first_token(rest)?;
    if first_token(rest).is_none() && is_name(name) && mark == b":".as_slice() {
        Some(name)
    } else {
        None
    }
}

// Whether a text has the tokens of these operands, and no others.
#[tactic(auto, unfolding(crate::specs::Denote::are_operands))]
fn are_operands(slots: &[Slot], text: &[u8]) -> bool
    ensures { result ≡ are_operands slots.now (tokens text.now) }
{
    let mut rest = text;
    for slot in slots {
        match first_token(rest) {
            Some((token, after)) if slot.fits(token) => rest = after,
            _ => return false,
        }
    }
    first_token(rest).is_none()
}

// The instruction or directive of a line without comment, and the text of its operands.
#[tactic(auto, unfolding(crate::specs::Denote::instruction_of))]
fn instruction_of(text: &[u8]) -> Option<(Encoding, &[u8])>
    ensures value { option_map (λ r. r.0) result ≡ instruction_of (tokens text.now) }
    ensures operands { IfSome result (λ r. tokens r.1.now ≡ drop 1 (tokens text.now)) }
    ensures short { IfSome result (λ r. r.0.size ≤ 4) }
{
    let (mnemonic, rest) = first_token(text)?;
    let encoding = encoding_of(mnemonic)?;
    if are_operands(slots_of(encoding.form), rest) {
        Some((encoding, rest))
    } else {
        None
    }
}

/// How many bytes of code a line without comment has, at most 4.
pub(crate) fn size_of(text: &[u8]) -> u8
    ensures value { result ≡ size_of (tokens text.now) }
    ensures short { result ≤ 4 }
{
    if label_of(text).is_some() {
        return 0;
    }
    match instruction_of(text) {
        Some((encoding, _)) => encoding.size,
        None => 0,
    }
}

// What the operands in a text come to, onto a word.
fn operands(slots: &[Slot], text: &[u8], word: u32, labels: &Labels, address: u64) -> Combined
    ensures in_range { result.in_range ≡ in_range labels.now address (zip slots.now (tokens text.now)) }
    ensures known { result.known ≡ known labels.now address (zip slots.now (tokens text.now)) }
    ensures word { result.word ≡ fold (with_operand labels.now address) word (zip slots.now (tokens text.now)) }
{
    let mut in_range = true;
    let mut known = true;
    let mut word = word;
    let mut rest = text;
    for slot in slots {
        let Some((token, after)) = first_token(rest) else {
            return Combined {
                in_range,
                known,
                word,
            };
        };
        match slot.value(token, labels, address) {
            Some(value) => {
                in_range = in_range && slot.holds(value);
                word |= slot.bits(value);
            }
            None => known = false,
        }
        rest = after;
    }
    Combined {
        in_range,
        known,
        word,
    }
}

// The code of an instruction whose operands are in this text.
#[tactic(auto, unfolding(crate::specs::Denote::code_with))]
fn code_with(
    encoding: Encoding,
    text: &[u8],
    labels: &Labels,
    address: u64,
) -> Result<Code, AsmKind>
    ensures value { coded result
        ≡ code_with labels.now address encoding (zip (slots_of encoding.form) (tokens text.now)) }
    ensures size { IfOk result (λ code. code.size ≡ encoding.size) }
{
    let operands = operands(
        slots_of(encoding.form),
        text,
        encoding.word,
        labels,
        address,
    );
    if !operands.in_range {
        Err(AsmKind::Range)
    } else if !operands.known {
        Err(AsmKind::Label)
    } else {
        Ok(Code {
            word: operands.word,
            size: encoding.size,
        })
    }
}

// A line that defines a label: it has no code, and mustn't define it again.
fn code_of_label(name: &[u8], number: u32, labels: &Labels) -> Result<Code, AsmKind>
    ensures value { coded result ≡ code_of_label labels.now number name.now }
    ensures size { IfOk result (λ code. code.size ≡ 0) }
{
    match labels.find(name) {
        Some(label) if label.line < number => Err(AsmKind::Label),
        _ => Ok(Code { word: 0, size: 0 }),
    }
}

/// The code of a line, or why it is refused.
#[tactic(auto, unfolding(crate::specs::Denote::code_of))]
pub(crate) fn code_of(line: Line, labels: &Labels) -> Result<Code, AsmKind>
    ensures value { coded result ≡ code_of labels.now (stands line.entry) }
    ensures size { IfOk result (λ code. code.size ≤ 4) }
{
    if let Some(name) = label_of(line.text) {
        return code_of_label(name, line.number, labels);
    }
    if first_token(line.text).is_none() {
        return Ok(Code { word: 0, size: 0 });
    }
    match instruction_of(line.text) {
        Some((encoding, operands)) => code_with(encoding, operands, labels, line.address),
        None => Err(AsmKind::Word),
    }
}
