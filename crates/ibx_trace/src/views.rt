//! The line of a view.
ghost use Rattle.std.specs.Prelude.{◌≡◌, ◌≢◌, ◌+◌, ◌%◌, ◌^◌, ◌<◌, ◌≤◌, ◌++◌, ◌⊎◌, length, IsSome};
ghost use Rattle.arrayvec.specs.ArrayString.{array_string_len};
ghost use Rattle.ibx_isa.specs.Lengths.{IsWordOrHalf};
ghost use Rattle.ibx_trace.specs.ViewLines.{view_heading, part_text, operands_text, retirement_text, trap_text};
ghost use Rattle.ibx_trace.specs.ViewLines.{interrupt_text, view_line_of};

use crate::digits::{Line, push_hex, push_number, push_word};
use arrayvec::ArrayString;
use ibx_isa::View;

// Begins a line with the kind of the view and the byte address of its instruction.
#[tactic(auto, unfolding(crate::specs::ViewLines::view_heading))]
fn begin(kind: &str, pc: u32) -> Line
    requires { length kind.now ≤ 2 }
    ensures bytes { result.bytes ≡ view_heading kind.now pc }
    ensures len { array_string_len result ≤ 10 }
{
    let mut text = Line::new();
    text.push_str(kind);
    push_hex(&mut text, pc, 8);
    text
}

// Appends a named value, and nothing where there is none.
#[tactic(auto, unfolding(crate::specs::ViewLines::part_text))]
fn push_part(text: &mut Line, name: &str, value: Option<u32>)
    requires name { length name.now ≤ 3 }
    requires room { array_string_len text.old + 11 ≤ 96 }
    ensures bytes { text.new.bytes ≡ text.old.bytes ++ part_text name.now value }
    ensures len { array_string_len text.new ≤ array_string_len text.old + 11 }
{
    if let Some(value) = value {
        text.push_str(name);
        push_hex(text, value, 8);
    }
}

// Appends the values of rs1 and rs2, and nothing where there are none.
#[tactic(auto, unfolding(crate::specs::ViewLines::operands_text))]
fn push_operands(text: &mut Line, operands: Option<(u32, u32)>)
    requires { array_string_len text.old + 21 ≤ 96 }
    ensures bytes { text.new.bytes ≡ text.old.bytes ++ operands_text operands }
    ensures len { array_string_len text.new ≤ array_string_len text.old + 21 }
{
    if let Some((first, second)) = operands {
        text.push_str(" op=");
        push_hex(text, first, 8);
        text.push_str(",");
        push_hex(text, second, 8);
    }
}

#[tactic(auto, unfolding(crate::specs::ViewLines::retirement_text))]
fn retirement_line(v: &View) -> Line
    ensures { result.bytes ≡ retirement_text v.now }
{
    let mut text = begin("R ", v.pc);
    text.push_str(" ");
    push_word(&mut text, v.word);
    push_part(&mut text, " a=", v.addr);
    push_part(&mut text, " c=", v.ctl);
    push_operands(&mut text, v.ops);
    text.push_str("\n");
    text
}

#[tactic(auto, unfolding(crate::specs::ViewLines::trap_text))]
fn trap_line(v: &View) -> Line
    ensures { result.bytes ≡ trap_text v.now }
{
    let mut text = begin("T ", v.pc);
    text.push_str(" ");
    push_word(&mut text, v.word);
    text.push_str(" cause=");
    push_number(&mut text, u64::from(v.cause));
    text.push_str(" tval=");
    push_hex(&mut text, v.tval, 8);
    if v.cause == 5 || v.cause == 7 {
        push_part(&mut text, " a=", v.addr);
    }
    text.push_str("\n");
    text
}

#[tactic(auto, unfolding(crate::specs::ViewLines::interrupt_text))]
fn interrupt_line(v: &View) -> Line
    ensures { result.bytes ≡ interrupt_text v.now }
{
    let mut text = begin("I ", v.pc);
    text.push_str(" cause=");
    push_number(&mut text, u64::from(v.cause));
    text.push_str("\n");
    text
}

/// The line of a view, with its line feed. The cause is decimal, and every value has 8 hexadecimal digits.
///
/// - kind 0: `R pc word`, then ` a=ADDR`, ` c=VALUE` and ` op=A,B` for what the view has; the word has 8
///   digits, and 4 for a halfword;
/// - kind 1: `T pc word cause=n tval=x`, then ` a=ADDR` for a load or store access fault (causes 5 and 7);
/// - kind 2: `I pc cause=n`.
///
/// An instruction whose bits 1:0 aren't both 1 is a halfword, and a trap with cause 5 or 7 has an address.
#[tactic(auto, unfolding(crate::specs::ViewLines::view_line_of))]
pub fn view_line(v: &View) -> ArrayString<96>
    requires kind { v.now.kind ≤ 2 }
    requires halfword { IsWordOrHalf v.now.word }
    requires address { v.now.kind ≡ 1 → (v.now.cause ≡ 5) ⊎ (v.now.cause ≡ 7) → IsSome v.now.addr }
    ensures { result.bytes ≡ view_line_of v.now }
{
    match v.kind {
        0 => retirement_line(v),
        1 => trap_line(v),
        _ => interrupt_line(v),
    }
}
