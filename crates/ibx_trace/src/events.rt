//! The line of an event, and the last line of a run.
ghost use Rattle.std.specs.Prelude.{◌≡◌, ◌≢◌, ◌+◌, ◌%◌, ◌^◌, ◌<◌, ◌≤◌, ◌++◌, length};
ghost use Rattle.arrayvec.specs.ArrayString.{array_string_len};
ghost use Rattle.ibx_trace.specs.Lines.{heading, register_text, store_text, line_of, end_line_of};
ghost use Rattle.ibx_isa.specs.Events.{IsPrintable};

use crate::digits::{Line, push_hex, push_number, push_two_digits, push_word};
use arrayvec::ArrayString;
use ibx_isa::{Access, Event};

// Begins a line with the kind of the event, its cycle and the byte address of its instruction.
#[tactic(auto, unfolding(crate::specs::Lines::heading))]
fn begin(kind: &str, cycle: u64, pc: u32) -> Line
    requires { length kind.now ≤ 2 }
    ensures bytes { result.bytes ≡ heading kind.now cycle pc }
    ensures len { array_string_len result ≤ 31 }
{
    let mut text = Line::new();
    text.push_str(kind);
    push_number(&mut text, cycle);
    text.push_str(" ");
    push_hex(&mut text, pc, 8);
    text
}

// Appends the register `rd` that was written and its new value, and nothing where `rd` is 0.
#[tactic(auto, unfolding(crate::specs::Lines::register_text))]
fn push_register(text: &mut Line, rd: u8, value: u32)
    requires register { rd < 32 }
    requires room { array_string_len text.old + 13 ≤ 96 }
    ensures bytes { text.new.bytes ≡ text.old.bytes ++ register_text rd value }
    ensures len { array_string_len text.new ≤ array_string_len text.old + 13 }
{
    if rd != 0 {
        text.push_str(" x");
        push_two_digits(text, rd);
        text.push_str("=");
        push_hex(text, value, 8);
    }
}

// Appends the address, the value and the size of a store, and nothing for a load.
#[tactic(auto, unfolding(crate::specs::Lines::store_text))]
fn push_store(text: &mut Line, access: Option<Access>)
    requires { array_string_len text.old + 40 ≤ 96 }
    ensures bytes { text.new.bytes ≡ text.old.bytes ++ store_text access }
    ensures len { array_string_len text.new ≤ array_string_len text.old + 40 }
{
    if let Some(access) = access
        && access.store
    {
        text.push_str(" m");
        push_hex(text, access.addr, 8);
        text.push_str("=");
        push_hex(text, access.value, 8);
        text.push_str("/");
        push_number(text, u64::from(access.size));
    }
}

/// The line of an event, with its line feed. The cycle and the cause are decimal, and the register is two
/// decimal digits. The byte address of the instruction, the value and the address of a store have 8
/// hexadecimal digits. The size of a store is in bytes.
///
/// - `R cycle pc word`, then ` xNN=value` where a register other than x0 was written, or
///   ` mADDR=value/size` for a store; the word has 8 digits, and 4 for a halfword;
/// - `T cycle pc cause=n tval=x`;
/// - `I cycle pc cause=n`.
///
/// The register is below 32, and 0 for a store. An instruction whose bits 1:0 aren't both 1 is a halfword.
#[tactic(auto, unfolding(crate::specs::Lines::line_of))]
pub fn line(e: &Event) -> ArrayString<96>
    requires { IsPrintable e.now }
    ensures { result.bytes ≡ line_of e.now }
{
    match *e {
        Event::Retire {
            cycle,
            pc,
            word,
            rd,
            value,
            mem,
            ..
        } => {
            let mut text = begin("R ", cycle, pc);
            text.push_str(" ");
            push_word(&mut text, word);
            push_register(&mut text, rd, value);
            push_store(&mut text, mem);
            text.push_str("\n");
            text
        }
        Event::Trap {
            cycle,
            pc,
            cause,
            tval,
            ..
        } => {
            let mut text = begin("T ", cycle, pc);
            text.push_str(" cause=");
            push_number(&mut text, u64::from(cause));
            text.push_str(" tval=");
            push_hex(&mut text, tval, 8);
            text.push_str("\n");
            text
        }
        Event::Irq { cycle, pc, cause } => {
            let mut text = begin("I ", cycle, pc);
            text.push_str(" cause=");
            push_number(&mut text, u64::from(cause));
            text.push_str("\n");
            text
        }
    }
}

/// The last line of a run, with its line feed: `E halt cycles events` where a halting store ended it, and
/// `E budget cycles events` where the budget of cycles did. Both counts are decimal.
#[tactic(auto, unfolding(crate::specs::Lines::end_line_of))]
pub fn end_line(halted: bool, cycles: u64, events: u64) -> ArrayString<96>
    ensures { result.bytes ≡ end_line_of halted cycles events }
{
    let mut text = Line::new();
    text.push_str(if halted { "E halt " } else { "E budget " });
    push_number(&mut text, cycles);
    text.push_str(" ");
    push_number(&mut text, events);
    text.push_str("\n");
    text
}
