//! What is printed of a file, a plan or a text that is refused.
ghost use Rattle.std.specs.Prelude.{◌≡◌, ◌+◌, ◌≤◌, ◌++◌, flat_map, length, codes};
ghost use Rattle.arrayvec.specs.ArrayString.{array_string_len};
ghost use Rattle.ibx_top.specs.ErrLines.{spaced, fault_number as fault_number_lem, fault_indices};
ghost use Rattle.ibx_top.specs.ErrLines.{fault_text as fault_text_lem, kind_text as kind_text_lem};
ghost use Rattle.ibx_top.specs.ErrLines.{plan_fault_text as plan_fault_text_lem};
ghost use Rattle.ibx_top.specs.ErrLines.{asm_kind_text as asm_kind_text_lem, asm_fault_text as asm_fault_text_lem};

use arrayvec::ArrayString;
use ibx_asm::{AsmFault, AsmKind};
use ibx_elf::ElfFault;
use ibx_plan::{LineKind, PlanFault};
use ibx_text::Digits;

/// The end of a line, which has at most 45 bytes.
pub(crate) type Text = ArrayString<48>;

// Appends a space and a number.
fn push_spaced(text: &mut Text, number: u32)
    requires { array_string_len text.old + 11 ≤ 48 }
    ensures bytes { text.new.bytes ≡ text.old.bytes ++ spaced number }
    ensures len { array_string_len text.new ≤ array_string_len text.old + 11 }
{
    text.push_str(" ");
    text.push_str(Digits::decimal(u64::from(number)).as_str());
}

// The number of a fault: 1 to 13, in the order in which they are looked for.
#[tactic(auto, unfolding(crate::specs::ErrLines::fault_number))]
fn fault_number(fault: ElfFault) -> u32
    ensures { result ≡ fault_number_lem fault }
{
    match fault {
        ElfFault::Short => 1,
        ElfFault::Magic => 2,
        ElfFault::Class => 3,
        ElfFault::Order => 4,
        ElfFault::Version => 5,
        ElfFault::Kind => 6,
        ElfFault::Machine => 7,
        ElfFault::Headers => 8,
        ElfFault::TooMany => 9,
        ElfFault::Segment(_) => 10,
        ElfFault::OutsideRam(_) => 11,
        ElfFault::Overlap(_, _) => 12,
        ElfFault::Entry => 13,
    }
}

// Appends the indices of the program headers that a fault names.
#[tactic(auto, unfolding(crate::specs::ErrLines::fault_indices))]
fn push_indices(text: &mut Text, fault: ElfFault)
    requires { array_string_len text.old + 22 ≤ 48 }
    ensures bytes { text.new.bytes ≡ text.old.bytes ++ flat_map spaced (fault_indices fault) }
    ensures len { array_string_len text.new ≤ array_string_len text.old + 22 }
{
    match fault {
        ElfFault::Segment(i) | ElfFault::OutsideRam(i) => push_spaced(text, u32::from(i)),
        ElfFault::Overlap(i, j) => {
            push_spaced(text, u32::from(i));
            push_spaced(text, u32::from(j));
        }
        _ => {}
    }
}

/// What the line of a fault has after the file's name: its number, then the indices of the program headers that it
/// names, each after a space, and the line feed.
#[tactic(auto, unfolding(crate::specs::ErrLines::fault_text))]
pub(crate) fn fault_text(fault: ElfFault) -> Text
    ensures { result.bytes ≡ fault_text_lem fault }
{
    let mut text = Text::new();
    text.push_str(": elf fault");
    push_spaced(&mut text, fault_number(fault));
    push_indices(&mut text, fault);
    text.push_str("\n");
    text
}

// What a line of a plan is refused for, after a space and with the line feed.
#[tactic(auto, unfolding(crate::specs::ErrLines::kind_text))]
fn kind_text(kind: LineKind) -> &'static str
    ensures bytes { result.now ≡ kind_text_lem kind }
    ensures len { length result.now ≤ 10 }
{
    match kind {
        LineKind::Word => " word\n",
        LineKind::Number => " number\n",
        LineKind::Range => " range\n",
        LineKind::Order => " order\n",
        LineKind::Flip => " flip\n",
    }
}

// The text of a line of a plan: its number, and what it is refused for.
fn line_text(line: u32, reason: &str) -> Text
    requires { length reason.now ≤ 10 }
    ensures { result.bytes ≡ codes ": plan line" ++ spaced line ++ reason.now }
{
    let mut text = Text::new();
    text.push_str(": plan line");
    push_spaced(&mut text, line);
    text.push_str(reason);
    text
}

fn text_of(words: &str) -> Text
    requires { length words.now ≤ 48 }
    ensures { result.bytes ≡ words.now }
{
    let mut text = Text::new();
    text.push_str(words);
    text
}

/// What the line of a fault has after the plan's name, with the line feed.
#[tactic(auto, unfolding(crate::specs::ErrLines::plan_fault_text, crate::specs::ErrLines::kind_text))]
pub(crate) fn plan_fault_text(fault: PlanFault) -> Text
    ensures { result.bytes ≡ plan_fault_text_lem fault }
{
    match fault {
        PlanFault::Line(line, kind) => line_text(line, kind_text(kind)),
        PlanFault::TooMany(line) => line_text(line, " too many\n"),
        PlanFault::NoFlip => text_of(": no flip\n"),
        PlanFault::Memory => text_of(": no memory\n"),
    }
}

// What a line of a text is refused for, after a space and with the line feed.
#[tactic(auto, unfolding(crate::specs::ErrLines::asm_kind_text))]
fn asm_kind_text(kind: AsmKind) -> &'static str
    ensures bytes { result.now ≡ asm_kind_text_lem kind }
    ensures len { length result.now ≤ 10 }
{
    match kind {
        AsmKind::Word => " word\n",
        AsmKind::Range => " range\n",
        AsmKind::Label => " label\n",
    }
}

/// What the line of a fault has after the text's name, with the line feed.
#[tactic(auto, unfolding(crate::specs::ErrLines::asm_fault_text))]
pub(crate) fn asm_fault_text(fault: AsmFault) -> Text
    ensures { result.bytes ≡ asm_fault_text_lem fault }
{
    let AsmFault::Line(line, kind) = fault else {
        return text_of(": no memory\n");
    };
    let mut text = text_of(": asm line");
    push_spaced(&mut text, line);
    text.push_str(asm_kind_text(kind));
    text
}
