ghost use Rattle.std.specs.Prelude.{◌≡◌, ◌+◌, ◌<◌, ◌≤◌, ◌++◌, ◌==◌, ◌||◌, bit_and, not, is_some, length, map, sum_by};
ghost use Rattle.std.specs.Prelude.{Some, IfSome, Ok};
ghost use Rattle.std.specs.List.{find, list_all};
ghost use Rattle.std.specs.Option.{option_map};
ghost use Rattle.arrayvec.specs.ArrayString.{array_string_len};
ghost use Rattle.ibx_isa.specs.Lengths.{IsWordOrHalf};
ghost use Rattle.ibx_asm.specs.Dis.{suits, mnemonic_of, slot_text, operands_text, data_text, instruction_text, dis_of};
ghost use Rattle.ibx_asm.specs.Dis.{word_bytes};
ghost use Rattle.ibx_asm.specs.Denote.{denoted};
ghost use Rattle.ibx_decoder.specs.Compressed.{expand_of};
ghost use Rattle.ibx_decoder.specs.Rows.{decode_of};
ghost use Rattle.ibx_decoder.specs.Table.{none_holds};
ghost use Rattle.ibx_asm.specs.Held.{exceptions_of, pattern_meant, row_meant, both_meant, room_of};

use crate::digits::{Line, push_hex, push_number, push_register};
use crate::fields::{gathered, part};
use crate::rows::{INSTRUCTIONS, ROWS, Row};
use crate::slot::{Form, Slot, exceptions_of, mask_of, slots_of};
use arrayvec::ArrayString;

fn all_fail(word: u32, exceptions: &[(u32, u32)]) -> bool
    ensures { result ≡ list_all (λ e. not (bit_and word e.0 == e.1)) exceptions.now }
{
    exceptions.iter().all(|e| word & e.0 != e.1)
}

// Whether no exception of a form holds.
fn no_exception(word: u32, form: Form) -> bool
    ensures { result ≡ none_holds word (exceptions_of form) }
{
    all_fail(word, exceptions_of(form))
}

// Whether a word fits a row.
#[tactic(auto, unfolding(crate::specs::Held::pattern_meant))]
fn suits(row: &Row, word: u32) -> bool
    ensures { result ≡ suits word (pattern_meant row.now) }
{
    let mask = mask_of(row.3);
    word & mask == row.2 & mask && no_exception(word, row.3)
}

fn row_suiting(rows: &[Row], word: u32) -> Option<&Row>
    ensures { option_map (λ row. row.now) result ≡ find (λ row. suits word (pattern_meant row)) rows.now }
{
    rows.iter().find(|row| suits(row, word))
}

fn mnemonic_in(rows: &[Row], word: u32) -> Option<&Row>
    ensures { option_map (λ row. row_meant row.now) result
        ≡ option_map (λ r. r.1) (find (λ r. suits word r.0) (map both_meant rows.now)) }
{
    row_suiting(rows, word)
}

// The row of the mnemonic of a word.
fn mnemonic_of(word: u32) -> Option<&'static Row>
    ensures value { option_map (λ row. row_meant row.now) result ≡ mnemonic_of word }
    ensures short { IfSome result (λ row. length row.now.0.now ≤ 10) }
{
    mnemonic_in(&ROWS[..INSTRUCTIONS], word)
}

// Appends what stands in a slot.
#[tactic(auto, unfolding(crate::specs::Dis::slot_text, crate::specs::Held::room_of))]
fn push_slot(text: &mut Line, slot: Slot, word: u32)
    requires { array_string_len text.old + room_of slot ≤ 40 }
    ensures bytes { text.new.bytes ≡ text.old.bytes ++ slot_text word slot }
    ensures len { array_string_len text.new ≤ array_string_len text.old + room_of slot }
{
    match slot {
        Slot::Comma => text.push_str(", "),
        Slot::Opening => text.push_str("("),
        Slot::Closing => text.push_str(")"),
        Slot::Register(place) | Slot::RegisterBut(place, _) => {
            push_register(text, part(word, place.low(), 5, 0))
        }
        Slot::ShortRegister(place) => push_register(text, 8 + part(word, place.low(), 3, 0)),
        Slot::Number(field) | Slot::Target(field) => push_number(
            text,
            field,
            gathered(field, word),
        ),
    }
}

// Appends the operands after a space, and nothing where there are none.
fn push_operands(text: &mut Line, slots: &[Slot], word: u32)
    requires { array_string_len text.old + 1 + sum_by room_of slots.now ≤ 40 }
    ensures { text.new.bytes ≡ text.old.bytes ++ operands_text word slots.now }
{
    if slots.is_empty() {
        return;
    }
    text.push_str(" ");
    for slot in slots {
        push_slot(text, *slot, word);
    }
}

// A word or halfword as data.
fn data(word: u32) -> Line
    ensures { result.bytes ≡ data_text word }
{
    let mut text = Line::new();
    if word % 4 == 3 {
        text.push_str(".word 0x");
        push_hex(&mut text, word, 8);
    } else {
        text.push_str(".half 0x");
        push_hex(&mut text, word, 4);
    }
    text
}

// The text of a row with the operands of a word.
#[tactic(auto, using(crate::proofs::Texts::short_form))]
fn row_text(row: &Row, word: u32) -> Line
    requires { length row.now.0.now ≤ 10 }
    ensures { result.bytes ≡ instruction_text word (Some (row_meant row.now)) }
{
    let Row(name, _, matches, form) = row;
    if matches!(form, Form::Fence) && word != *matches {
        return data(word);
    }
    let mut text = Line::new();
    text.push_str(name);
    push_operands(&mut text, slots_of(*form), word);
    text
}

#[tactic(auto, unfolding(crate::specs::Dis::dis_of))]
fn shown(word: u32) -> Line
    ensures { result.bytes ≡ dis_of word }
{
    match mnemonic_of(word) {
        Some(row) => row_text(row, word),
        None => data(word),
    }
}

/// The text of an instruction, in the syntax of the assembler. Our own, after the usual RISC-V assembly.
///
/// It is the mnemonic of the row that the word fits, and after a space the operands, parted by `, `. Immediates,
/// offsets of targets, amounts of shifts and numbers in place of registers are decimal; the upper 20 bits of LUI and
/// AUIPC have 5 hexadecimal digits after `0x`, and the address of a CSR has 3. Where no row fits, and for a FENCE other
/// than `fence` and `fence.i`, it is `.word 0x` and 8 hexadecimal digits for a word, and `.half 0x` and 4 for a
/// halfword.
#[tactic(auto, using(crate::proofs::Decoded::has_mnemonic))]
pub fn dis(word: u32) -> ArrayString<40>
    requires { IsWordOrHalf word }
    ensures value { result.bytes ≡ dis_of word }
    // A word has a mnemonic exactly where the decoder knows the word or the halfword.
    ensures decoded { is_some (mnemonic_of word) ≡ (is_some (decode_of word) || is_some (expand_of word)) }
    // The text assembles to the bytes of the word or halfword.
    ensures round_trip { denoted result.bytes ≡ Ok (word_bytes word) }
{
    shown(word)
}
