ghost use Rattle.std.specs.Prelude.{◌≡◌, ◌+◌, ◌^◌, ◌<◌, ◌≤◌, ◌++◌};
ghost use Rattle.arrayvec.specs.ArrayString.{array_string_len};
ghost use Rattle.ibx_asm.specs.Dis.{hex_digits, signed_text, number_in, number_text, register_text};

use crate::fields::{Field, number_in};
use crate::operand::{Signed, register_name};
use arrayvec::ArrayString;
use ibx_text::Digits;

/// The text of an instruction, which has at most 40 bytes.
pub(crate) type Line = ArrayString<40>;

/// Appends the lowest `width` hexadecimal digits of a number.
pub(crate) fn push_hex(text: &mut Line, number: u32, width: u32)
    requires width { width ≤ 8 }
    requires room { array_string_len text.old + width ≤ 40 }
    ensures bytes { text.new.bytes ≡ text.old.bytes ++ hex_digits width number }
    ensures len { array_string_len text.new ≡ array_string_len text.old + width }
{
    text.push_str(Digits::hexadecimal(number, width).as_str());
}

// Appends a number with its sign.
#[tactic(auto, unfolding(crate::specs::Dis::signed_text))]
fn push_signed(text: &mut Line, number: Signed)
    requires small { number.size < 2 ^ 32 }
    requires room { array_string_len text.old + 11 ≤ 40 }
    ensures bytes { text.new.bytes ≡ text.old.bytes ++ signed_text number }
    ensures len { array_string_len text.new ≤ array_string_len text.old + 11 }
{
    if number.minus {
        text.push_str("-");
    }
    text.push_str(Digits::decimal(number.size).as_str());
}

/// Appends the number that a field's bits stand for.
#[tactic(auto, unfolding(crate::specs::Dis::number_text))]
pub(crate) fn push_number(text: &mut Line, field: Field, bits: u32)
    requires room { array_string_len text.old + 11 ≤ 40 }
    ensures bytes { text.new.bytes ≡ text.old.bytes ++ number_text field bits }
    ensures len { array_string_len text.new ≤ array_string_len text.old + 11 }
{
    match field {
        Field::U => {
            text.push_str("0x");
            push_hex(text, bits, 5);
        }
        Field::Csr => {
            text.push_str("0x");
            push_hex(text, bits, 3);
        }
        _ => push_signed(text, number_in(field, bits)),
    }
}

/// Appends the name of a register.
pub(crate) fn push_register(text: &mut Line, number: u32)
    requires { array_string_len text.old + 3 ≤ 40 }
    ensures bytes { text.new.bytes ≡ text.old.bytes ++ register_text number }
    ensures len { array_string_len text.new ≤ array_string_len text.old + 3 }
{
    text.push_str(register_name(number));
}
