//! Numbers appended to a line.
ghost use Rattle.std.specs.Prelude.{◌≡◌, ◌+◌, ◌<◌, ◌≤◌, ◌++◌};
ghost use Rattle.std.specs.Fmt.{decimal};
ghost use Rattle.arrayvec.specs.ArrayString.{array_string_len};
ghost use Rattle.ibx_text.specs.Digits.{hex_digits, two_digits};
ghost use Rattle.ibx_trace.specs.Digits.{word_digits};

use arrayvec::ArrayString;
use ibx_text::Digits;

/// The text of a line. The longest has fewer than 96 bytes.
pub(crate) type Line = ArrayString<96>;

/// Appends the lowest `width` hexadecimal digits of `number`.
pub(crate) fn push_hex(text: &mut Line, number: u32, width: u32)
    requires width { width ≤ 8 }
    requires room { array_string_len text.old + width ≤ 96 }
    ensures bytes { text.new.bytes ≡ text.old.bytes ++ hex_digits width number }
    ensures len { array_string_len text.new ≡ array_string_len text.old + width }
{
    text.push_str(Digits::hexadecimal(number, width).as_str());
}

/// Appends an instruction: 8 digits for a word, and 4 for a halfword.
#[tactic(auto, unfolding(crate::specs::Digits::word_digits))]
pub(crate) fn push_word(text: &mut Line, word: u32)
    requires { array_string_len text.old + 8 ≤ 96 }
    ensures bytes { text.new.bytes ≡ text.old.bytes ++ word_digits word }
    ensures len { array_string_len text.new ≤ array_string_len text.old + 8 }
{
    if word % 4 == 3 {
        push_hex(text, word, 8);
    } else {
        push_hex(text, word, 4);
    }
}

/// Appends two decimal digits.
pub(crate) fn push_two_digits(text: &mut Line, number: u8)
    requires small { number < 100 }
    requires room { array_string_len text.old + 2 ≤ 96 }
    ensures bytes { text.new.bytes ≡ text.old.bytes ++ two_digits number }
    ensures len { array_string_len text.new ≡ array_string_len text.old + 2 }
{
    text.push_str(Digits::two_decimal(number).as_str());
}

/// Appends a decimal number, which has at most 20 digits, without leading zeros.
pub(crate) fn push_number(text: &mut Line, number: u64)
    requires { array_string_len text.old + 20 ≤ 96 }
    ensures bytes { text.new.bytes ≡ text.old.bytes ++ decimal number }
    ensures len { array_string_len text.new ≤ array_string_len text.old + 20 }
{
    text.push_str(Digits::decimal(number).as_str());
}
