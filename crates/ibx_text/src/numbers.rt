//! The number that a word writes: 1 to 10 decimal digits, or `0x` and 1 to 8 hexadecimal digits.
ghost use Rattle.std.specs.Prelude.{◌≡◌, ◌<◌, ◌≤◌, ◌^◌, Some, None, IfSome, length, if◌then◌else◌};
ghost use Rattle.std.specs.Char.{digit_value, is_digit};
ghost use Rattle.ibx_text.specs.Number.{value_in, short_value, number_of};

fn digit(byte: u8, base: u32) -> Option<u64>
    requires low { 2 ≤ base }
    requires high { base ≤ 36 }
    ensures { result ≡ (if is_digit byte base then Some (digit_value byte) else None) }
{
    match char::from(byte).to_digit(base) {
        Some(digit) => Some(u64::from(digit)),
        None => None,
    }
}

fn value_in(digits: &[u8], base: u32) -> Option<u64>
    requires low { 2 ≤ base }
    requires high { base ≤ 16 }
    requires few { length digits.now ≤ 10 }
    ensures { result ≡ value_in base digits.now }
{
    let mut value = 0u64;
    for byte in digits {
        let digit = digit(*byte, base)?;
        value = value * u64::from(base) + digit;
    }
    Some(value)
}

fn short_value(digits: &[u8], base: u32, most: usize) -> Option<u64>
    requires low { 2 ≤ base }
    requires high { base ≤ 16 }
    requires few { most ≤ 10 }
    ensures { result ≡ short_value base most digits.now }
{
    if digits.is_empty() || digits.len() > most {
        return None;
    }
    value_in(digits, base)
}

/// The number that a word writes: 1 to 10 decimal digits, or `0x` and 1 to 8 hexadecimal digits of either
/// case (our own rule). None where it writes none. The largest are 9,999,999,999 and 0xFFFF_FFFF.
#[tactic(auto, unfolding(crate::specs::Number::number_of))]
pub fn number(word: &[u8]) -> Option<u64>
    ensures { result ≡ number_of word.now }
{
    if word.starts_with(b"0x") {
        short_value(&word[2..], 16, 8)
    } else {
        short_value(word, 10, 10)
    }
}
