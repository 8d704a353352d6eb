//! The text of a number.
ghost use Rattle.std.specs.Prelude.{◌≡◌, ◌+◌, ◌^◌, ◌≤◌, ◌<◌, ◌++◌, length, drop};
ghost use Rattle.std.specs.Fmt.{decimal};
ghost use Rattle.ibx_text.specs.Digits.{two_digits, hex_digits};

use crate::pairs::{decimal_pair, hex_pair};
use std::marker::Model;

// The longest text is that of the largest number of 64 bits.
const CAPACITY: usize = 20;

/// The text of a number: its digits, the highest first.
#[derive(Drop)]
pub struct Digits {
    bytes: [u8; CAPACITY],
    start: usize,
}

impl Model for Digits {
    ghost use Rattle.std.specs.Prelude.{ℕ, ◌≤◌, List, drop, IsAscii};

    ghost Value = { List ℕ };

    ghost view = { λ d. drop d.start d.bytes };

    ghost invariant = { λ d. (d.start ≤ 20) × IsAscii (drop d.start d.bytes) };
}

impl Digits {
    /// A decimal number without leading zeros: 1 to 20 digits, and at most 10 for one below 2^32.
    pub fn decimal(number: u64) -> Digits
        ensures text { result ≡ decimal number }
        ensures length { length result ≤ 20 }
        ensures short { number < 2 ^ 32 → length result ≤ 10 }
    {
        let mut bytes = [0; CAPACITY];
        let start = put_decimal(&mut bytes, number);
        Digits { bytes, start }
    }

    /// A number below 100 by two decimal digits.
    pub fn two_decimal(number: u8) -> Digits
        requires { number < 100 }
        ensures text { result ≡ two_digits number }
        ensures length { length result ≡ 2 }
    {
        let mut bytes = [0; CAPACITY];
        put_pair(&mut bytes, CAPACITY - 2, decimal_pair(number as usize));
        Digits {
            bytes,
            start: CAPACITY - 2,
        }
    }

    /// The lowest `digits` hexadecimal digits of a word, at most 8.
    pub fn hexadecimal(word: u32, digits: u32) -> Digits
        requires { digits ≤ 8 }
        ensures text { result ≡ hex_digits digits word }
        ensures length { length result ≡ digits }
    {
        let mut bytes = [0; CAPACITY];
        put_word(&mut bytes, word);
        Digits {
            bytes,
            start: CAPACITY - digits as usize,
        }
    }

    /// The digits.
    pub fn as_str(&self) -> &str
        ensures { result.now ≡ self.now }
    {
        // SAFETY: the digits are ASCII.
        unsafe { std::str::from_utf8_unchecked(&self.bytes[self.start..]) }
    }
}

// Writes two digits.
fn put_pair(bytes: &mut [u8; CAPACITY], at: usize, pair: [u8; 2])
    requires { at + 2 ≤ 20 }
    ensures { drop at bytes.new ≡ pair ++ drop (at + 2) bytes.old }
{
    bytes[at..at + 2].copy_from_slice(&pair);
}

// Writes the eight digits of a word at the end.
fn put_word(bytes: &mut [u8; CAPACITY], word: u32)
    ensures { drop 12 bytes.new ≡ hex_digits 8 word ++ drop 20 bytes.old }
{
    put_pair(bytes, 18, hex_pair((word % 256) as u8));
    put_pair(bytes, 16, hex_pair(((word >> 8) % 256) as u8));
    put_pair(bytes, 14, hex_pair(((word >> 16) % 256) as u8));
    put_pair(bytes, 12, hex_pair((word >> 24) as u8));
}

// Writes a decimal number at the end, and says where it starts.
fn put_decimal(bytes: &mut [u8; CAPACITY], number: u64) -> usize
    ensures start { result + length (decimal number) ≡ 20 }
    ensures written { drop result bytes.new ≡ decimal number ++ drop 20 bytes.old }
{
    let mut left = number;
    let mut end = CAPACITY;
    while left >= 100 {
        put_pair(bytes, end - 2, decimal_pair((left % 100) as usize));
        left /= 100;
        end -= 2;
    }
    put_first(bytes, left, end)
}

// Writes a number below 100 so that it ends at `end`, and says where it starts.
fn put_first(bytes: &mut [u8; CAPACITY], number: u64, end: usize) -> usize
    requires small { number < 100 }
    requires room { (length (decimal number) ≤ end) × (end ≤ 20) }
    ensures start { result + length (decimal number) ≡ end }
    ensures written { drop result bytes.new ≡ decimal number ++ drop end bytes.old }
{
    if number < 10 {
        bytes[end - 1] = b'0' + number as u8;
        return end - 1;
    }
    put_pair(bytes, end - 2, decimal_pair(number as usize));
    end - 2
}
