//! Codes that tell one or two flipped bits: words of K payload bits with R check bits above them.
//!
//! The check matrix has the columns of odd weight from 3 on (M. Y. Hsiao, 1970), by weight and then by value.
//! The stored check bits are inverted at each odd place, so that neither all zeros nor all ones is a codeword.
#![tactic(auto)]

mod tables;
#[cfg(test)]
mod tests;

ghost use Rattle.std.specs.Prelude.{◌≡◌, ◌≢◌, ◌↔◌, ◌+◌, ◌-◌, ◌*◌, ◌<◌, ◌≤◌, ◌^◌, ◌%◌, ℕ, length, slice_index, bit_xor};
ghost use Rattle.ibx_secded.specs.Code.{IsCode, IsCodeword, IsHeight, column, columns, checks, encode_of, syndrome_of};
ghost use Rattle.ibx_secded.specs.Code.{payload_of, rewrite_of, constant as constant_of};

use crate::tables::{check_22, check_32};

static COLUMNS_4: [u8; 4] = [7, 11, 13, 14];

static COLUMNS_5: [u8; 11] = [7, 11, 13, 14, 19, 21, 22, 25, 26, 28, 31];

static COLUMNS_6: [u8; 26] = [
    7, 11, 13, 14, 19, 21, 22, 25, 26, 28, 35, 37, 38, 41, 42, 44, 49, 50, 52, 56, 31, 47, 55, 59,
    61, 62,
];

static COLUMNS_7: [u8; 57] = [
    7, 11, 13, 14, 19, 21, 22, 25, 26, 28, 35, 37, 38, 41, 42, 44, 49, 50, 52, 56, 67, 69, 70, 73,
    74, 76, 81, 82, 84, 88, 97, 98, 100, 104, 112, 31, 47, 55, 59, 61, 62, 79, 87, 91, 93, 94, 103,
    107, 109, 110, 115, 117, 118, 121, 122, 124, 127,
];

static COLUMNS_8: [u8; 120] = [
    7, 11, 13, 14, 19, 21, 22, 25, 26, 28, 35, 37, 38, 41, 42, 44, 49, 50, 52, 56, 67, 69, 70, 73,
    74, 76, 81, 82, 84, 88, 97, 98, 100, 104, 112, 131, 133, 134, 137, 138, 140, 145, 146, 148,
    152, 161, 162, 164, 168, 176, 193, 194, 196, 200, 208, 224, 31, 47, 55, 59, 61, 62, 79, 87, 91,
    93, 94, 103, 107, 109, 110, 115, 117, 118, 121, 122, 124, 143, 151, 155, 157, 158, 167, 171,
    173, 174, 179, 181, 182, 185, 186, 188, 199, 203, 205, 206, 211, 213, 214, 217, 218, 220, 227,
    229, 230, 233, 234, 236, 241, 242, 244, 248, 127, 191, 223, 239, 247, 251, 253, 254,
];

// The columns of the check matrix of this height.
fn columns_of(height: usize) -> &'static [u8]
    requires { IsHeight height }
    ensures { result.now ≡ columns height }
{
    match height {
        4 => &COLUMNS_4,
        5 => &COLUMNS_5,
        6 => &COLUMNS_6,
        7 => &COLUMNS_7,
        _ => &COLUMNS_8,
    }
}

// Column `index` of the check matrix of this height.
#[tactic(auto, unfolding(crate::specs::Code::column))]
fn column_at(height: usize, index: usize) -> u64
    requires high { IsHeight height }
    requires inside { index < length (columns height) }
    ensures value { result ≡ column height index }
    ensures small { result < 256 }
{
    columns_of(height)[index] as u64
}

// The check bits that are inverted as they are stored: bit k exactly for odd k.
fn constant(height: usize) -> u64
    requires { IsHeight height }
    ensures value { result ≡ constant_of height }
    ensures fits { result < 2 ^ height }
{
    170 % (1 << height)
}

/// The code of words with K payload bits, in bits K-1:0, and R check bits, in bits K+R-1:K.
///
/// R is from 4 to 8, and K from 1 to the number of columns, `2^(R-1) - R`, with at most 63 bits in all.
/// It has no values: its functions are called as `Code::<32, 7>::encode(value)`.
pub struct Code<const K: usize, const R: usize>;

impl<const K: usize, const R: usize> Code<K, R> {
    /// The XOR of the columns of the set bits, column by column: `check` without its tables.
    #[tactic(auto, using(crate::proofs::Loop::steps))]
    pub fn plain_check(value: u64) -> u64
        requires code { IsCode K R }
        requires fits { value < 2 ^ K }
        ensures value { result ≡ checks R K value }
        ensures fits { result < 2 ^ R }
    {
        let mut check = 0;
        for i in 0..K {
            check ^= ((value >> i) & 1) * column_at(R, i);
        }
        check
    }

    /// The XOR of the columns of the set bits: by tables for four bits at a time where (K, R) is (32, 7) or (22, 6),
    /// and else column by column.
    pub fn check(value: u64) -> u64
        requires code { IsCode K R }
        requires fits { value < 2 ^ K }
        ensures value { result ≡ checks R K value }
        ensures fits { result < 2 ^ R }
    {
        if K == 32 && R == 7 {
            check_32(value)
        } else if K == 22 && R == 6 {
            check_22(value)
        } else {
            Self::plain_check(value)
        }
    }

    // A payload below its stored check bits.
    #[tactic(auto, using(crate::proofs::Words::cat_is, crate::proofs::Words::cat_lt))]
    fn join(stored: u64, value: u64) -> u64
        requires code { IsCode K R }
        requires stored_fits { stored < 2 ^ R }
        requires fits { value < 2 ^ K }
        ensures value { result ≡ stored * 2 ^ K + value }
        ensures fits { result < 2 ^ (K + R) }
    {
        (stored << K) | value
    }

    /// The codeword of a payload.
    pub fn encode(value: u64) -> u64
        requires code { IsCode K R }
        requires fits { value < 2 ^ K }
        ensures value { result ≡ encode_of K R value }
        ensures fits { result < 2 ^ (K + R) }
        ensures sound { syndrome_of K R result ≡ 0 }
        ensures payload { payload_of K result ≡ value }
    {
        Self::join(Self::check(value) ^ constant(R), value)
    }

    /// The check bits that are wrong: 0 exactly for codewords. Another syndrome comes after one flipped bit,
    /// and after two.
    pub fn syndrome(word: u64) -> u64
        requires code { IsCode K R }
        requires fits { word < 2 ^ (K + R) }
        ensures value { result ≡ syndrome_of K R word }
        ensures fits { result < 2 ^ R }

        ensures codeword { (result ≡ 0) ↔ IsCodeword K R word }
        ensures encoded { (result ≡ 0) ↔ (word ≡ encode_of K R (payload_of K word)) }

        // A flip changes it by the column of a payload bit, or by the check bit itself.
        ensures payload_flip { (b : ℕ) → b < K → syndrome_of K R (bit_xor word (2 ^ b)) ≡ bit_xor result (column R b) }
        ensures check_flip { (b : ℕ) → b < R → syndrome_of K R (bit_xor word (2 ^ (K + b))) ≡ bit_xor result (2 ^ b) }
        ensures one_flip { (b : ℕ) → b < K + R → syndrome_of K R (bit_xor word (2 ^ b)) ≢ result }
        ensures two_flips { (a b : ℕ) → a < K + R → b < K + R → a ≢ b
            → syndrome_of K R (bit_xor (bit_xor word (2 ^ a)) (2 ^ b)) ≢ result }
    {
        (word >> K) ^ constant(R) ^ Self::check(Self::payload(word))
    }

    /// The low K bits.
    #[tactic(auto, using(crate::proofs::Words::low_bits))]
    pub fn payload(word: u64) -> u64
        requires { IsCode K R }
        ensures value { result ≡ payload_of K word }
        ensures fits { result < 2 ^ K }
    {
        word & ((1 << K) - 1)
    }

    /// The word with this payload and the syndrome of `old`, so that what is wrong stays told.
    pub fn rewrite(old: u64, value: u64) -> u64
        requires code { IsCode K R }
        requires old_fits { old < 2 ^ (K + R) }
        requires fits { value < 2 ^ K }
        ensures value { result ≡ rewrite_of K R old value }
        ensures fits { result < 2 ^ (K + R) }
        ensures same { syndrome_of K R result ≡ syndrome_of K R old }
        ensures payload { payload_of K result ≡ value }
    {
        let stored = Self::syndrome(old) ^ constant(R) ^ Self::check(value);
        Self::join(stored, value)
    }

    /// The word with bit `bit` changed.
    #[tactic(auto, using(crate::proofs::Flips::flips))]
    pub fn flip(word: u64, bit: u8) -> u64
        requires code { IsCode K R }
        requires bit { bit < K + R }
        requires fits { word < 2 ^ (K + R) }
        ensures value { result ≡ bit_xor word (2 ^ bit) }
        ensures fits { result < 2 ^ (K + R) }
    {
        word ^ (1 << bit)
    }
}
