//! The plain checks of the two codes that are computed in each cycle, four bits of the payload at a time.
ghost use Rattle.std.specs.Prelude.{◌≡◌, ◌<◌, ◌^◌};
ghost use Rattle.ibx_secded.specs.Code.{checks, entry_of};

static TABLES_32: [[u8; 16]; 8] = [
    [0, 7, 11, 12, 13, 10, 6, 1, 14, 9, 5, 2, 3, 4, 8, 15],
    [0, 19, 21, 6, 22, 5, 3, 16, 25, 10, 12, 31, 15, 28, 26, 9],
    [0, 26, 28, 6, 35, 57, 63, 37, 37, 63, 57, 35, 6, 28, 26, 0],
    [0, 38, 41, 15, 42, 12, 3, 37, 44, 10, 5, 35, 6, 32, 47, 9],
    [0, 49, 50, 3, 52, 5, 6, 55, 56, 9, 10, 59, 12, 61, 62, 15],
    [0, 67, 69, 6, 70, 5, 3, 64, 73, 10, 12, 79, 15, 76, 74, 9],
    [0, 74, 76, 6, 81, 27, 29, 87, 82, 24, 30, 84, 3, 73, 79, 5],
    [
        0, 84, 88, 12, 97, 53, 57, 109, 98, 54, 58, 110, 3, 87, 91, 15,
    ],
];

static TABLES_22: [[u8; 16]; 6] = [
    [0, 7, 11, 12, 13, 10, 6, 1, 14, 9, 5, 2, 3, 4, 8, 15],
    [0, 19, 21, 6, 22, 5, 3, 16, 25, 10, 12, 31, 15, 28, 26, 9],
    [0, 26, 28, 6, 35, 57, 63, 37, 37, 63, 57, 35, 6, 28, 26, 0],
    [0, 38, 41, 15, 42, 12, 3, 37, 44, 10, 5, 35, 6, 32, 47, 9],
    [0, 49, 50, 3, 52, 5, 6, 55, 56, 9, 10, 59, 12, 61, 62, 15],
    [0, 31, 47, 48, 0, 31, 47, 48, 0, 31, 47, 48, 0, 31, 47, 48],
];

// Entry `four` of table `place` of `Code<32, 7>`.
fn entry_32(place: usize, four: usize) -> u64
    requires place { place < 8 }
    requires four { four < 16 }
    ensures { result ≡ entry_of 32 7 place four }
{
    TABLES_32[place][four] as u64
}

// Entry `four` of table `place` of `Code<22, 6>`. Bits 22 and 23 have no column.
fn entry_22(place: usize, four: usize) -> u64
    requires place { place < 6 }
    requires four { four < 16 }
    ensures { result ≡ entry_of 22 6 place four }
{
    TABLES_22[place][four] as u64
}

/// The plain check of `Code<32, 7>`.
#[tactic(auto, using(crate::proofs::Fours::fours))]
pub(crate) fn check_32(value: u64) -> u64
    requires { value < 2 ^ 32 }
    ensures value { result ≡ checks 7 32 value }
    ensures fits { result < 2 ^ 7 }
{
    let mut check = 0;
    for place in 0..8 {
        check ^= entry_32(place, (value >> (4 * place)) as usize % 16);
    }
    check
}

/// The plain check of `Code<22, 6>`.
#[tactic(auto, using(crate::proofs::Fours::fours))]
pub(crate) fn check_22(value: u64) -> u64
    requires { value < 2 ^ 22 }
    ensures value { result ≡ checks 6 22 value }
    ensures fits { result < 2 ^ 6 }
{
    let mut check = 0;
    for place in 0..6 {
        check ^= entry_22(place, (value >> (4 * place)) as usize % 16);
    }
    check
}
