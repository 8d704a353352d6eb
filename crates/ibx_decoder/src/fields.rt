ghost use Rattle.std.specs.Prelude.{◌≡◌, ◌/◌, ◌^◌, ◌<◌, ◌≤◌, ◌-◌};
ghost use Rattle.ibx_bits.specs.Bytes.{bits_at, sign_extended};
ghost use Rattle.ibx_decoder.specs.Rows.{imm_i, imm_s, imm_b, imm_u, imm_j};

/// `count` bits of a word from bit `low` on.
#[tactic(auto, using(crate::proofs::LowBits::low_bits))]
pub fn bits(word: u32, low: u32, count: u32) -> u32
    requires low { low < 32 }
    requires count { count < 32 }
    ensures value { result ≡ bits_at word low count }
    ensures small { result < 2 ^ count }
{
    (word >> low) & ((1 << count) - 1)
}

/// The register number in the five bits from bit `low` on.
pub fn register(word: u32, low: u32) -> u8
    requires { low < 32 }
    ensures { result ≡ bits_at word low 5 }
{
    bits(word, low, 5) as u8
}

// Sign-extends a two's complement number of `count` bits to 32.
#[tactic(auto, using(std::proofs::lemmas::Nat::one_shl, std::proofs::lemmas::Nat::pow_pos))]
fn extend(count: u32, value: u32) -> u32
    requires least { 1 ≤ count }
    requires most { count < 32 }
    requires fits { value < 2 ^ count }
    ensures { result ≡ sign_extended count value }
{
    if value < 1 << (count - 1) {
        value
    } else {
        value + (u32::MAX - ((1 << count) - 1))
    }
}

/// The immediate of the form I (RISC-V Unprivileged ISA, 2.3).
pub fn immediate_i(word: u32) -> u32
    ensures { result ≡ imm_i word }
{
    extend(12, word >> 20)
}

/// The immediate of the form S.
pub fn immediate_s(word: u32) -> u32
    ensures { result ≡ imm_s word }
{
    extend(12, (word >> 25) * 32 + bits(word, 7, 5))
}

/// The immediate of the form B, a byte offset.
pub fn immediate_b(word: u32) -> u32
    ensures { result ≡ imm_b word }
{
    extend(
        13,
        (word >> 31) * 4096
            + bits(word, 7, 1) * 2048
            + bits(word, 25, 6) * 32
            + bits(word, 8, 4) * 2,
    )
}

/// The immediate of the form U, already shifted.
pub fn immediate_u(word: u32) -> u32
    ensures { result ≡ imm_u word }
{
    word & 0xffff_f000
}

/// The immediate of the form J, a byte offset.
pub fn immediate_j(word: u32) -> u32
    ensures { result ≡ imm_j word }
{
    extend(
        21,
        (word >> 31) * 1_048_576
            + bits(word, 12, 8) * 4096
            + bits(word, 20, 1) * 2048
            + bits(word, 21, 10) * 2,
    )
}
