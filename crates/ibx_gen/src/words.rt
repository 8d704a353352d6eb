ghost use Rattle.ibx_bits.specs.Bytes.{bits_at};
ghost use Rattle.ibx_gen.specs.Words.{body_word};
ghost use Rattle.std.specs.Prelude.{◌<◌, ◌≡◌};

// The fixed bits of the instructions that a body has (RISC-V Unprivileged ISA, 24).
const ADDI: u32 = 0x0000_0013;

const MUL: u32 = 0x0200_0033;

const ADD: u32 = 0x0000_0033;

const LUI: u32 = 0x0000_0037;

const LW_X5: u32 = 0x0002_a003;

const SW_X5: u32 = 0x0002_a023;

const BNE_8: u32 = 0x0000_1463;

const SUB: u32 = 0x4000_0033;

// The three bits of a draw from bit `low` on.
fn three_bits(draw: u32, low: u32) -> u32
    requires { low < 32 }
    ensures value { result ≡ bits_at draw low 3 }
    ensures small { result < 8 }
{
    draw >> low & 7
}

/// The body word of a draw: its bits 2:0 choose the instruction, and the bits above registers, operation and numbers.
/// The registers are x8 to x15, and x5 has the address of the body's data.
#[tactic(auto, unfolding(crate::specs::Words::body_word))]
pub(crate) fn body_word(draw: u32) -> u32
    ensures { result ≡ body_word draw }
{
    let operation = three_bits(draw, 3) << 12;
    let result = (8 + three_bits(draw, 8)) << 7;
    let first = (8 + three_bits(draw, 11)) << 15;
    let second = (8 + three_bits(draw, 14)) << 20;
    let offset = (draw >> 20) % 0x800;
    match draw % 8 {
        0 => ADDI + result + first + (draw >> 20 << 20),
        1 => MUL + operation + result + first + second,
        2 => ADD + operation + result + first + second,
        3 => LUI + result + (draw >> 12 << 12),
        4 => LW_X5 + result + (offset << 20),
        5 => SW_X5 + second + (offset / 32 << 25) + (offset % 32 << 7),
        6 => BNE_8 + first + second,
        _ => SUB + result + first + second,
    }
}
