ghost use Rattle.std.specs.Prelude.{◌≡◌, ◌+◌, ◌*◌, ◌^◌, ◌<◌, ◌≤◌};
ghost use Rattle.ibx_bits.specs.Bytes.{bits_at};
ghost use Rattle.ibx_asm.specs.Fields.{range_of, has, scattered, twos_complement};
ghost use Rattle.ibx_asm.specs.Dis.{gathered, number_in};

use crate::operand::Signed;

/// A number among the operands, by the instructions that have it.
#[derive(Clone, Copy)]
pub(crate) enum Field {
    /// The immediates of the forms I, S, B, U and J.
    I,
    S,
    B,
    U,
    J,
    /// The amount of a shift.
    Shift,
    /// The address of a CSR.
    Csr,
    /// The number that a CSR instruction has in place of a register.
    Source,
    /// C.ADDI4SPN.
    StackAddress,
    /// C.LW and C.SW.
    ShortOffset,
    /// C.LWSP.
    StackLoad,
    /// C.SWSP.
    StackStore,
    /// C.ADDI, C.LI and C.ANDI.
    Six,
    /// C.LUI.
    Upper,
    /// C.ADDI16SP.
    StackAdjust,
    /// C.SLLI, C.SRLI and C.SRAI.
    ShortShift,
    /// C.J and C.JAL.
    ShortJump,
    /// C.BEQZ and C.BNEZ.
    ShortBranch,
    /// Data of 4, 2 and 1 bytes.
    Word,
    Half,
    Byte,
}

/// The numbers from minus `lowest` to `highest` that are multiples of `step`; 0 is one of them where `zero` is set.
#[derive(Clone, Copy)]
pub(crate) struct Range {
    lowest: u64,
    highest: u64,
    step: u64,
    zero: bool,
}

fn multiples(lowest: u64, highest: u64, step: u64, zero: bool) -> Range
    ensures { result ≡ record { lowest = lowest; highest = highest; step = step; zero = zero } }
{
    Range {
        lowest,
        highest,
        step,
        zero,
    }
}

// The numbers that a field holds.
#[tactic(auto, unfolding(crate::specs::Fields::range_of))]
fn range_of(field: Field) -> Range
    ensures value { result ≡ range_of field }
    ensures steps { 0 < result.step }
    ensures low { result.lowest ≤ 0x100000 }
{
    match field {
        Field::I | Field::S => multiples(2048, 2047, 1, true),
        Field::B => multiples(4096, 4094, 2, true),
        Field::U => multiples(0, 0xf_ffff, 1, true),
        Field::J => multiples(0x10_0000, 0xf_fffe, 2, true),
        Field::Shift | Field::Source | Field::ShortShift => multiples(0, 31, 1, true),
        Field::Csr => multiples(0, 4095, 1, true),
        Field::StackAddress => multiples(0, 1020, 4, false),
        Field::ShortOffset => multiples(0, 124, 4, true),
        Field::StackLoad | Field::StackStore => multiples(0, 252, 4, true),
        Field::Six => multiples(32, 31, 1, true),
        Field::Upper => multiples(32, 31, 1, false),
        Field::StackAdjust => multiples(512, 496, 16, false),
        Field::ShortJump => multiples(2048, 2046, 2, true),
        Field::ShortBranch => multiples(256, 254, 2, true),
        Field::Word => multiples(0, 0xffff_ffff, 1, true),
        Field::Half => multiples(0, 0xffff, 1, true),
        Field::Byte => multiples(0, 0xff, 1, true),
    }
}

/// Whether a field holds a number.
#[tactic(auto, unfolding(crate::specs::Fields::has))]
pub(crate) fn has(field: Field, number: Signed) -> bool
    ensures { result ≡ has (range_of field) number }
{
    let range = range_of(field);
    let limit = if number.minus {
        range.lowest
    } else {
        range.highest
    };
    number.size <= limit && number.size % range.step == 0 && (range.zero || number.size != 0)
}

/// A number in two's complement of 32 bits.
#[tactic(auto, unfolding(crate::specs::Fields::twos_complement))]
pub(crate) fn twos_complement(number: Signed) -> u32
    ensures { result ≡ twos_complement number }
{
    let size = number.size % 0x1_0000_0000;
    if number.minus {
        ((0x1_0000_0000 - size) % 0x1_0000_0000) as u32
    } else {
        size as u32
    }
}

/// `count` bits of a number from bit `from` on, moved to bit `to` and those above it.
#[tactic(auto, using(crate::proofs::Parts::part_is, crate::proofs::Parts::part_below))]
pub(crate) fn part(bits: u32, from: u32, count: u32, to: u32) -> u32
    requires from { from < 32 }
    requires fits { count + to ≤ 32 }
    ensures { result ≡ bits_at bits from count * 2 ^ to }
{
    let part = (u64::from(bits) >> from) % (1 << count);
    (part << to) as u32
}

/// A number's bits at their places in the instruction.
#[tactic(auto, unfolding(crate::specs::Fields::scattered, crate::specs::Fields::places_of, crate::specs::Fields::united))]
pub(crate) fn scattered(field: Field, bits: u32) -> u32
    ensures { result ≡ scattered field bits }
{
    match field {
        Field::I | Field::Csr => part(bits, 0, 12, 20),
        Field::S => part(bits, 5, 7, 25) | part(bits, 0, 5, 7),
        Field::B => {
            part(bits, 12, 1, 31)
                | (part(bits, 5, 6, 25) | (part(bits, 1, 4, 8) | part(bits, 11, 1, 7)))
        }
        Field::U => part(bits, 0, 20, 12),
        Field::J => {
            part(bits, 20, 1, 31)
                | (part(bits, 1, 10, 21) | (part(bits, 11, 1, 20) | part(bits, 12, 8, 12)))
        }
        Field::Shift => part(bits, 0, 5, 20),
        Field::Source => part(bits, 0, 5, 15),
        Field::StackAddress => {
            part(bits, 4, 2, 11)
                | (part(bits, 6, 4, 7) | (part(bits, 2, 1, 6) | part(bits, 3, 1, 5)))
        }
        Field::ShortOffset => { part(bits, 3, 3, 10) | (part(bits, 2, 1, 6) | part(bits, 6, 1, 5)) }
        Field::StackLoad => part(bits, 5, 1, 12) | (part(bits, 2, 3, 4) | part(bits, 6, 2, 2)),
        Field::StackStore => part(bits, 2, 4, 9) | part(bits, 6, 2, 7),
        Field::Six | Field::Upper => part(bits, 5, 1, 12) | part(bits, 0, 5, 2),
        Field::StackAdjust => stack_adjust(bits),
        Field::ShortShift => part(bits, 0, 5, 2),
        Field::ShortJump => short_jump(bits),
        Field::ShortBranch => short_branch(bits),
        Field::Word => bits,
        Field::Half => part(bits, 0, 16, 0),
        Field::Byte => part(bits, 0, 8, 0),
    }
}

#[tactic(auto, unfolding(crate::specs::Fields::scattered, crate::specs::Fields::places_of, crate::specs::Fields::united))]
fn stack_adjust(bits: u32) -> u32
    ensures { result ≡ scattered Field.StackAdjust bits }
{
    part(bits, 9, 1, 12)
        | (part(bits, 4, 1, 6)
            | (part(bits, 6, 1, 5) | (part(bits, 7, 2, 3) | part(bits, 5, 1, 2))))
}

#[tactic(auto, unfolding(crate::specs::Fields::scattered, crate::specs::Fields::places_of, crate::specs::Fields::united))]
fn short_jump(bits: u32) -> u32
    ensures { result ≡ scattered Field.ShortJump bits }
{
    let low = part(bits, 6, 1, 7)
        | (part(bits, 7, 1, 6) | (part(bits, 1, 3, 3) | part(bits, 5, 1, 2)));
    part(bits, 11, 1, 12)
        | (part(bits, 4, 1, 11) | (part(bits, 8, 2, 9) | (part(bits, 10, 1, 8) | low)))
}

#[tactic(auto, unfolding(crate::specs::Fields::scattered, crate::specs::Fields::places_of, crate::specs::Fields::united))]
fn short_branch(bits: u32) -> u32
    ensures { result ≡ scattered Field.ShortBranch bits }
{
    part(bits, 8, 1, 12)
        | (part(bits, 3, 2, 10)
            | (part(bits, 6, 2, 5) | (part(bits, 1, 2, 3) | part(bits, 5, 1, 2))))
}

/// A field's bits of an instruction.
#[tactic(auto, unfolding(crate::specs::Dis::gathered, crate::specs::Fields::places_of, crate::specs::Fields::united))]
pub(crate) fn gathered(field: Field, word: u32) -> u32
    ensures { result ≡ gathered field word }
{
    match field {
        Field::I | Field::Csr => part(word, 20, 12, 0),
        Field::S => part(word, 25, 7, 5) | part(word, 7, 5, 0),
        Field::B => {
            part(word, 31, 1, 12)
                | (part(word, 25, 6, 5) | (part(word, 8, 4, 1) | part(word, 7, 1, 11)))
        }
        Field::U => part(word, 12, 20, 0),
        Field::J => {
            part(word, 31, 1, 20)
                | (part(word, 21, 10, 1) | (part(word, 20, 1, 11) | part(word, 12, 8, 12)))
        }
        Field::Shift => part(word, 20, 5, 0),
        Field::Source => part(word, 15, 5, 0),
        Field::StackAddress => {
            part(word, 11, 2, 4)
                | (part(word, 7, 4, 6) | (part(word, 6, 1, 2) | part(word, 5, 1, 3)))
        }
        Field::ShortOffset => part(word, 10, 3, 3) | (part(word, 6, 1, 2) | part(word, 5, 1, 6)),
        Field::StackLoad => part(word, 12, 1, 5) | (part(word, 4, 3, 2) | part(word, 2, 2, 6)),
        Field::StackStore => part(word, 9, 4, 2) | part(word, 7, 2, 6),
        Field::Six | Field::Upper => part(word, 12, 1, 5) | part(word, 2, 5, 0),
        Field::StackAdjust => {
            part(word, 12, 1, 9)
                | (part(word, 6, 1, 4)
                    | (part(word, 5, 1, 6) | (part(word, 3, 2, 7) | part(word, 2, 1, 5))))
        }
        Field::ShortShift => part(word, 2, 5, 0),
        Field::ShortJump => gathered_jump(word),
        Field::ShortBranch => {
            part(word, 12, 1, 8)
                | (part(word, 10, 2, 3)
                    | (part(word, 5, 2, 6) | (part(word, 3, 2, 1) | part(word, 2, 1, 5))))
        }
        Field::Word => word,
        Field::Half => part(word, 0, 16, 0),
        Field::Byte => part(word, 0, 8, 0),
    }
}

#[tactic(auto, unfolding(crate::specs::Dis::gathered, crate::specs::Fields::places_of, crate::specs::Fields::united))]
fn gathered_jump(word: u32) -> u32
    ensures { result ≡ gathered Field.ShortJump word }
{
    let low = part(word, 7, 1, 6)
        | (part(word, 6, 1, 7) | (part(word, 3, 3, 1) | part(word, 2, 1, 5)));
    part(word, 12, 1, 11)
        | (part(word, 11, 1, 4) | (part(word, 9, 2, 8) | (part(word, 8, 1, 10) | low)))
}

/// The number that a field's bits stand for.
#[tactic(auto, unfolding(crate::specs::Dis::number_in))]
pub(crate) fn number_in(field: Field, bits: u32) -> Signed
    ensures value { result ≡ number_in field bits }
    ensures small { result.size < 2 ^ 32 }
{
    let range = range_of(field);
    if u64::from(bits) <= range.highest {
        Signed::plus(u64::from(bits))
    } else {
        Signed::minus((2 * range.lowest).saturating_sub(u64::from(bits)))
    }
}
