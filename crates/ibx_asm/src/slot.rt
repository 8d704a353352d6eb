ghost use Rattle.std.specs.Prelude.{◌≡◌, ◌*◌, ◌^◌, ◌<◌, ◌≤◌, ◌∷◌, [], is_some};
ghost use Rattle.ibx_asm.specs.Forms.{slots_of};
ghost use Rattle.ibx_asm.specs.Held.{mask_of, exceptions_of};
ghost use Rattle.ibx_asm.specs.Operands.{low_of, offset_of, fits, value_of, holds, bits_of};
ghost use Rattle.std.specs.Str.{bytes_eq};

use crate::fields::{Field, has, scattered, twos_complement};
use crate::labels::Labels;
use crate::operand::{Signed, difference, is_name, register, signed_number};

/// Where an instruction has a register's number.
#[derive(Clone, Copy)]
pub(crate) enum Place {
    /// From bit 7 on: bits 11:7, and 9:7 of a short register.
    Rd,
    /// Bits 19:15.
    Rs1,
    /// Bits 24:20.
    Rs2,
    /// From bit 2 on: bits 6:2 of a halfword, and 4:2 of a short register.
    ShortRs2,
}

/// What stands at one place among the operands of a line.
#[derive(Clone, Copy)]
pub(crate) enum Slot {
    /// `,`, `(` and `)`.
    Comma,
    Opening,
    Closing,
    /// A register, whose number has five bits.
    Register(Place),
    /// The same of any register but the one with this number.
    RegisterBut(Place, u8),
    /// A register x8 to x15, whose number minus 8 has three bits.
    ShortRegister(Place),
    /// A number.
    Number(Field),
    /// The offset of a target from the instruction, or its label.
    Target(Field),
}

/// The operands of an instruction or directive.
#[derive(Clone, Copy)]
pub(crate) enum Form {
    /// None, of 4 and of 2 bytes.
    Bare,
    ShortBare,
    /// None, beside fields that the decoder ignores: FENCE and FENCE.I.
    Fence,
    /// LUI and AUIPC.
    Upper,
    /// JAL.
    Jump,
    /// JALR and loads.
    Load,
    /// Stores.
    Store,
    /// Branches.
    Branch,
    /// A register and an immediate.
    Immediate,
    /// A register and the amount of a shift.
    Shift,
    /// Two registers.
    Registers,
    /// A CSR and a register.
    Csr,
    /// A CSR and a number.
    CsrNumber,
    /// C.ADDI4SPN.
    StackAddress,
    /// C.LW and C.SW.
    ShortAccess,
    /// C.ADDI and C.LI.
    Six,
    /// C.LUI.
    ShortUpper,
    /// C.SLLI.
    WideShift,
    /// C.LWSP.
    StackLoad,
    /// C.SWSP.
    StackStore,
    /// C.SRLI and C.SRAI.
    HighShift,
    /// C.ANDI.
    HighSix,
    /// C.SUB, C.XOR, C.OR and C.AND.
    HighLow,
    /// C.BEQZ and C.BNEZ.
    ShortBranch,
    /// C.JAL and C.J.
    ShortJump,
    /// C.ADDI16SP.
    StackAdjust,
    /// C.JR and C.JALR.
    JumpRegister,
    /// C.MV and C.ADD.
    Pair,
    /// Data of 4, 2 and 1 bytes.
    Word,
    Half,
    Byte,
}

const COMMA: Slot = Slot::Comma;

const OPENING: Slot = Slot::Opening;

const CLOSING: Slot = Slot::Closing;

// Registers of a 32-bit instruction.
const RD: Slot = Slot::Register(Place::Rd);

const RS1: Slot = Slot::Register(Place::Rs1);

const RS2: Slot = Slot::Register(Place::Rs2);

// Registers of a compressed instruction.
const SOURCE: Slot = Slot::Register(Place::ShortRs2);

const HIGH: Slot = Slot::ShortRegister(Place::Rd);

const LOW: Slot = Slot::ShortRegister(Place::ShortRs2);

const NOT_ZERO: Slot = Slot::RegisterBut(Place::Rd, 0);

/// The operands of a form, in the order in which they are written.
#[tactic(auto, unfolding(crate::specs::Forms::slots_of))]
pub(crate) fn slots_of(form: Form) -> &'static [Slot]
    ensures { result.now ≡ slots_of form }
{
    match form {
        Form::Bare | Form::ShortBare | Form::Fence => &[],
        Form::Upper => &[RD, COMMA, Slot::Number(Field::U)],
        Form::Jump => &[RD, COMMA, Slot::Target(Field::J)],
        Form::Load => &[RD, COMMA, Slot::Number(Field::I), OPENING, RS1, CLOSING],
        Form::Store => &[RS2, COMMA, Slot::Number(Field::S), OPENING, RS1, CLOSING],
        Form::Branch => &[RS1, COMMA, RS2, COMMA, Slot::Target(Field::B)],
        Form::Immediate => &[RD, COMMA, RS1, COMMA, Slot::Number(Field::I)],
        Form::Shift => &[RD, COMMA, RS1, COMMA, Slot::Number(Field::Shift)],
        Form::Registers => &[RD, COMMA, RS1, COMMA, RS2],
        Form::Csr => &[RD, COMMA, Slot::Number(Field::Csr), COMMA, RS1],
        Form::CsrNumber => &[
            RD,
            COMMA,
            Slot::Number(Field::Csr),
            COMMA,
            Slot::Number(Field::Source),
        ],
        Form::StackAddress => &[LOW, COMMA, Slot::Number(Field::StackAddress)],
        Form::ShortAccess => &[
            LOW,
            COMMA,
            Slot::Number(Field::ShortOffset),
            OPENING,
            HIGH,
            CLOSING,
        ],
        Form::Six => &[RD, COMMA, Slot::Number(Field::Six)],
        Form::ShortUpper => &[
            Slot::RegisterBut(Place::Rd, 2),
            COMMA,
            Slot::Number(Field::Upper),
        ],
        Form::WideShift => &[RD, COMMA, Slot::Number(Field::ShortShift)],
        Form::StackLoad => &[NOT_ZERO, COMMA, Slot::Number(Field::StackLoad)],
        Form::StackStore => &[SOURCE, COMMA, Slot::Number(Field::StackStore)],
        Form::HighShift => &[HIGH, COMMA, Slot::Number(Field::ShortShift)],
        Form::HighSix => &[HIGH, COMMA, Slot::Number(Field::Six)],
        Form::HighLow => &[HIGH, COMMA, LOW],
        Form::ShortBranch => &[HIGH, COMMA, Slot::Target(Field::ShortBranch)],
        Form::ShortJump => &[Slot::Target(Field::ShortJump)],
        Form::StackAdjust => &[Slot::Number(Field::StackAdjust)],
        Form::JumpRegister => &[NOT_ZERO],
        Form::Pair => &[RD, COMMA, Slot::RegisterBut(Place::ShortRs2, 0)],
        Form::Word => &[Slot::Number(Field::Word)],
        Form::Half => &[Slot::Number(Field::Half)],
        Form::Byte => &[Slot::Number(Field::Byte)],
    }
}

impl Place {
    /// The lowest bit.
    #[tactic(auto, unfolding(crate::specs::Operands::low_of))]
    pub(crate) fn low(self) -> u32
        ensures value { result ≡ low_of self }
        ensures small { result ≤ 20 }
    {
        match self {
            Place::Rd => 7,
            Place::Rs1 => 15,
            Place::Rs2 => 20,
            Place::ShortRs2 => 2,
        }
    }
}

/// The bits that tell a form's instructions from all others.
#[tactic(auto, unfolding(crate::specs::Held::mask_of))]
pub(crate) fn mask_of(form: Form) -> u32
    ensures { result ≡ mask_of form }
{
    match form {
        Form::Upper | Form::Jump => 0x7f,
        Form::Load | Form::Store | Form::Branch | Form::Immediate => 0x707f,
        Form::Csr | Form::CsrNumber | Form::Fence => 0x707f,
        Form::Shift | Form::Registers => 0xfe00_707f,
        Form::StackAddress | Form::ShortAccess | Form::Six | Form::ShortUpper => 0xe003,
        Form::StackLoad | Form::StackStore | Form::ShortBranch | Form::ShortJump => 0xe003,
        Form::StackAdjust => 0xef83,
        Form::HighShift => 0xfc03,
        Form::HighSix => 0xec03,
        Form::HighLow => 0xfc63,
        Form::WideShift | Form::Pair => 0xf003,
        Form::JumpRegister => 0xf07f,
        Form::ShortBare => 0xffff,
        Form::Bare | Form::Word | Form::Half | Form::Byte => 0xffff_ffff,
    }
}

/// What an instruction of a form mustn't be, as masks and matches.
#[tactic(auto, unfolding(crate::specs::Held::exceptions_of))]
pub(crate) fn exceptions_of(form: Form) -> &'static [(u32, u32)]
    ensures { result.now ≡ exceptions_of form }
{
    match form {
        Form::StackAddress => &[(0x1fe0, 0)],
        Form::StackAdjust => &[(0x107c, 0)],
        Form::ShortUpper => &[(0x0f80, 0x0100), (0x107c, 0)],
        Form::StackLoad | Form::JumpRegister => &[(0x0f80, 0)],
        Form::Pair => &[(0x007c, 0)],
        _ => &[],
    }
}

// A register's number at its place.
#[tactic(auto, unfolding(crate::specs::Operands::low_of))]
fn at(place: Place, number: u64) -> u32
    requires { number < 32 }
    ensures { result ≡ number * 2 ^ low_of place }
{
    let scale = match place {
        Place::Rd => 0x80,
        Place::Rs1 => 0x8000,
        Place::Rs2 => 0x10_0000,
        Place::ShortRs2 => 4,
    };
    number as u32 * scale
}

// Whether a token is this mark.
fn is_mark(token: &[u8], mark: u8) -> bool
    ensures { result ≡ bytes_eq token.now (mark ∷ []) }
{
    match token {
        [byte] => *byte == mark,
        _ => false,
    }
}

impl Slot {
    /// Whether a token may stand here, whatever its value.
    #[tactic(auto, unfolding(crate::specs::Operands::fits))]
    pub(crate) fn fits(self, token: &[u8]) -> bool
        ensures { result ≡ fits self token.now }
    {
        match self {
            Slot::Comma => is_mark(token, b','),
            Slot::Opening => is_mark(token, b'('),
            Slot::Closing => is_mark(token, b')'),
            Slot::Register(_) | Slot::RegisterBut(_, _) | Slot::ShortRegister(_) => {
                register(token).is_some()
            }
            Slot::Number(_) => signed_number(token).is_some(),
            Slot::Target(_) => signed_number(token).is_some() || is_name(token),
        }
    }

    /// The value of a token that fits, in a line at this byte address; none of a label that is nowhere defined.
    #[tactic(auto, unfolding(crate::specs::Operands::value_of))]
    pub(crate) fn value(self, token: &[u8], labels: &Labels, address: u64) -> Option<Signed>
        ensures { result ≡ value_of labels.now address self token.now }
    {
        match self {
            Slot::Comma | Slot::Opening | Slot::Closing => Some(Signed::plus(0)),
            Slot::Register(_) | Slot::RegisterBut(_, _) | Slot::ShortRegister(_) => {
                register(token).map(Signed::plus)
            }
            Slot::Number(_) => signed_number(token),
            Slot::Target(_) => target(token, labels, address),
        }
    }

    /// Whether this can hold a value.
    #[tactic(auto, unfolding(crate::specs::Operands::holds))]
    pub(crate) fn holds(self, value: Signed) -> bool
        ensures { result ≡ holds self value }
    {
        match self {
            Slot::Comma | Slot::Opening | Slot::Closing | Slot::Register(_) => true,
            Slot::RegisterBut(_, but) => value.size != u64::from(but),
            Slot::ShortRegister(_) => 8 <= value.size && value.size <= 15,
            Slot::Number(field) | Slot::Target(field) => has(field, value),
        }
    }

    /// The bits that a value gives to the instruction.
    #[tactic(auto, unfolding(crate::specs::Operands::bits_of))]
    pub(crate) fn bits(self, value: Signed) -> u32
        ensures { result ≡ bits_of self value }
    {
        match self {
            Slot::Comma | Slot::Opening | Slot::Closing => 0,
            Slot::Register(place) | Slot::RegisterBut(place, _) => at(place, value.size % 32),
            Slot::ShortRegister(place) => at(place, value.size % 8),
            Slot::Number(field) | Slot::Target(field) => scattered(field, twos_complement(value)),
        }
    }
}

// The offset of a target from an instruction at this address.
fn target(token: &[u8], labels: &Labels, address: u64) -> Option<Signed>
    ensures { result ≡ offset_of labels.now address token.now }
{
    if let Some(offset) = signed_number(token) {
        return Some(offset);
    }
    let label = labels.find(token)?;
    Some(difference(label.address, address))
}
