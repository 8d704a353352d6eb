ghost use Rattle.std.specs.Prelude.{◌≡◌, ◌^◌, ◌<◌};
ghost use Rattle.ibx_decoder.specs.Compressed.{i_word as i_word_of, s_word as s_word_of, b_word as b_word_of};
ghost use Rattle.ibx_decoder.specs.Compressed.{u_word as u_word_of, j_word as j_word_of, r_word as r_word_of};

/// The opcodes of the expansions (RISC-V Unprivileged ISA, 24).
pub const LOAD: u32 = 0x03;

pub const OP_IMM: u32 = 0x13;

pub const STORE: u32 = 0x23;

pub const OP: u32 = 0x33;

pub const LUI: u32 = 0x37;

pub const BRANCH: u32 = 0x63;

pub const JALR: u32 = 0x67;

pub const JAL: u32 = 0x6f;

/// A word of the form I (2.2). A negative immediate is in two's complement, here and below.
pub fn i_word(imm: u32, rs1: u32, funct3: u32, rd: u32, opcode: u32) -> u32
    requires imm { imm < 2 ^ 12 }
    requires rs1 { rs1 < 32 }
    requires funct3 { funct3 < 8 }
    requires rd { rd < 32 }
    requires opcode { opcode < 128 }
    ensures { result ≡ i_word_of imm rs1 funct3 rd opcode }
{
    imm * 0x10_0000 + rs1 * 0x8000 + funct3 * 0x1000 + rd * 0x80 + opcode
}

/// A word of the form R.
pub fn r_word(funct7: u32, rs2: u32, rs1: u32, funct3: u32, rd: u32, opcode: u32) -> u32
    requires funct7 { funct7 < 128 }
    requires rs2 { rs2 < 32 }
    requires rs1 { rs1 < 32 }
    requires funct3 { funct3 < 8 }
    requires rd { rd < 32 }
    requires opcode { opcode < 128 }
    ensures { result ≡ r_word_of funct7 rs2 rs1 funct3 rd opcode }
{
    i_word(funct7 * 0x20 + rs2, rs1, funct3, rd, opcode)
}

/// A word of the form S.
pub fn s_word(imm: u32, rs2: u32, rs1: u32, funct3: u32, opcode: u32) -> u32
    requires imm { imm < 2 ^ 12 }
    requires rs2 { rs2 < 32 }
    requires rs1 { rs1 < 32 }
    requires funct3 { funct3 < 8 }
    requires opcode { opcode < 128 }
    ensures { result ≡ s_word_of imm rs2 rs1 funct3 opcode }
{
    imm / 0x20 * 0x200_0000
        + rs2 * 0x10_0000
        + rs1 * 0x8000
        + funct3 * 0x1000
        + imm % 0x20 * 0x80
        + opcode
}

/// A word of the form B.
pub fn b_word(imm: u32, rs2: u32, rs1: u32, funct3: u32, opcode: u32) -> u32
    requires imm { imm < 2 ^ 13 }
    requires rs2 { rs2 < 32 }
    requires rs1 { rs1 < 32 }
    requires funct3 { funct3 < 8 }
    requires opcode { opcode < 128 }
    ensures { result ≡ b_word_of imm rs2 rs1 funct3 opcode }
{
    imm / 0x1000 * 0x8000_0000
        + imm / 0x20 % 0x40 * 0x200_0000
        + rs2 * 0x10_0000
        + rs1 * 0x8000
        + funct3 * 0x1000
        + imm / 2 % 0x10 * 0x100
        + imm / 0x800 % 2 * 0x80
        + opcode
}

/// A word of the form U.
pub fn u_word(upper: u32, rd: u32, opcode: u32) -> u32
    requires upper { upper < 2 ^ 20 }
    requires rd { rd < 32 }
    requires opcode { opcode < 128 }
    ensures { result ≡ u_word_of upper rd opcode }
{
    upper * 0x1000 + rd * 0x80 + opcode
}

/// A word of the form J.
pub fn j_word(imm: u32, rd: u32, opcode: u32) -> u32
    requires imm { imm < 2 ^ 21 }
    requires rd { rd < 32 }
    requires opcode { opcode < 128 }
    ensures { result ≡ j_word_of imm rd opcode }
{
    imm / 0x10_0000 * 0x8000_0000
        + imm / 2 % 0x400 * 0x20_0000
        + imm / 0x800 % 2 * 0x10_0000
        + imm / 0x1000 % 0x100 * 0x1000
        + rd * 0x80
        + opcode
}
