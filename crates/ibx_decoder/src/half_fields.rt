ghost use Rattle.std.specs.Prelude.{◌≡◌, ◌^◌, ◌<◌};
ghost use Rattle.ibx_bits.specs.Bytes.{bits_at};
ghost use Rattle.ibx_decoder.specs.Compressed.{wide_rd as wide_rd_of, wide_rs2 as wide_rs2_of};
ghost use Rattle.ibx_decoder.specs.Compressed.{high_reg as high_reg_of, low_reg as low_reg_of, imm_addi4spn, imm_lw};
ghost use Rattle.ibx_decoder.specs.Compressed.{imm_lwsp, imm_swsp, imm_six, imm_lui, imm_addi16sp, imm_jump};
ghost use Rattle.ibx_decoder.specs.Compressed.{imm_branch};

use crate::fields;

/// `count` bits of a halfword from bit `low` on.
pub fn bits(half: u16, low: u32, count: u32) -> u32
    requires low { low < 16 }
    requires count { count < 16 }
    ensures value { result ≡ bits_at half low count }
    ensures small { result < 2 ^ count }
{
    fields::bits(half as u32, low, count)
}

/// The register in bits 11:7.
pub fn wide_rd(half: u16) -> u32
    ensures value { result ≡ wide_rd_of half }
    ensures small { result < 32 }
{
    bits(half, 7, 5)
}

/// The register in bits 6:2.
pub fn wide_rs2(half: u16) -> u32
    ensures value { result ≡ wide_rs2_of half }
    ensures small { result < 32 }
{
    bits(half, 2, 5)
}

/// The register x8 to x15 in bits 9:7.
pub fn high_reg(half: u16) -> u32
    ensures value { result ≡ high_reg_of half }
    ensures small { result < 32 }
{
    8 + bits(half, 7, 3)
}

/// The register x8 to x15 in bits 4:2.
pub fn low_reg(half: u16) -> u32
    ensures value { result ≡ low_reg_of half }
    ensures small { result < 32 }
{
    8 + bits(half, 2, 3)
}

/// The immediate of C.ADDI4SPN (RISC-V Unprivileged ISA, 16.5).
pub fn immediate_addi4spn(half: u16) -> u32
    ensures value { result ≡ imm_addi4spn half }
    ensures small { result < 2 ^ 12 }
{
    bits(half, 7, 4) * 0x40 + bits(half, 11, 2) * 0x10 + bits(half, 5, 1) * 8 + bits(half, 6, 1) * 4
}

/// The byte offset of C.LW and C.SW (16.3).
pub fn immediate_lw(half: u16) -> u32
    ensures value { result ≡ imm_lw half }
    ensures small { result < 2 ^ 12 }
{
    bits(half, 5, 1) * 0x40 + bits(half, 10, 3) * 8 + bits(half, 6, 1) * 4
}

/// The byte offset of C.LWSP (16.3).
pub fn immediate_lwsp(half: u16) -> u32
    ensures value { result ≡ imm_lwsp half }
    ensures small { result < 2 ^ 12 }
{
    bits(half, 2, 2) * 0x40 + bits(half, 12, 1) * 0x20 + bits(half, 4, 3) * 4
}

/// The byte offset of C.SWSP (16.3).
pub fn immediate_swsp(half: u16) -> u32
    ensures value { result ≡ imm_swsp half }
    ensures small { result < 2 ^ 12 }
{
    bits(half, 7, 2) * 0x40 + bits(half, 9, 4) * 4
}

/// The signed number of six bits, as an I immediate of 12 bits (16.5).
pub fn immediate_six(half: u16) -> u32
    ensures value { result ≡ imm_six half }
    ensures small { result < 2 ^ 12 }
{
    bits(half, 12, 1) * 0xfe0 + bits(half, 2, 5)
}

/// The signed number of six bits, as the upper 20 bits of C.LUI (16.5).
pub fn immediate_lui(half: u16) -> u32
    ensures value { result ≡ imm_lui half }
    ensures small { result < 2 ^ 20 }
{
    bits(half, 12, 1) * 0xf_ffe0 + bits(half, 2, 5)
}

/// The signed multiple of 16 of C.ADDI16SP, as an I immediate of 12 bits (16.5).
pub fn immediate_addi16sp(half: u16) -> u32
    ensures value { result ≡ imm_addi16sp half }
    ensures small { result < 2 ^ 12 }
{
    bits(half, 12, 1) * 0xe00
        + bits(half, 3, 2) * 0x80
        + bits(half, 5, 1) * 0x40
        + bits(half, 2, 1) * 0x20
        + bits(half, 6, 1) * 0x10
}

/// The signed byte offset of C.JAL and C.J, as a J immediate of 21 bits (16.4).
pub fn immediate_jump(half: u16) -> u32
    ensures value { result ≡ imm_jump half }
    ensures small { result < 2 ^ 21 }
{
    bits(half, 12, 1) * 0x1f_f800
        + bits(half, 8, 1) * 0x400
        + bits(half, 9, 2) * 0x100
        + bits(half, 6, 1) * 0x80
        + bits(half, 7, 1) * 0x40
        + bits(half, 2, 1) * 0x20
        + bits(half, 11, 1) * 0x10
        + bits(half, 3, 3) * 2
}

/// The signed byte offset of C.BEQZ and C.BNEZ, as a B immediate of 13 bits (16.4).
pub fn immediate_branch(half: u16) -> u32
    ensures value { result ≡ imm_branch half }
    ensures small { result < 2 ^ 13 }
{
    bits(half, 12, 1) * 0x1f00
        + bits(half, 5, 2) * 0x40
        + bits(half, 2, 1) * 0x20
        + bits(half, 10, 2) * 8
        + bits(half, 3, 2) * 2
}
