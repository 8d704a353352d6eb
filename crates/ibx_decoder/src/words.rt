ghost use Rattle.std.specs.Prelude.{◌≡◌, ◌/◌, ◌%◌, bit_and, Some, None, IfSome, OnSome};
ghost use Rattle.ibx_isa.specs.WellFormed.{IsWellFormed};
ghost use Rattle.ibx_decoder.specs.Rows.{decode_of, rows};
ghost use Rattle.ibx_decoder.specs.Table.{IsRow};

use crate::fields::{immediate_b, immediate_i, immediate_j, immediate_s, immediate_u, register};
use ibx_isa::{AluOp, BranchOp, CsrOp, Insn, LoadOp, MdOp};

/// The instruction that a 32-bit word stands for (RISC-V Unprivileged ISA, 24; Privileged ISA, 3.3). None where it
/// is no instruction of RV32IM, Zicsr or Zifencei, nor MRET or WFI: at most one row of the table fits a word, and
/// the word is none exactly where no row fits.
pub fn decode(word: u32) -> Option<Insn>
    ensures value { result ≡ decode_of word }
    ensures row { IsRow word rows result }
    ensures sound { IfSome result IsWellFormed }
    ensures long { OnSome result (word % 4 ≡ 3) }
{
    decoded(word)
}

// By the opcode, bits 6:0.
#[tactic(auto, using(crate::proofs::ByFields::lui_rows, crate::proofs::ByFields::auipc_rows, crate::proofs::ByFields::jal_rows, crate::proofs::ByFields::no_rows))]
fn decoded(word: u32) -> Option<Insn>
    ensures { result ≡ decode_of word }
{
    match word & 0x7f {
        0x37 => Some(Insn::Lui {
            rd: register(word, 7),
            imm: immediate_u(word),
        }),
        0x17 => Some(Insn::Auipc {
            rd: register(word, 7),
            imm: immediate_u(word),
        }),
        0x6f => Some(Insn::Jal {
            rd: register(word, 7),
            imm: immediate_j(word),
        }),
        0x67 => jalr(word),
        0x63 => branch(word),
        0x03 => load(word),
        0x23 => store(word),
        0x13 => op_imm(word),
        0x33 => op(word),
        0x0f => fence(word),
        0x73 => system(word),
        _ => None,
    }
}

// BEQ, BNE, BLT, BGE, BLTU, BGEU.
#[tactic(auto, using(crate::proofs::ByFields::branch_rows))]
fn branch(word: u32) -> Option<Insn>
    requires { bit_and word 127 ≡ 99 }
    ensures { result ≡ decode_of word }
{
    let op = match (word >> 12) & 7 {
        0 => BranchOp::Eq,
        1 => BranchOp::Ne,
        4 => BranchOp::Lt,
        5 => BranchOp::Ge,
        6 => BranchOp::Ltu,
        7 => BranchOp::Geu,
        _ => return None,
    };
    Some(Insn::Branch {
        op,
        rs1: register(word, 15),
        rs2: register(word, 20),
        imm: immediate_b(word),
    })
}

// LB, LH, LW, LBU, LHU.
#[tactic(auto, using(crate::proofs::ByFields::load_rows))]
fn load(word: u32) -> Option<Insn>
    requires { bit_and word 127 ≡ 3 }
    ensures { result ≡ decode_of word }
{
    let op = match (word >> 12) & 7 {
        0 => LoadOp::Lb,
        1 => LoadOp::Lh,
        2 => LoadOp::Lw,
        4 => LoadOp::Lbu,
        5 => LoadOp::Lhu,
        _ => return None,
    };
    Some(Insn::Load {
        op,
        rd: register(word, 7),
        rs1: register(word, 15),
        imm: immediate_i(word),
    })
}

// SB, SH, SW.
#[tactic(auto, using(crate::proofs::ByFields::store_rows))]
fn store(word: u32) -> Option<Insn>
    requires { bit_and word 127 ≡ 35 }
    ensures { result ≡ decode_of word }
{
    let size = match (word >> 12) & 7 {
        0 => 1,
        1 => 2,
        2 => 4,
        _ => return None,
    };
    Some(Insn::Store {
        size,
        rs1: register(word, 15),
        rs2: register(word, 20),
        imm: immediate_s(word),
    })
}

// ADDI to SRAI.
#[tactic(auto, using(crate::proofs::ByFields::op_imm_rows))]
fn op_imm(word: u32) -> Option<Insn>
    requires { bit_and word 127 ≡ 19 }
    ensures { result ≡ decode_of word }
{
    let rd = register(word, 7);
    let rs1 = register(word, 15);
    let shift = register(word, 20) as u32;
    let (op, imm) = match ((word >> 12) & 7, word >> 25) {
        (0, _) => (AluOp::Add, immediate_i(word)),
        (1, 0) => (AluOp::Sll, shift),
        (2, _) => (AluOp::Slt, immediate_i(word)),
        (3, _) => (AluOp::Sltu, immediate_i(word)),
        (4, _) => (AluOp::Xor, immediate_i(word)),
        (5, 0) => (AluOp::Srl, shift),
        (5, 32) => (AluOp::Sra, shift),
        (6, _) => (AluOp::Or, immediate_i(word)),
        (7, _) => (AluOp::And, immediate_i(word)),
        _ => return None,
    };
    Some(Insn::AluImm { op, rd, rs1, imm })
}

// ADD to AND, and MUL to REMU.
#[tactic(auto, using(crate::proofs::ByFields::op_rows))]
fn op(word: u32) -> Option<Insn>
    requires { bit_and word 127 ≡ 51 }
    ensures { result ≡ decode_of word }
{
    let rd = register(word, 7);
    let rs1 = register(word, 15);
    let rs2 = register(word, 20);
    let alu = |op| Some(Insn::Alu { op, rd, rs1, rs2 });
    let md = |op| Some(Insn::MulDiv { op, rd, rs1, rs2 });
    match ((word >> 12) & 7, word >> 25) {
        (0, 0) => alu(AluOp::Add),
        (0, 32) => alu(AluOp::Sub),
        (1, 0) => alu(AluOp::Sll),
        (2, 0) => alu(AluOp::Slt),
        (3, 0) => alu(AluOp::Sltu),
        (4, 0) => alu(AluOp::Xor),
        (5, 0) => alu(AluOp::Srl),
        (5, 32) => alu(AluOp::Sra),
        (6, 0) => alu(AluOp::Or),
        (7, 0) => alu(AluOp::And),
        (0, 1) => md(MdOp::Mul),
        (1, 1) => md(MdOp::Mulh),
        (2, 1) => md(MdOp::Mulhsu),
        (3, 1) => md(MdOp::Mulhu),
        (4, 1) => md(MdOp::Div),
        (5, 1) => md(MdOp::Divu),
        (6, 1) => md(MdOp::Rem),
        (7, 1) => md(MdOp::Remu),
        _ => None,
    }
}

// FENCE and FENCE.I, whose other fields are ignored.
#[tactic(auto, using(crate::proofs::ByFields::fence_rows))]
fn fence(word: u32) -> Option<Insn>
    requires { bit_and word 127 ≡ 15 }
    ensures { result ≡ decode_of word }
{
    match (word >> 12) & 7 {
        0 => Some(Insn::Fence),
        1 => Some(Insn::FenceI),
        _ => None,
    }
}

// The CSR instructions, and those without operands.
#[tactic(auto, using(crate::proofs::ByFields::system_rows))]
fn system(word: u32) -> Option<Insn>
    requires { bit_and word 127 ≡ 115 }
    ensures { result ≡ decode_of word }
{
    let (op, imm) = match (word >> 12) & 7 {
        0 => return environment(word),
        1 => (CsrOp::Write, false),
        2 => (CsrOp::Set, false),
        3 => (CsrOp::Clear, false),
        5 => (CsrOp::Write, true),
        6 => (CsrOp::Set, true),
        7 => (CsrOp::Clear, true),
        _ => return None,
    };
    Some(Insn::Csr {
        op,
        rd: register(word, 7),
        src: register(word, 15),
        imm,
        addr: (word >> 20) as u16,
    })
}

// ECALL, EBREAK, MRET, WFI.
#[tactic(auto, using(crate::proofs::ByFields::system_rows))]
fn environment(word: u32) -> Option<Insn>
    requires low { bit_and word 127 ≡ 115 }
    requires middle { bit_and (word / 4096) 7 ≡ 0 }
    ensures { result ≡ decode_of word }
{
    match word {
        0x73 => Some(Insn::Ecall),
        0x0010_0073 => Some(Insn::Ebreak),
        0x3020_0073 => Some(Insn::Mret),
        0x1050_0073 => Some(Insn::Wfi),
        _ => None,
    }
}

// JALR.
#[tactic(auto, using(crate::proofs::ByFields::jalr_rows))]
fn jalr(word: u32) -> Option<Insn>
    requires { bit_and word 127 ≡ 103 }
    ensures { result ≡ decode_of word }
{
    if (word >> 12) & 7 != 0 {
        return None;
    }
    Some(Insn::Jalr {
        rd: register(word, 7),
        rs1: register(word, 15),
        imm: immediate_i(word),
    })
}
