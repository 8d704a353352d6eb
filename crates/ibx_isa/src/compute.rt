ghost use Rattle.std.specs.Prelude.{◌≡◌};
ghost use Rattle.ibx_isa.specs.Alu.{alu_of, branch_of};

use crate::insn::{AluOp, BranchOp};

/// The result of an integer computation on two words (RISC-V Unprivileged ISA, 2.4). A shift uses the low five
/// bits of `b`, and a comparison gives 1 or 0.
#[tactic(auto, unfolding(crate::specs::Alu::alu_of))]
pub fn alu(op: AluOp, a: u32, b: u32) -> u32
    ensures { result ≡ alu_of op a b }
{
    match op {
        AluOp::Add => a.wrapping_add(b),
        AluOp::Sub => a.wrapping_sub(b),
        AluOp::Sll => a.wrapping_shl(b),
        AluOp::Slt => (a.cast_signed() < b.cast_signed()) as u32,
        AluOp::Sltu => (a < b) as u32,
        AluOp::Xor => a ^ b,
        AluOp::Srl => a.wrapping_shr(b),
        AluOp::Sra => a.cast_signed().wrapping_shr(b).cast_unsigned(),
        AluOp::Or => a | b,
        AluOp::And => a & b,
    }
}

/// Whether a conditional branch on two words is taken (Unprivileged ISA, 2.5).
#[tactic(auto, unfolding(crate::specs::Alu::branch_of))]
pub fn branch(op: BranchOp, a: u32, b: u32) -> bool
    ensures { result ≡ branch_of op a b }
{
    match op {
        BranchOp::Eq => a == b,
        BranchOp::Ne => a != b,
        BranchOp::Lt => a.cast_signed() < b.cast_signed(),
        BranchOp::Ge => a.cast_signed() >= b.cast_signed(),
        BranchOp::Ltu => a < b,
        BranchOp::Geu => a >= b,
    }
}
