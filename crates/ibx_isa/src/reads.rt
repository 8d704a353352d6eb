ghost use Rattle.std.specs.Prelude.{◌≡◌, ◌<◌};
ghost use Rattle.ibx_isa.specs.Sources.{source1, source2};
ghost use Rattle.ibx_isa.specs.WellFormed.{IsWellFormed};

use crate::insn::Insn;

/// The registers that an instruction reads as rs1 and rs2, 0 where it reads none (Unprivileged ISA, 2.2).
pub fn sources(insn: &Insn) -> (u8, u8)
    requires { IsWellFormed insn.now }
    ensures first { result.0 ≡ source1 insn.now }
    ensures second { result.1 ≡ source2 insn.now }
    ensures first_fits { result.0 < 32 }
    ensures second_fits { result.1 < 32 }
{
    match *insn {
        Insn::Jalr { rs1, .. } | Insn::Load { rs1, .. } | Insn::AluImm { rs1, .. } => (rs1, 0),
        Insn::Branch { rs1, rs2, .. }
        | Insn::Store { rs1, rs2, .. }
        | Insn::Alu { rs1, rs2, .. }
        | Insn::MulDiv { rs1, rs2, .. } => (rs1, rs2),
        Insn::Csr { imm, src, .. } => (if imm { 0 } else { src }, 0),
        _ => (0, 0),
    }
}
