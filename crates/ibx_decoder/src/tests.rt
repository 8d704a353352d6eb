use crate::{decode, expand, is_short};
use ibx_isa::{AluOp, BranchOp, CsrOp, Insn, LoadOp, MdOp};
use std::test::Fail;

// The words are those that GNU as makes of the instructions beside them.
#[test]
fn decodes(rt: HostRuntime) -> Result<(), Fail> {
    for (name, word, insn) in [
        (
            "auipc x1,0xfffff",
            0xffff_f097,
            Insn::Auipc {
                rd: 1,
                imm: 0xffff_f000,
            },
        ),
        ("jal x0,.+2050", 0x0030_006f, Insn::Jal { rd: 0, imm: 2050 }),
        (
            "jalr x1,-2048(x2)",
            0x8001_00e7,
            Insn::Jalr {
                rd: 1,
                rs1: 2,
                imm: 0xffff_f800,
            },
        ),
        (
            "bltu x5,x6,.+2082",
            0x0262_e1e3,
            Insn::Branch {
                op: BranchOp::Ltu,
                rs1: 5,
                rs2: 6,
                imm: 2082,
            },
        ),
        (
            "lhu x8,-1(x9)",
            0xfff4_d403,
            Insn::Load {
                op: LoadOp::Lhu,
                rd: 8,
                rs1: 9,
                imm: 0xffff_ffff,
            },
        ),
        (
            "sb x31,-33(x2)",
            0xfdf1_0fa3,
            Insn::Store {
                size: 1,
                rs1: 2,
                rs2: 31,
                imm: 0xffff_ffdf,
            },
        ),
        (
            "srai x3,x4,31",
            0x41f2_5193,
            Insn::AluImm {
                op: AluOp::Sra,
                rd: 3,
                rs1: 4,
                imm: 31,
            },
        ),
        (
            "sra x29,x30,x31",
            0x41ff_5eb3,
            Insn::Alu {
                op: AluOp::Sra,
                rd: 29,
                rs1: 30,
                rs2: 31,
            },
        ),
        (
            "mulhsu x1,x2,x3",
            0x0231_20b3,
            Insn::MulDiv {
                op: MdOp::Mulhsu,
                rd: 1,
                rs1: 2,
                rs2: 3,
            },
        ),
        (
            "csrrsi x5,0x300,31",
            0x300f_e2f3,
            Insn::Csr {
                op: CsrOp::Set,
                rd: 5,
                src: 31,
                imm: true,
                addr: 0x300,
            },
        ),
        ("fence r,w", 0x0210_000f, Insn::Fence),
        ("wfi", 0x1050_0073, Insn::Wfi),
    ] {
        assert_eq!(rt; decode(word), Some(insn), "at {name}");
    }
    for (name, word) in [
        ("slli by 47", 0x02f0_9813),
        ("a doubleword load", 0x0000_3003),
        ("hret", 0x2020_0073),
        ("a word of zeros", 0),
    ] {
        assert_eq!(rt; decode(word), None, "at {name}");
    }
    Ok(())
}

#[test]
fn expands(rt: HostRuntime) -> Result<(), Fail> {
    for (name, half, word) in [
        ("c.nop", 0x0001, 0x0000_0013),
        ("c.li x10,0", 0x4501, 0x0000_0513),
        ("c.addi x2,-16", 0x1141, 0xff01_0113),
        ("c.jr x1", 0x8082, 0x0000_8067),
        ("c.ebreak", 0x9002, 0x0010_0073),
        ("c.swsp x1,12(x2)", 0xc606, 0x0011_2623),
        ("c.addi4spn x15,x2,1020", 0x1ffc, 0x3fc1_0793),
        ("c.lw x9,68(x10)", 0x4164, 0x0445_2483),
        ("c.jal .-2048", 0x3001, 0x801f_f0ef),
        ("c.lui x1,0xfffe0", 0x7081, 0xfffe_00b7),
        ("c.srai x15,1", 0x8785, 0x4017_d793),
        ("c.sub x8,x15", 0x8c1d, 0x40f4_0433),
        ("c.beqz x8,.-256", 0xd001, 0xf004_00e3),
        ("c.lwsp x31,252(x2)", 0x5ffe, 0x0fc1_2f83),
        ("c.add x6,x7", 0x931e, 0x0073_0333),
    ] {
        assert_eq!(rt; expand(half), Some(word), "at {name}");
        assert!(rt; is_short(half), "at {name}");
    }
    for (name, half) in [
        ("c.addi4spn with the immediate 0", 0x0000),
        ("c.addi16sp with the immediate 0", 0x6101),
        ("c.srli by 32", 0x9001),
        ("half of a 32-bit instruction", 0x0073),
    ] {
        assert_eq!(rt; expand(half), None, "at {name}");
    }
    assert!(rt; !is_short(0x0073));
    Ok(())
}
