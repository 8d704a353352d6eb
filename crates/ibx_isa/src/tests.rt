use crate::{
    Access, AluOp, BranchOp, Event, LoadOp, MdOp, MulKind, alu, branch, gather, lanes, md_cost,
    parts, view,
};
use std::test::Fail;

#[test]
fn computes(rt: HostRuntime) -> Result<(), Fail> {
    for (name, op, a, b, value) in [
        ("a sum that wraps", AluOp::Add, 0xffff_ffff, 2, 1),
        ("a difference that wraps", AluOp::Sub, 0, 1, 0xffff_ffff),
        (
            "left by 0x3f, which is 31",
            AluOp::Sll,
            1,
            0x3f,
            0x8000_0000,
        ),
        ("signed below", AluOp::Slt, 0x8000_0000, 0, 1),
        ("unsigned not below", AluOp::Sltu, 0x8000_0000, 0, 0),
        ("exclusive or", AluOp::Xor, 0xff, 0x0f, 0xf0),
        (
            "right by 33, which is 1",
            AluOp::Srl,
            0x8000_0000,
            33,
            0x4000_0000,
        ),
        (
            "right with the sign",
            AluOp::Sra,
            0x8000_0000,
            33,
            0xc000_0000,
        ),
        ("or", AluOp::Or, 0xf0, 0x0c, 0xfc),
        ("and", AluOp::And, 0xf0, 0x3c, 0x30),
    ] {
        assert_eq!(rt; alu(op, a, b), value, "at {name}");
    }
    for (name, op, taken) in [
        ("beq", BranchOp::Eq, false),
        ("bne", BranchOp::Ne, true),
        ("blt", BranchOp::Lt, true),
        ("bge", BranchOp::Ge, false),
        ("bltu", BranchOp::Ltu, false),
        ("bgeu", BranchOp::Geu, true),
    ] {
        assert_eq!(rt; branch(op, 0xffff_ffff, 1), taken, "at {name}");
    }
    for (name, b, fixed, cost) in [
        ("by 0", 0, false, 0),
        ("by one bit", 1, false, 1),
        ("by eight bits", 0x80, false, 8),
        ("by all bits", 0xffff_ffff, false, 32),
        ("by 0 with fixed timing", 0, true, 32),
    ] {
        assert_eq!(rt;
            md_cost(MdOp::Mul, b, fixed, MulKind::Slow),
            cost,
            "at {name}"
        );
    }
    assert_eq!(rt; md_cost(MdOp::Rem, 0, false, MulKind::Fast), 1);
    assert_eq!(rt; md_cost(MdOp::Rem, 0, true, MulKind::Fast), 37);
    Ok(())
}

#[test]
fn views(rt: HostRuntime) -> Result<(), Fail> {
    let store = view(&Event::Retire {
        cycle: 5,
        pc: 0x0010_0088,
        word: 0x0073_2423,
        rd: 0,
        value: 0,
        mem: Some(Access {
            addr: 0x0002_0008,
            size: 4,
            store: true,
            value: 1,
        }),
        ctl: None,
        ops: None,
    });
    assert_eq!(rt;
        (store.kind, store.word, store.addr),
        (0, 0x0073_2423, Some(0x0002_0008))
    );
    for (name, cause, addr) in [
        ("a load fault", 5, Some(0x0020_0000)),
        ("a store fault", 7, Some(0x0020_0000)),
        ("an illegal instruction", 2, None),
    ] {
        let trap = view(&Event::Trap {
            cycle: 8,
            pc: 0x0010_0088,
            word: 0xfe82_af23,
            cause,
            tval: 0x0020_0000,
            addr: 0x0020_0000,
        });
        assert_eq!(rt;
            (trap.kind, trap.cause, trap.addr),
            (1, cause, addr),
            "at {name}"
        );
    }
    let irq = view(&Event::Irq {
        cycle: 4,
        pc: 0x0010_0088,
        cause: 3,
    });
    assert_eq!(rt;
        (irq.kind, irq.pc, irq.word, irq.cause),
        (2, 0x0010_0088, 0, 3)
    );
    Ok(())
}

// Of each size at each alignment, as by hand: the portions, and the enables and lanes of the first and the second.
#[test]
fn portions_of_all_sizes(rt: HostRuntime) {
    let rows = [
        ("byte, lane 0", 0, 1, 1, (0x1, 0x0000_00aa), (0x0, 0)),
        ("byte, lane 1", 1, 1, 1, (0x2, 0x0000_aa00), (0x0, 0)),
        ("byte, lane 2", 2, 1, 1, (0x4, 0x00aa_0000), (0x0, 0)),
        ("byte, lane 3", 3, 1, 1, (0x8, 0xaa00_0000), (0x0, 0)),
        ("halfword, lane 0", 0, 2, 1, (0x3, 0x0000_bbaa), (0x0, 0)),
        ("halfword, lane 1", 1, 2, 1, (0x6, 0x00bb_aa00), (0x0, 0)),
        ("halfword, lane 2", 2, 2, 1, (0xc, 0xbbaa_0000), (0x0, 0)),
        (
            "halfword across words",
            3,
            2,
            2,
            (0x8, 0xaa00_0000),
            (0x1, 0x0000_00bb),
        ),
        ("word, lane 0", 0, 4, 1, (0xf, 0xddcc_bbaa), (0x0, 0)),
        (
            "word, lane 1",
            1,
            4,
            2,
            (0xe, 0xccbb_aa00),
            (0x1, 0x0000_00dd),
        ),
        (
            "word, lane 2",
            2,
            4,
            2,
            (0xc, 0xbbaa_0000),
            (0x3, 0x0000_ddcc),
        ),
        (
            "word, lane 3",
            3,
            4,
            2,
            (0x8, 0xaa00_0000),
            (0x7, 0x00dd_ccbb),
        ),
    ];
    for (name, addr, size, count, first, second) in rows {
        assert_eq!(rt; parts(addr, size), count, "at {name}");
        assert!(rt; size <= 4);
        assert_eq!(rt; lanes(addr, size, 0xddcc_bbaa, false), first, "at {name}");
        assert_eq!(rt; lanes(addr, size, 0xddcc_bbaa, true), second, "at {name}");
    }
}

#[test]
fn values_of_loads(rt: HostRuntime) {
    let rows = [
        ("lb with the sign", LoadOp::Lb, 0, 0xffff_ff81),
        ("lb of the last lane", LoadOp::Lb, 3, 0x0000_0004),
        ("lbu", LoadOp::Lbu, 2, 0x0000_0083),
        ("lh within a word", LoadOp::Lh, 1, 0xffff_8382),
        ("lh without the sign", LoadOp::Lh, 2, 0x0000_0483),
        ("lh across words", LoadOp::Lh, 3, 0xffff_8504),
        ("lhu across words", LoadOp::Lhu, 3, 0x0000_8504),
        ("lw aligned", LoadOp::Lw, 0, 0x0483_8281),
        ("lw one byte on", LoadOp::Lw, 1, 0x8504_8382),
        ("lw three bytes on", LoadOp::Lw, 3, 0x8786_8504),
    ];
    for (name, op, addr, value) in rows {
        assert_eq!(rt;
            gather(op, addr, 0x0483_8281, 0x8887_8685),
            value,
            "at {name}"
        );
    }
    assert_eq!(rt;
        gather(LoadOp::Lw, 0x0010_0083, 0x0010_02b7, 0x0832_a403),
        0x32a4_0300
    );
}
