use crate::{IdIn, IdState, Turn, turn};
use ibx_isa::{AluOp, BranchOp, CsrOp, Insn, LoadOp, MdOp, MulKind, md_cost};

fn item(kind: u8) -> IdState {
    IdState {
        valid: true,
        kind,
        pc: 0x0010_0080,
        word: 0x13,
        fault: 0,
        phase: 0,
        count: 0,
    }
}

fn row(insn: Insn) -> IdIn {
    IdIn {
        insn: Some(insn),
        a: 0,
        b: 0,
        fixed: false,
        cost: 0,
        wake: false,
        trap: None,
        ls_done: false,
        ls_fault: 0,
    }
}

fn beq() -> Insn {
    Insn::Branch {
        op: BranchOp::Eq,
        rs1: 0,
        rs2: 0,
        imm: 8,
    }
}

fn bne() -> Insn {
    Insn::Branch {
        op: BranchOp::Ne,
        rs1: 0,
        rs2: 0,
        imm: 8,
    }
}

fn load() -> Insn {
    Insn::Load {
        op: LoadOp::Lw,
        rd: 1,
        rs1: 2,
        imm: 0,
    }
}

// The cycles that an item takes beyond its first with the same inputs in each, and what ends it.
fn stay(entered: IdState, i: &IdIn) -> (u8, Turn) {
    let mut st = entered;
    for n in 0..64u8 {
        match turn(&st, i) {
            Turn::Hold(next) => st = next,
            end => return (n, end),
        }
    }
    (64, Turn::Idle)
}

// The last cycle of an item, with these inputs one after the other.
fn last(entered: IdState, given: &[IdIn]) -> (usize, Turn) {
    let mut st = entered;
    for n in 0..given.len() {
        match turn(&st, &given[n]) {
            Turn::Hold(next) => st = next,
            end => return (n, end),
        }
    }
    (given.len(), Turn::Hold(st))
}

// The table of costs, but for loads, stores, WFI and the M extension.
#[test]
fn costs_of_rows(rt: HostRuntime) {
    let rows = [
        ("lui", Insn::Lui { rd: 1, imm: 0 }, 0, false),
        ("auipc", Insn::Auipc { rd: 1, imm: 0 }, 0, false),
        ("jal", Insn::Jal { rd: 1, imm: 8 }, 0, true),
        (
            "jalr",
            Insn::Jalr {
                rd: 1,
                rs1: 2,
                imm: 8,
            },
            0,
            true,
        ),
        (
            "addi",
            Insn::AluImm {
                op: AluOp::Add,
                rd: 1,
                rs1: 2,
                imm: 8,
            },
            0,
            false,
        ),
        (
            "add",
            Insn::Alu {
                op: AluOp::Add,
                rd: 1,
                rs1: 2,
                rs2: 3,
            },
            0,
            false,
        ),
        (
            "csrrs",
            Insn::Csr {
                op: CsrOp::Set,
                rd: 1,
                src: 2,
                imm: false,
                addr: 0x300,
            },
            0,
            false,
        ),
        ("fence", Insn::Fence, 0, false),
        ("fence.i", Insn::FenceI, 0, true),
        ("mret", Insn::Mret, 1, true),
    ];
    for (name, insn, cycles, redirect) in rows {
        assert_eq!(rt;
            stay(item(0), &row(insn)),
            (cycles, Turn::Retire { redirect }),
            "at {name}"
        );
    }
}

// A taken branch takes a cycle and redirects, and so does every branch where timing is fixed.
#[test]
fn costs_of_branches(rt: HostRuntime) {
    let rows = [
        ("a taken branch", beq(), false, 1),
        ("one that isn't taken", bne(), false, 0),
        ("one that isn't taken, with fixed timing", bne(), true, 1),
        ("a taken branch with fixed timing", beq(), true, 1),
    ];
    for (name, insn, fixed, cycles) in rows {
        let i = IdIn { fixed, ..row(insn) };
        let redirect = cycles == 1;
        assert_eq!(rt;
            stay(item(0), &i),
            (cycles, Turn::Retire { redirect }),
            "at {name}"
        );
    }
}

// Of 100 divided by 7, by 0, and by 0 with fixed timing, and products; a dummy takes as long.
#[test]
fn costs_of_operations(rt: HostRuntime) {
    let rows = [
        ("div", MdOp::Div, 7, false, MulKind::Fast, 37),
        ("div by 0", MdOp::Div, 0, false, MulKind::Fast, 1),
        (
            "div by 0 with fixed timing",
            MdOp::Div,
            0,
            true,
            MulKind::Fast,
            37,
        ),
        ("remu by 0", MdOp::Remu, 0, false, MulKind::Slow, 1),
        ("mul, single-cycle", MdOp::Mul, 7, false, MulKind::Single, 0),
        ("mul, fast", MdOp::Mul, 7, false, MulKind::Fast, 2),
        ("mul, slow", MdOp::Mul, 7, false, MulKind::Slow, 3),
        (
            "mul, slow with fixed timing",
            MdOp::Mul,
            7,
            true,
            MulKind::Slow,
            32,
        ),
        (
            "mulh, single-cycle",
            MdOp::Mulh,
            7,
            false,
            MulKind::Single,
            1,
        ),
        ("mulhu, slow", MdOp::Mulhu, 7, false, MulKind::Slow, 32),
    ];
    for (name, op, b, fixed, mul, cycles) in rows {
        let insn = Insn::MulDiv {
            op,
            rd: 9,
            rs1: 5,
            rs2: 8,
        };
        let i = IdIn {
            a: 100,
            b,
            fixed,
            cost: md_cost(op, b, fixed, mul),
            ..row(insn)
        };
        assert_eq!(rt;
            stay(item(0), &i),
            (cycles, Turn::Retire { redirect: false }),
            "at {name}"
        );
        assert_eq!(rt;
            stay(item(1), &i),
            (cycles, Turn::Dummy),
            "at a dummy's {name}"
        );
    }
}

#[test]
fn answers_and_wakes(rt: HostRuntime) {
    let silent = row(load());
    let answered = IdIn {
        ls_done: true,
        ..silent
    };
    let retires = Turn::Retire { redirect: false };
    assert_eq!(rt;
        last(item(0), &[silent, silent, silent, answered]),
        (3, retires)
    );
    assert_eq!(rt; last(item(0), &[answered]), (0, retires));
    let asleep = row(Insn::Wfi);
    let woken = IdIn {
        wake: true,
        ..asleep
    };
    assert_eq!(rt; last(item(0), &[asleep, asleep, woken]), (2, retires));
    assert_eq!(rt; stay(item(0), &asleep), (64, Turn::Idle));
}

// One cycle after the trap is found: as the item enters, or at the answer that fails.
#[test]
fn traps(rt: HostRuntime) {
    let silent = row(load());
    let first = IdIn {
        ls_fault: 1,
        ls_done: true,
        ..silent
    };
    let second = IdIn {
        ls_fault: 2,
        ls_done: true,
        ..silent
    };
    assert_eq!(rt;
        last(item(0), &[first, silent]),
        (1, Turn::Trap { portion: 1 })
    );
    assert_eq!(rt;
        last(item(0), &[silent, first, silent]),
        (2, Turn::Trap { portion: 1 })
    );
    assert_eq!(rt;
        last(item(0), &[silent, second, silent]),
        (2, Turn::Trap { portion: 2 })
    );
    let ecall = IdIn {
        trap: Some(11),
        ..row(Insn::Ecall)
    };
    assert_eq!(rt; stay(item(0), &ecall), (1, Turn::Trap { portion: 0 }));
    let unknown = IdIn {
        insn: None,
        trap: Some(2),
        ..silent
    };
    assert_eq!(rt; stay(item(0), &unknown), (1, Turn::Trap { portion: 0 }));
    assert_eq!(rt; stay(item(2), &silent), (0, Turn::Irq));
    assert_eq!(rt;
        turn(
            &IdState {
                valid: false,
                ..item(2)
            },
            &silent
        ),
        Turn::Idle
    );
}
