use crate::MulDiv;
use ibx_isa::{MdOp, MulKind};

// A calculation, what it shows, the cycles that it takes, and its value.
#[derive(Clone, Copy)]
struct Row {
    name: &'static str,
    op: MdOp,
    a: u32,
    b: u32,
    fixed: bool,
    mul: MulKind,
    cycles: u8,
    value: u32,
}

impl Row {
    fn new(
        name: &'static str,
        op: MdOp,
        a: u32,
        b: u32,
        fixed: bool,
        mul: MulKind,
        cycles: u8,
        value: u32,
    ) -> Row {
        Row {
            name,
            op,
            a,
            b,
            fixed,
            mul,
            cycles,
            value,
        }
    }
}

// The cycles until the result, and the result.
fn calculate(row: Row) -> (u8, u32) {
    let mut unit = MulDiv::idle();
    unit.start(row.op, row.a, row.b, row.fixed, row.mul);
    let mut cycles = 0;
    for cycle in 0..64 {
        cycles = cycle;
        if unit.left() == 0 {
            break;
        }
        unit.tick();
    }
    (cycles, unit.result())
}

// Values of the RISC-V test suite and of the manual's table of divisions by 0 and of overflow.
#[test]
fn values_and_cycles(rt: HostRuntime) {
    let rows = [
        Row::new(
            "mul, fast",
            MdOp::Mul,
            0x7e00,
            0xb6db6db7,
            false,
            MulKind::Fast,
            2,
            0x1200,
        ),
        Row::new(
            "mul, slow with fixed timing",
            MdOp::Mul,
            0x7fc0,
            0xb6db6db7,
            true,
            MulKind::Slow,
            32,
            0x1240,
        ),
        Row::new(
            "mul, slow by 128",
            MdOp::Mul,
            3,
            128,
            false,
            MulKind::Slow,
            8,
            0x180,
        ),
        Row::new(
            "mul, slow by 0",
            MdOp::Mul,
            5,
            0,
            false,
            MulKind::Slow,
            0,
            0,
        ),
        Row::new(
            "mul of -1 and -1, single-cycle",
            MdOp::Mul,
            0xffffffff,
            0xffffffff,
            false,
            MulKind::Single,
            0,
            1,
        ),
        Row::new(
            "mulh, single-cycle",
            MdOp::Mulh,
            0xaaaaaaab,
            0x2fe7d,
            false,
            MulKind::Single,
            1,
            0xffff0081,
        ),
        Row::new(
            "mulh of the least number, fast",
            MdOp::Mulh,
            0x80000000,
            0x80000000,
            false,
            MulKind::Fast,
            3,
            0x40000000,
        ),
        Row::new(
            "mulh of -1 and -1, slow",
            MdOp::Mulh,
            0xffffffff,
            0xffffffff,
            false,
            MulKind::Slow,
            32,
            0,
        ),
        Row::new(
            "mulhsu, fast",
            MdOp::Mulhsu,
            0xaaaaaaab,
            0x2fe7d,
            false,
            MulKind::Fast,
            3,
            0xffff0081,
        ),
        Row::new(
            "mulhsu of -1, slow",
            MdOp::Mulhsu,
            0xffffffff,
            0xffffffff,
            false,
            MulKind::Slow,
            32,
            0xffffffff,
        ),
        Row::new(
            "mulhu, slow",
            MdOp::Mulhu,
            0xaaaaaaab,
            0x2fe7d,
            false,
            MulKind::Slow,
            32,
            0x1fefe,
        ),
        Row::new(
            "mulhu of the greatest number, single-cycle",
            MdOp::Mulhu,
            0xffffffff,
            0xffffffff,
            false,
            MulKind::Single,
            1,
            0xfffffffe,
        ),
        Row::new("div", MdOp::Div, 100, 7, false, MulKind::Fast, 37, 14),
        Row::new(
            "div by 0",
            MdOp::Div,
            100,
            0,
            false,
            MulKind::Fast,
            1,
            0xffffffff,
        ),
        Row::new(
            "div by 0 with fixed timing",
            MdOp::Div,
            100,
            0,
            true,
            MulKind::Fast,
            37,
            0xffffffff,
        ),
        Row::new(
            "div that overflows",
            MdOp::Div,
            0x80000000,
            0xffffffff,
            false,
            MulKind::Fast,
            37,
            0x80000000,
        ),
        Row::new(
            "div of a negative number",
            MdOp::Div,
            0xfffffff9,
            2,
            false,
            MulKind::Fast,
            37,
            0xfffffffd,
        ),
        Row::new(
            "divu",
            MdOp::Divu,
            0xfffffff9,
            2,
            false,
            MulKind::Fast,
            37,
            0x7ffffffc,
        ),
        Row::new(
            "divu by 0 with fixed timing",
            MdOp::Divu,
            5,
            0,
            true,
            MulKind::Fast,
            37,
            0xffffffff,
        ),
        Row::new(
            "rem that overflows",
            MdOp::Rem,
            0x80000000,
            0xffffffff,
            false,
            MulKind::Fast,
            37,
            0,
        ),
        Row::new(
            "rem of a negative number",
            MdOp::Rem,
            0xfffffff9,
            2,
            false,
            MulKind::Fast,
            37,
            0xffffffff,
        ),
        Row::new(
            "rem by a negative number",
            MdOp::Rem,
            7,
            0xfffffffe,
            false,
            MulKind::Fast,
            37,
            1,
        ),
        Row::new(
            "rem by 0",
            MdOp::Rem,
            0xfffffff9,
            0,
            false,
            MulKind::Fast,
            1,
            0xfffffff9,
        ),
        Row::new(
            "remu",
            MdOp::Remu,
            0xfffffff9,
            2,
            false,
            MulKind::Fast,
            37,
            1,
        ),
        Row::new(
            "remu by 0 with fixed timing",
            MdOp::Remu,
            5,
            0,
            true,
            MulKind::Fast,
            37,
            5,
        ),
    ];
    for row in rows {
        let (cycles, value) = calculate(row);
        assert_eq!(rt; cycles, row.cycles, "at {}", row.name);
        assert_eq!(rt; value, row.value, "at {}", row.name);
    }
}
