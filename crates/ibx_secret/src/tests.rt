use crate::{CsrMarks, RegisterMarks};
use ibx_csr::Csr;

// A register keeps what it took last, x0 takes nothing, and the others stay.
#[test]
fn registers_take_marks(rt: HostRuntime) {
    let rows = [(1, true), (31, true), (0, true), (1, false)];
    let mut marks = RegisterMarks::none();
    for (n, mark) in rows {
        marks.put(n, mark);
    }
    for (n, expected) in [(0, false), (1, false), (2, false), (31, true)] {
        assert_eq!(rt; marks.has(n), expected, "x{n}");
    }
}

// A half of a counter keeps the other half's mark, a trap clears those of its registers, and no other has one.
#[test]
fn csrs_take_marks(rt: HostRuntime) {
    let mut marks = CsrMarks::none();
    for (register, mark) in [
        (Csr::Mcycle, true),
        (Csr::Mcycleh, false),
        (Csr::Mepc, true),
        (Csr::Mscratch, true),
        (Csr::Mtvec, true),
    ] {
        marks.put(register, mark);
    }
    marks.enter();
    for (register, expected) in [
        (Csr::Mcycle, true),
        (Csr::Mepc, false),
        (Csr::Mscratch, true),
        (Csr::Mtvec, false),
    ] {
        assert_eq!(rt; marks.has(register), expected, "{register:?}");
    }
}
