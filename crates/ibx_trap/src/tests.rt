use crate::{enter, leave, pending};
use ibx_isa::TrapRegs;

#[test]
fn the_first_of_the_order_is_taken(rt: HostRuntime) {
    let every = 0x7fff_0888;
    let table = [
        (
            "the first fast interrupt",
            true,
            0x8,
            every,
            every,
            Some(16),
        ),
        (
            "the second fast interrupt",
            true,
            0x8,
            every,
            0x7ffe_0888,
            Some(17),
        ),
        (
            "the last fast interrupt",
            true,
            0x8,
            every,
            0x4000_0888,
            Some(30),
        ),
        (
            "the external interrupt",
            true,
            0x8,
            every,
            0x0000_0888,
            Some(11),
        ),
        (
            "the software interrupt",
            true,
            0x8,
            every,
            0x0000_0088,
            Some(3),
        ),
        (
            "the timer's interrupt",
            true,
            0x8,
            every,
            0x0000_0080,
            Some(7),
        ),
        (
            "lines that aren't interrupts",
            true,
            0x8,
            0xffff_ffff,
            0x8000_f777,
            None,
        ),
        (
            "an interrupt that isn't enabled",
            true,
            0x8,
            0x0000_0080,
            0x0000_0008,
            None,
        ),
        ("MIE off in M", true, 0xffff_fff7, every, every, None),
        ("U, whatever MIE", false, 0x0, every, 0x0000_0080, Some(7)),
        (
            "U, the one that is enabled",
            false,
            0x8,
            0x0000_0800,
            every,
            Some(11),
        ),
    ];
    for (name, machine, mstatus, mie, lines, want) in table {
        assert_eq!(rt; pending(machine, mstatus, mie, lines), want, "at {name}");
    }
}

// What a trap at 0x100088 with the handler's base 0x100000 leaves and where it goes, worked by hand from
// the manual's rules: the mode, mstatus and cpuctrl before, the number and whether it is an interrupt,
// then mstatus and cpuctrl after, and the target's distance from the base.
#[test]
fn a_trap_stacks_the_mode(rt: HostRuntime) {
    let table = [
        (
            "an illegal instruction",
            (true, 0x8, 0x00),
            (2, 0x2),
            (0x1880, 0x40),
            0,
        ),
        (
            "a fetch fault with interrupts off",
            (true, 0x80, 0x00),
            (1, 0x1),
            (0x1800, 0x40),
            0,
        ),
        (
            "a breakpoint in a handler",
            (true, 0x1888, 0x40),
            (3, 0x3),
            (0x1880, 0xc0),
            0,
        ),
        (
            "a load fault under MPRV and TW",
            (true, 0x220000, 0x3f),
            (5, 0x5),
            (0x221800, 0x7f),
            0,
        ),
        (
            "a store fault with a double fault marked",
            (true, 0x221888, 0x80),
            (7, 0x7),
            (0x221880, 0xc0),
            0,
        ),
        (
            "a call from M",
            (true, 0x0, 0x00),
            (11, 0xb),
            (0x1800, 0x40),
            0,
        ),
        (
            "a call from U",
            (false, 0x88, 0x00),
            (8, 0x8),
            (0x80, 0x40),
            0,
        ),
        (
            "a software interrupt from U",
            (false, 0x1880, 0x40),
            (3, 0x8000_0003),
            (0x0, 0x40),
            12,
        ),
        (
            "a timer's interrupt",
            (true, 0x8, 0x00),
            (7, 0x8000_0007),
            (0x1880, 0x00),
            28,
        ),
        (
            "the last fast interrupt",
            (true, 0x8, 0xff),
            (30, 0x8000_001e),
            (0x1880, 0xff),
            120,
        ),
    ];
    for (name, (machine, mstatus, cpuctrl), (cause, mcause), (stacked, marked), distance) in table {
        let before = TrapRegs {
            machine,
            mstatus,
            mtvec: 0x0010_0001,
            mepc: 0x0010_0200,
            mcause: 0x1f,
            mtval: 0x77,
            cpuctrl,
        };
        let after = TrapRegs {
            machine: true,
            mstatus: stacked,
            mtvec: 0x0010_0001,
            mepc: 0x0010_0088,
            mcause,
            mtval: 0x1234_5678,
            cpuctrl: marked,
        };
        assert!(rt; distance < 1000);
        let irq = mcause >= 0x8000_0000;
        let got = enter(&before, 0x0010_0088, cause, irq, 0x1234_5678);
        assert_eq!(rt; got, (after, 0x0010_0000 + distance), "at {name}");
    }
}

// The mode, mstatus and cpuctrl after a return with this mstatus and cpuctrl.
#[test]
fn a_return_unstacks_the_mode(rt: HostRuntime) {
    let table = [
        (
            "to M with interrupts on",
            0x0000_1880,
            0x00,
            true,
            0x0000_0088,
            0x00,
        ),
        (
            "to M with an exception seen",
            0x0000_1800,
            0x40,
            true,
            0x0000_0080,
            0x00,
        ),
        (
            "to U with interrupts on",
            0x0000_0080,
            0xff,
            false,
            0x0000_0088,
            0xbf,
        ),
        (
            "to M under MPRV",
            0x0002_1880,
            0x80,
            true,
            0x0002_0088,
            0x80,
        ),
        (
            "to U clears MPRV",
            0x0002_0080,
            0xc0,
            false,
            0x0000_0088,
            0x80,
        ),
        (
            "to U with interrupts off",
            0x0020_0008,
            0x00,
            false,
            0x0020_0080,
            0x00,
        ),
        ("MPP 1 is U", 0x0000_0800, 0x00, false, 0x0000_0080, 0x00),
        ("MPP 2 is U", 0x0000_1000, 0x00, false, 0x0000_0080, 0x00),
    ];
    for (name, mstatus, cpuctrl, machine, unstacked, unmarked) in table {
        let before = TrapRegs {
            machine: true,
            mstatus,
            mtvec: 0x0010_0001,
            mepc: 0x0010_0202,
            mcause: 0x1f,
            mtval: 0x77,
            cpuctrl,
        };
        let after = TrapRegs {
            machine,
            mstatus: unstacked,
            cpuctrl: unmarked,
            ..before
        };
        assert_eq!(rt; leave(&before), (after, 0x0010_0202), "at {name}");
    }
}
