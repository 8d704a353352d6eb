use crate::{Twin, TwinBy, Verdict, Views, inject, twin, twin_by};
use ibx_elf::{Ram, load};
use ibx_isa::{Alerts, MulKind, View};
use ibx_lockstep::Delay;
use ibx_plan::{Flip, Plan, Site};
use ibx_soc::{Config, Soc};
use ibx_views::Part;
use std::alloc::Global;
use std::process::Abort;
use std::test::Fail;

/// `lui x6, 0x20`, `addi x7, x0, 1` and `sw x7, 8(x6)`, and six words of 0, loaded and entered at 0x00100080.
const FILE: [u8; 120] = [
    0x7f, 0x45, 0x4c, 0x46, 1, 1, 1, 0, 0, 0, 0, 0, 0, 0, 0, 0, 2, 0, 0xf3, 0, 1, 0, 0, 0, 0x80, 0,
    0x10, 0, 0x34, 0, 0, 0, 0, 0, 0, 0, 0, 0, 0, 0, 0x34, 0, 0x20, 0, 1, 0, 0, 0, 0, 0, 0, 0, 1, 0,
    0, 0, 0x54, 0, 0, 0, 0x80, 0, 0x10, 0, 0x80, 0, 0x10, 0, 0x24, 0, 0, 0, 0x24, 0, 0, 0, 7, 0, 0,
    0, 4, 0, 0, 0, 0x37, 3, 2, 0, 0x93, 3, 0x10, 0, 0x23, 0x24, 0x73, 0, 0, 0, 0, 0, 0, 0, 0, 0, 0,
    0, 0, 0, 0, 0, 0, 0, 0, 0, 0, 0, 0, 0, 0, 0,
];

/// The bytes of the file before its words.
const HEADERS: usize = 84;

/// A program with its data, from 0x00100080 on.
type Words = [u32; 9];

/// The words of the file, the third of which halts.
const HALT: Words = [0x0002_0337, 0x0010_0393, 0x0073_2423, 0, 0, 0, 0, 0, 0];

/// The file with other words.
fn file(alloc: Global, words: &Words) -> Result<Vec<u8>, Fail> {
    let mut file = Vec::new(alloc);
    file.extend_from_slice(&FILE[..HEADERS])?;
    for word in words {
        file.extend_from_slice(&word.to_le_bytes())?;
    }
    Ok(file)
}

const RAM: Ram = Ram {
    base: 0x10_0000,
    size: 0x1000,
};

fn verdict(rt: &impl Abort, alloc: Global, flip: &Flip, cycles: u64) -> Verdict {
    if flip.cycle >= cycles || cycles > 1_000_000_000 {
        panic!(rt; "a cycle of the run");
    }
    let Ok(image) = load(&FILE, RAM) else {
        panic!(rt; "a well-formed file");
    };
    let plan = Plan::empty(alloc);
    let config = Config {
        ram: RAM,
        mul: MulKind::Fast,
        delay: Delay::Two,
    };
    let mut clean = Soc::new(alloc, &image, &config, &plan).expect(rt, "memory");
    let mut faulty = Soc::new(alloc, &image, &config, &plan).expect(rt, "memory");
    if !flip.site.fits(RAM.size / 4, clean.delay()) {
        panic!(rt; "a bit of the system");
    }
    inject(&mut clean, &mut faulty, flip, cycles)
}

// A flip of main is seen on the bus and told, one of the shadow is told, and an unused register's is neither.
#[test]
fn verdicts_of_three_flips(rt: HostRuntime) {
    let id_word = 20;
    let rows = [
        (
            4,
            Site::Main {
                field: id_word,
                bit: 15,
            },
            5,
            Some(4),
            Some((7, Alerts::INTERNAL)),
        ),
        (
            4,
            Site::Shadow {
                field: id_word,
                bit: 15,
            },
            10,
            None,
            Some((5, Alerts::INTERNAL)),
        ),
        (3, Site::Reg { n: 31, bit: 0 }, 10, None, None),
    ];
    for (cycle, site, cycles, first_diff, first_alert) in rows {
        let expected = Verdict {
            first_diff,
            first_alert,
        };
        let found = verdict(&rt, rt.alloc(), &Flip { cycle, site }, cycles);
        assert_eq!(rt; found, expected, "cycle {cycle}, budget {cycles}");
    }
}

/// How two programs compare in so many cycles, and the cycle in which each is left.
fn told(
    rt: &impl Abort,
    alloc: Global,
    a: &Words,
    b: &Words,
    cycles: u64,
) -> Result<(Twin, u64, u64), Fail> {
    if cycles == 0 || cycles > 1_000_000_000 {
        panic!(rt; "a budget");
    }
    let (a, b) = (file(alloc, a)?, file(alloc, b)?);
    let (Ok(a), Ok(b)) = (load(&a, RAM), load(&b, RAM)) else {
        panic!(rt; "well-formed files");
    };
    let plan = Plan::empty(alloc);
    let config = Config {
        ram: RAM,
        mul: MulKind::Fast,
        delay: Delay::Two,
    };
    let mut a = Soc::new(alloc, &a, &config, &plan).expect(rt, "memory");
    let mut b = Soc::new(alloc, &b, &config, &plan).expect(rt, "memory");
    let twin = twin(&mut a, &mut b, cycles);
    Ok((twin, a.cycle(), b.cycle()))
}

/// `addi x0, x0, 0` before the three that halt.
const IDLE: Words = [
    IDLE_WORD,
    0x0002_0337,
    0x0010_0393,
    0x0073_2423,
    0,
    0,
    0,
    0,
    0,
];

/// `csrrsi x0, cpuctrl, 2`: from here on times are equal whatever the operands are.
const SET_TIMING: u32 = 0x7c01_6073;
/// `addi x0, x0, 0`.
const IDLE_WORD: u32 = 0x13;

/// A first word, a division by the last one, and the halt.
const fn dividing(first: u32, by: u32) -> Words {
    [
        first,
        0x0010_0537,
        0x0a05_2403,
        0x0285_44b3,
        0x0002_0337,
        0x0010_0393,
        0x0073_2423,
        0,
        by,
    ]
}

/// With equal times, a store of the last word to where bit 0 halts, and no-ops.
const fn storing(value: u32) -> Words {
    [
        SET_TIMING,
        0x0002_0337,
        0x0010_0537,
        0x0a05_2383,
        0x0073_2423,
        IDLE_WORD,
        IDLE_WORD,
        IDLE_WORD,
        value,
    ]
}

const fn plain(pc: u32, word: u32, ops: Option<(u32, u32)>) -> Option<View> {
    Some(View {
        kind: 0,
        pc,
        word,
        addr: None,
        ctl: None,
        ops,
        cause: 0,
        tval: 0,
    })
}

// Stories are the same as far as views are, whatever was loaded or stored, and as far as neither has ended.
#[test]
fn twins_of_six_pairs(rt: HostRuntime) -> Result<(), Fail> {
    // What the row shows, both programs, the budget, the answer, and the cycles in which both are left, where given.
    let rows: [(&str, Words, Words, u64, Twin, Option<(u64, u64)>); 6] = [
        (
            "the same program",
            IDLE,
            IDLE,
            100,
            Twin::Same(4),
            Some((7, 7)),
        ),
        (
            "a budget before the halt",
            IDLE,
            IDLE,
            5,
            Twin::Same(3),
            Some((5, 5)),
        ),
        (
            "a difference of the first event",
            IDLE,
            HALT,
            100,
            Twin::Differ {
                at: 0,
                a: plain(0x0010_0080, IDLE_WORD, Some((0, 0))),
                b: plain(0x0010_0080, 0x0002_0337, Some((0, 0))),
            },
            Some((3, 3)),
        ),
        (
            "a loaded word",
            dividing(SET_TIMING, 7),
            dividing(SET_TIMING, 0),
            1000,
            Twin::Same(7),
            None,
        ),
        (
            "operands of a division",
            dividing(IDLE_WORD, 7),
            dividing(IDLE_WORD, 0),
            1000,
            Twin::Differ {
                at: 3,
                a: plain(0x0010_008c, 0x0285_44b3, Some((0x0010_0000, 7))),
                b: plain(0x0010_008c, 0x0285_44b3, Some((0x0010_0000, 0))),
            },
            None,
        ),
        (
            "one story halts",
            storing(1),
            storing(0),
            1000,
            Twin::Differ {
                at: 5,
                a: None,
                b: plain(0x0010_0094, IDLE_WORD, None),
            },
            None,
        ),
    ];
    for (name, a, b, cycles, expected, left) in rows {
        let (found, left_a, left_b) = told(&rt, rt.alloc(), &a, &b, cycles)?;
        assert_eq!(rt; found, expected, "{name}");
        if let Some(left) = left {
            assert_eq!(rt; (left_a, left_b), left, "{name}: where both are left");
        }
    }
    Ok(())
}

/// How two programs compare in 1000 cycles by their views or by their time views.
fn told_by(
    rt: &impl Abort,
    alloc: Global,
    a: &Words,
    b: &Words,
    views: Views,
) -> Result<TwinBy, Fail> {
    let (a, b) = (file(alloc, a)?, file(alloc, b)?);
    let (Ok(a), Ok(b)) = (load(&a, RAM), load(&b, RAM)) else {
        panic!(rt; "well-formed files");
    };
    let plan = Plan::empty(alloc);
    let config = Config {
        ram: RAM,
        mul: MulKind::Fast,
        delay: Delay::Two,
    };
    let mut a = Soc::new(alloc, &a, &config, &plan).expect(rt, "memory");
    let mut b = Soc::new(alloc, &b, &config, &plan).expect(rt, "memory");
    Ok(twin_by(&mut a, &mut b, 1000, views))
}

/// The view of a division of 0x00100000 by a number.
fn divided(by: u32) -> Option<View> {
    plain(0x0010_008c, 0x0285_44b3, Some((0x0010_0000, by)))
}

// Divisions by 7 and by 9 take as long as each other, and a division by 0 doesn't; an ended story is a difference too.
#[test]
fn twins_by_views_and_by_time(rt: HostRuntime) -> Result<(), Fail> {
    let time = Views::Time {
        ram: RAM,
        mul: MulKind::Fast,
    };
    // What the row shows, both programs, what is compared, the answer, and the part.
    let rows: [(&str, Words, Words, Views, Twin, Option<Part>); 4] = [
        (
            "operands that don't show in time",
            dividing(IDLE_WORD, 7),
            dividing(IDLE_WORD, 9),
            time,
            Twin::Same(7),
            None,
        ),
        (
            "the same by their views",
            dividing(IDLE_WORD, 7),
            dividing(IDLE_WORD, 9),
            Views::Full,
            Twin::Differ {
                at: 3,
                a: divided(7),
                b: divided(9),
            },
            None,
        ),
        (
            "a division by 0",
            dividing(IDLE_WORD, 7),
            dividing(IDLE_WORD, 0),
            time,
            Twin::Differ {
                at: 3,
                a: divided(7),
                b: divided(0),
            },
            Some(Part::Cost),
        ),
        (
            "one story halts",
            storing(1),
            storing(0),
            time,
            Twin::Differ {
                at: 5,
                a: None,
                b: plain(0x0010_0094, IDLE_WORD, None),
            },
            None,
        ),
    ];
    for (name, a, b, views, twin, part) in rows {
        let found = told_by(&rt, rt.alloc(), &a, &b, views)?;
        assert_eq!(rt; found, TwinBy { twin, part }, "{name}");
    }
    Ok(())
}
