ghost use Rattle.std.specs.Prelude.{◌≡◌, ◌<◌};

use crate::{
    Bounds, FIELDS, Flip, LineKind, Plan, PlanFault, Site, Steps, Wait, field_named, read, width,
};
use std::alloc::{AllocError, Global};
use std::marker::Brand;
use std::sync::ledger::{Blank, Ledger};
use std::test::Fail;

// A run of 1,000 cycles over 1 MiB of RAM, with the shadow two cycles behind.
fn bounds(flips: u32) -> Bounds {
    Bounds {
        ram_words: 262_144,
        delay: 2,
        flips,
        cycles: 1000,
    }
}

// Why a text is refused; the texts here are short.
fn fault(alloc: Global, text: &str, flips: u32) -> Option<PlanFault> {
    if text.len() > 1_000_000 {
        return Some(PlanFault::Memory);
    }
    match read(alloc, text.as_bytes(), &bounds(flips)) {
        Ok(_) => None,
        Err(fault) => Some(fault),
    }
}

fn repeated(alloc: Global, line: &str, count: u32) -> Result<String, AllocError> {
    let mut text = String::new(alloc);
    for _ in 0..count {
        text.push_str(line)?;
    }
    Ok(text)
}

static REFUSED: [(&str, u32, PlanFault); 48] = [
    (
        "flip 0 mem 0 0\nflip 0 mem 0 0\n",
        1,
        PlanFault::Line(2, LineKind::Flip),
    ),
    ("", 1, PlanFault::NoFlip),
    (
        "iwait 1 0\n\nflip 1 reg 1 0\n",
        0,
        PlanFault::Line(3, LineKind::Flip),
    ),
    ("iwait 256 0", 0, PlanFault::Line(1, LineKind::Range)),
    ("iwait 1", 0, PlanFault::Line(1, LineKind::Word)),
    ("iwait a 0", 0, PlanFault::Line(1, LineKind::Number)),
    ("irq 5 8\nirq 5 0", 0, PlanFault::Line(2, LineKind::Order)),
    (
        "flip 0 mem 262144 0",
        1,
        PlanFault::Line(1, LineKind::Range),
    ),
    // A carriage return is dropped before a line feed alone, and one only.
    ("irq 1 8\r", 0, PlanFault::Line(1, LineKind::Number)),
    ("irq 1 8\r\r\n", 0, PlanFault::Line(1, LineKind::Number)),
    ("\r", 0, PlanFault::Line(1, LineKind::Word)),
    // Empty lines and comments are counted.
    (
        "# one\n \t\n\niwait 0 0 0",
        0,
        PlanFault::Line(4, LineKind::Word),
    ),
    ("IWAIT 0 0", 0, PlanFault::Line(1, LineKind::Word)),
    ("dwait 0 0 #", 0, PlanFault::Line(1, LineKind::Word)),
    // Numbers.
    ("irq 00000000001 0", 0, PlanFault::Line(1, LineKind::Number)),
    ("irq 0x 0", 0, PlanFault::Line(1, LineKind::Number)),
    ("irq 0X1 0", 0, PlanFault::Line(1, LineKind::Number)),
    ("irq 0x000000001 0", 0, PlanFault::Line(1, LineKind::Number)),
    ("irq -1 0", 0, PlanFault::Line(1, LineKind::Number)),
    ("irq 0x1g 0", 0, PlanFault::Line(1, LineKind::Number)),
    ("irq 1000000001 0", 0, PlanFault::Line(1, LineKind::Range)),
    ("irq 0 1", 0, PlanFault::Line(1, LineKind::Range)),
    ("dwait 0 9999999999", 0, PlanFault::Line(1, LineKind::Range)),
    // The first kind that holds decides.
    (
        "flip x main nothing 0",
        1,
        PlanFault::Line(1, LineKind::Word),
    ),
    (
        "flip 9999 reg 32 x",
        1,
        PlanFault::Line(1, LineKind::Number),
    ),
    ("irq 5 8\nirq 4 1", 0, PlanFault::Line(2, LineKind::Range)),
    ("flip 0 reg 0 0", 0, PlanFault::Line(1, LineKind::Range)),
    // A flip's ranges.
    ("flip 1000 reg 1 0", 1, PlanFault::Line(1, LineKind::Range)),
    (
        "flip 0 main f_busy 1",
        1,
        PlanFault::Line(1, LineKind::Range),
    ),
    (
        "flip 0 shadow pmpaddr15_n 32",
        1,
        PlanFault::Line(1, LineKind::Range),
    ),
    (
        "flip 0 delay 2 mul 0",
        1,
        PlanFault::Line(1, LineKind::Range),
    ),
    (
        "flip 0 delay 1 age 0",
        1,
        PlanFault::Line(1, LineKind::Range),
    ),
    (
        "flip 0 delay 1 told 0",
        1,
        PlanFault::Line(1, LineKind::Range),
    ),
    (
        "flip 0 delay 0 age 3",
        1,
        PlanFault::Line(1, LineKind::Range),
    ),
    (
        "flip 0 delay 0 told 1",
        1,
        PlanFault::Line(1, LineKind::Range),
    ),
    (
        "flip 0 delay 0 rega 39",
        1,
        PlanFault::Line(1, LineKind::Range),
    ),
    ("flip 0 reg 32 0", 1, PlanFault::Line(1, LineKind::Range)),
    ("flip 0 reg 1 39", 1, PlanFault::Line(1, LineKind::Range)),
    ("flip 0 tag 256 0 0", 1, PlanFault::Line(1, LineKind::Range)),
    ("flip 0 tag 0 2 0", 1, PlanFault::Line(1, LineKind::Range)),
    ("flip 0 tag 0 0 28", 1, PlanFault::Line(1, LineKind::Range)),
    (
        "flip 0 data 0 0 2 0",
        1,
        PlanFault::Line(1, LineKind::Range),
    ),
    (
        "flip 0 data 0 0 0 39",
        1,
        PlanFault::Line(1, LineKind::Range),
    ),
    ("flip 0 data 0 0 0", 1, PlanFault::Line(1, LineKind::Word)),
    ("flip 0 out tag0 28", 1, PlanFault::Line(1, LineKind::Range)),
    ("flip 0 out mul 0", 1, PlanFault::Line(1, LineKind::Word)),
    ("flip 0 answer 2 0", 1, PlanFault::Line(1, LineKind::Range)),
    ("flip 0 mem 0 39", 1, PlanFault::Line(1, LineKind::Range)),
];

fn refused() -> &'static [(&'static str, u32, PlanFault)] {
    &REFUSED
}

#[test]
fn refused_texts(rt: HostRuntime) -> Result<(), Fail> {
    for row in refused() {
        assert_eq!(rt;
            fault(rt.alloc(), row.0, row.1),
            Some(row.2),
            "at {:?}",
            row.0
        );
    }
    let most = repeated(rt.alloc(), "iwait 0 0\n", 65_536)?;
    assert_eq!(rt; fault(rt.alloc(), most.as_str(), 0), None);
    let many = repeated(rt.alloc(), "dwait 0 0\n", 65_537)?;
    assert_eq!(rt;
        fault(rt.alloc(), many.as_str(), 0),
        Some(PlanFault::TooMany(65_537))
    );
    Ok(())
}

// A line without a line feed, cut to each length: nothing is accepted, and so is the whole.
#[test]
fn cut_texts(rt: HostRuntime) {
    let text = "iwait 1 0";
    for bytes in 0..=9 {
        let expected = match bytes {
            0 | 9 => None,
            _ => Some(PlanFault::Line(1, LineKind::Word)),
        };
        let cut = text.get(..bytes).unwrap_or(text);
        assert_eq!(rt; fault(rt.alloc(), cut, 0), expected, "at {cut:?}");
    }
}

static FLIPS: [(&str, Site); 12] = [
    (
        "flip 999 main id_word 15",
        Site::Main { field: 20, bit: 15 },
    ),
    (
        "flip 999 shadow md_acc 63",
        Site::Shadow { field: 26, bit: 63 },
    ),
    (
        "flip 999 delay 1 irsp_valid 0",
        Site::Delay {
            slot: 1,
            wire: 0,
            bit: 0,
        },
    ),
    (
        "flip 999 delay 0 age 2",
        Site::Delay {
            slot: 0,
            wire: 36,
            bit: 2,
        },
    ),
    (
        "flip 999 delay 0 told 0",
        Site::Delay {
            slot: 0,
            wire: 37,
            bit: 0,
        },
    ),
    ("flip 999 reg 31 38", Site::Reg { n: 31, bit: 38 }),
    (
        "flip 999 tag 255 1 27",
        Site::Tag {
            set: 255,
            way: 1,
            bit: 27,
        },
    ),
    (
        "flip 999 data 255 1 0 38",
        Site::Line {
            set: 255,
            way: 1,
            half: 0,
            bit: 38,
        },
    ),
    ("flip 999 out data1 38", Site::Output { wire: 5, bit: 38 }),
    ("flip 999 answer 1 38", Site::Answer { port: 1, bit: 38 }),
    (
        "flip 999 mem 262143 38",
        Site::Mem {
            word: 262_143,
            bit: 38,
        },
    ),
    ("flip 0x3E7 mem 0 0x0\r\n", Site::Mem { word: 0, bit: 0 }),
];

fn flips() -> &'static [(&'static str, Site)] {
    &FLIPS
}

// The flip of a text that is accepted.
fn accepted_flip(alloc: Global, text: &str) -> Option<Flip> {
    if text.len() > 1_000_000 {
        return None;
    }
    match read(alloc, text.as_bytes(), &bounds(1)) {
        Ok(plan) => plan.flip(),
        Err(_) => None,
    }
}

// Why a text is refused under this delay; the texts here are short.
fn fault_behind(alloc: Global, text: &str, delay: u8) -> Option<PlanFault> {
    if text.len() > 1_000_000 {
        return Some(PlanFault::Memory);
    }
    let mut least = bounds(1);
    least.delay = delay;
    match read(alloc, text.as_bytes(), &least) {
        Ok(_) => None,
        Err(fault) => Some(fault),
    }
}

static SLOT_ROWS: [(&str, u8, bool); 6] = [
    ("flip 3 delay 0 lines 0", 1, true),
    ("flip 3 delay 1 lines 0", 1, false),
    ("flip 3 delay 2 lines 0", 2, false),
    ("flip 3 delay 2 lines 0", 3, true),
    ("flip 3 delay 3 lines 0", 4, true),
    ("flip 3 delay 4 lines 0", 4, false),
];

fn slot_rows() -> &'static [(&'static str, u8, bool)] {
    &SLOT_ROWS
}

// There are as many slots as the delay.
#[test]
fn slots_of_each_delay(rt: HostRuntime) {
    for row in slot_rows() {
        let expected = if row.2 {
            None
        } else {
            Some(PlanFault::Line(1, LineKind::Range))
        };
        assert_eq!(rt;
            fault_behind(rt.alloc(), row.0, row.1),
            expected,
            "at {} with {}",
            row.0,
            row.1
        );
    }
}

fn lists(alloc: Global) -> Option<Plan> {
    let text =
        b"iwait 2 1\r\n dwait\t0xfF  0000000255 \n#irq 1 8\nirq 3 8\niwait 0 0\nirq 0x10 0x7fff0888";
    read(alloc, text, &bounds(0)).ok()
}

static LINES: [(u64, u32); 5] = [
    (2, 0),
    (3, 8),
    (15, 8),
    (16, 0x7fff_0888),
    (u64::MAX, 0x7fff_0888),
];

fn line_rows() -> &'static [(u64, u32)] {
    &LINES
}

#[test]
fn accepted_texts(rt: HostRuntime) -> Result<(), Fail> {
    for row in flips() {
        let flip = Flip {
            cycle: 999,
            site: row.1,
        };
        assert!(rt;
            accepted_flip(rt.alloc(), row.0) == Some(flip),
            "at {}",
            row.0
        );
        assert!(rt; row.1.fits(262_144, 2), "at {}", row.0);
    }
    let plan = lists(rt.alloc()).ok_or("refused")?;
    let iwaits = [
        Wait {
            grant: 2,
            answer: 1,
        },
        Wait {
            grant: 0,
            answer: 0,
        },
    ];
    let dwaits = [Wait {
        grant: 255,
        answer: 255,
    }];
    assert!(rt; plan.iwaits() == iwaits.as_slice());
    assert!(rt; plan.dwaits() == dwaits.as_slice());
    for row in line_rows() {
        assert_eq!(rt; plan.lines(row.0), row.1, "at cycle {}", row.0);
    }
    assert!(rt; plan.flip().is_none());
    Ok(())
}

// The lines of each cycle below a count: 8 in the odd ones.
fn alternating(alloc: Global, count: u32) -> Result<String, AllocError> {
    let mut text = String::new(alloc);
    for cycle in 0..count {
        let mask = if cycle % 2 == 1 { 8 } else { 0 };
        let line = format!(in alloc; "irq {cycle} {mask}\n")?;
        text.push_str(line.as_str())?;
    }
    Ok(text)
}

fn full(alloc: Global) -> Option<Plan> {
    let text = alternating(alloc, 65_536).ok()?;
    if text.len() > 2_000_000 {
        return None;
    }
    read(alloc, text.as_bytes(), &bounds(0)).ok()
}

fn counted<L: Ledger>(plan: &Plan, cycle: u64, blank: Blank) -> u32
    requires name { blank.name ≡ L.name }
    requires parts { blank.parts ≡ L.parts }
    requires some { 0 < blank.parts }
{
    let mut steps = Steps::<L>::new(blank);
    plan.lines_counted(cycle, &mut steps)
}

static FULL_ROWS: [(u64, u32); 3] = [(65_535, 8), (65_536, 8), (40_000, 0)];

fn full_rows() -> &'static [(u64, u32)] {
    &FULL_ROWS
}

#[test]
fn lines_of_a_full_list(rt: HostRuntime) -> Result<(), Fail> {
    let plan = full(rt.alloc()).ok_or("refused")?;
    for row in full_rows() {
        assert_eq!(rt; plan.lines(row.0), row.1, "at cycle {}", row.0);
        assert_eq!(rt;
            counted::<Brand>(&plan, row.0, Blank::new(1)),
            row.1,
            "at cycle {}",
            row.0
        );
    }
    Ok(())
}

static FIELD_ROWS: [(&str, u8, u8); 16] = [
    ("f_busy", 0, 1),
    ("buf0", 4, 33),
    ("c_walk", 15, 9),
    ("id_valid", 17, 1),
    ("md_a", 24, 64),
    ("ls_state", 27, 3),
    ("lfsr", 29, 32),
    ("priv", 32, 1),
    ("mcycle", 42, 64),
    ("pmpcfg0", 44, 32),
    ("pmpaddr0", 48, 32),
    ("mstatus_n", 64, 32),
    ("pmpcfg0_n", 67, 32),
    ("pmpaddr15_n", 86, 32),
    ("mseccfg", 87, 32),
    ("mseccfg_n", 88, 32),
];

fn field_rows() -> &'static [(&'static str, u8, u8)] {
    &FIELD_ROWS
}

#[test]
fn fields_by_name(rt: HostRuntime) {
    for row in field_rows() {
        assert_eq!(rt; field_named(row.0), Some(row.1), "at {}", row.0);
        assert!(rt; row.1 < FIELDS);
        assert_eq!(rt; width(row.1), row.2, "at {}", row.0);
    }
    assert_eq!(rt; field_named("pmpaddr16"), None);
    assert_eq!(rt; field_named(""), None);
}
