use crate::{Observer, Part, TimeView, part_of};
use ibx_elf::Ram;
use ibx_isa::{Access, Event, MulKind, is_long, view};
use std::process::Abort;

const RAM: Ram = Ram {
    base: 0x10_0000,
    size: 0x10_0000,
};

const PC: u32 = 0x10_0080;

/// `csrrsi x0, cpuctrl, 2`: from here on times are equal whatever the operands are.
fn fixes() -> Event {
    retired(0x7c01_6073, None, Some(2), (0, 0))
}

/// An instruction that retired at cycle 5.
fn retired(word: u32, mem: Option<Access>, ctl: Option<u32>, operands: (u32, u32)) -> Event {
    Event::Retire {
        cycle: 5,
        pc: PC,
        word,
        rd: 0,
        value: 0,
        mem,
        ctl,
        ops: Some(operands),
    }
}

fn computes(word: u32, a: u32, b: u32) -> Event {
    retired(word, None, None, (a, b))
}

fn loads(word: u32, addr: u32, size: u8) -> Event {
    let mem = Access {
        addr,
        size,
        store: false,
        value: 0,
    };
    retired(word, Some(mem), None, (addr, 0))
}

/// `csrw cpuctrl, x11`.
fn controls(value: u32) -> Event {
    retired(0x7c05_9073, None, Some(value), (value, 0))
}

const TRAP: Event = Event::Trap {
    cycle: 5,
    pc: PC,
    word: 0,
    cause: 2,
    tval: 0,
    addr: 0,
};

const INTERRUPT: Event = Event::Irq {
    cycle: 5,
    pc: PC,
    cause: 7,
};

fn see(rt: &impl Abort, observer: &mut Observer, event: &Event) -> TimeView {
    let word = view(event).word;
    if !is_long(word) && word > 0xffff {
        panic!(rt; "a word or a halfword");
    }
    observer.observe(event)
}

/// The part that tells two events apart, with the usual timing or with fixed timing.
fn told(rt: &impl Abort, mul: MulKind, fixed: bool, a: &Event, b: &Event) -> Option<Part> {
    let mut of_a = Observer::new(RAM, mul);
    let mut of_b = Observer::new(RAM, mul);
    if fixed {
        see(rt, &mut of_a, &fixes());
        see(rt, &mut of_b, &fixes());
    }
    part_of(&see(rt, &mut of_a, a), &see(rt, &mut of_b, b))
}

// What shows of an event by our own rules of time: costs of divisions, branches and the slow multiplier, portions,
// lengths, paths and writes of registers that control time, and no other operand.
#[test]
fn parts_that_tell_two_events_apart(rt: HostRuntime) {
    use MulKind::{Fast, Slow};
    let division = (computes(0x02c5_d533, 7, 0), computes(0x02c5_d533, 7, 3));
    let product = (computes(0x02c5_8533, 7, 1), computes(0x02c5_8533, 7, 255));
    let branch = (computes(0x00c5_8463, 1, 1), computes(0x00c5_8463, 1, 2));
    let xor = computes(0x00c5_c533, 1, 3);
    let add = computes(0x00c5_8533, 1, 3);
    let word = loads(0x0005_a503, 0x10_0200, 4);
    let rows = [
        (
            "divisions by 0 and by 3",
            Fast,
            false,
            division.0,
            division.1,
            Some(Part::Cost),
        ),
        (
            "the same with fixed timing",
            Fast,
            true,
            division.0,
            division.1,
            None,
        ),
        (
            "slow products by 1 and by 255",
            Slow,
            false,
            product.0,
            product.1,
            Some(Part::Cost),
        ),
        ("fast ones", Fast, false, product.0, product.1, None),
        (
            "a branch that is taken or not",
            Fast,
            false,
            branch.0,
            branch.1,
            Some(Part::Cost),
        ),
        (
            "two xors",
            Fast,
            false,
            xor,
            computes(0x00c5_c533, 5, 6),
            None,
        ),
        ("an add for a xor", Fast, false, xor, add, None),
        (
            "an add in 16 bits",
            Fast,
            false,
            add,
            computes(0x952e, 1, 3),
            Some(Part::Length),
        ),
        (
            "two aligned loads",
            Fast,
            false,
            word,
            loads(0x0005_a503, 0x10_0404, 4),
            None,
        ),
        (
            "a misaligned load",
            Fast,
            false,
            word,
            loads(0x0005_a503, 0x10_0202, 4),
            Some(Part::Access),
        ),
        (
            "a lookup of bytes in one word",
            Fast,
            false,
            loads(0x0005_c503, 0x10_0200, 1),
            loads(0x0005_c503, 0x10_0203, 1),
            None,
        ),
        (
            "a lookup of halfwords over two words",
            Fast,
            false,
            loads(0x0005_d503, 0x10_0201, 2),
            loads(0x0005_d503, 0x10_0203, 2),
            Some(Part::Access),
        ),
        (
            "two writes of cpuctrl",
            Fast,
            false,
            controls(1),
            controls(2),
            Some(Part::Control),
        ),
        ("a trap", Fast, false, xor, TRAP, Some(Part::Path)),
        (
            "an interrupt",
            Fast,
            false,
            TRAP,
            INTERRUPT,
            Some(Part::Path),
        ),
    ];
    for (name, mul, fixed, a, b, expected) in rows {
        assert_eq!(rt; told(&rt, mul, fixed, &a, &b), expected, "{name}");
    }
}

/// A comparison of two bytes in constant time, and a branch on what it found: `lbu`, `lbu`, `xor`, `or`, `bne`.
fn compares(secret: u32, guess: u32) -> [Event; 5] {
    let difference = secret ^ guess;
    [
        loads(0x0005_c503, 0x10_0200, 1),
        loads(0x0006_4583, 0x10_0300, 1),
        computes(0x00b5_4533, secret, guess),
        computes(0x00a6_e6b3, 0, difference),
        computes(0x0006_9463, difference, 0),
    ]
}

// A comparison in constant time shows its answer alone, by the branch on it.
#[test]
fn comparison_in_constant_time(rt: HostRuntime) {
    let rows = [
        (
            "two wrong guesses",
            compares(0x31, 0x32),
            compares(0x31, 0xff),
            None,
        ),
        (
            "a wrong and the right one",
            compares(0x31, 0x32),
            compares(0x31, 0x31),
            Some((4, Part::Cost)),
        ),
    ];
    for (name, a, b, expected) in rows {
        let mut of_a = Observer::new(RAM, MulKind::Fast);
        let mut of_b = Observer::new(RAM, MulKind::Fast);
        let mut found = None;
        for at in 0..5 {
            let part = part_of(&see(&rt, &mut of_a, &a[at]), &see(&rt, &mut of_b, &b[at]));
            if found.is_none() {
                found = part.map(|part| (at, part));
            }
        }
        assert_eq!(rt; found, expected, "{name}");
    }
}
