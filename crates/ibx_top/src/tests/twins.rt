//! Two programs compared, and the order of the answers.
use super::{ENTRY, call, elf};
use ibx_base::MemFiles;
use std::alloc::Global;
use std::process::Abort;
use std::test::Fail;

/// `csrrsi x0, cpuctrl, 2`: from here on times are equal whatever the operands are.
const SET_TIMING: u32 = 0x7c01_6073;

/// `addi x0, x0, 0`.
const IDLE: u32 = 0x0000_0013;

/// `lui x6, 0x20`, `addi x7, x0, 1` and `sw x7, 8(x6)`, which halts.
const HALT: [u32; 9] = [0x0002_0337, 0x0010_0393, 0x0073_2423, 0, 0, 0, 0, 0, 0];

/// The same after an idle word.
const LATER: [u32; 9] = [IDLE, 0x0002_0337, 0x0010_0393, 0x0073_2423, 0, 0, 0, 0, 0];

/// A first word, a division of RAM's base by the last word, and the three that halt.
const fn dividing(first: u32, by: u32) -> [u32; 9] {
    [
        first,
        0x0010_0537,
        0x0a05_2403,
        0x0285_44b3,
        0x0002_0337,
        0x0010_0393,
        0x0073_2423,
        0,
        by,
    ]
}

/// A store of the last word to where bit 0 halts, and idle words.
const fn storing(value: u32) -> [u32; 9] {
    [
        SET_TIMING,
        0x0002_0337,
        0x0010_0537,
        0x0a05_2383,
        0x0073_2423,
        IDLE,
        IDLE,
        IDLE,
        value,
    ]
}

/// A load of the word at an address of the first page, which isn't there.
const fn loading(addr: u32) -> [u32; 9] {
    [addr << 20 | 0x503, 0, 0, 0, 0, 0, 0, 0, 0]
}

/// What a division by a secret shows.
const DIVISIONS: &str = "differ 3\n\
                         a R 0010008c 028544b3 op=00100000,00000007\n\
                         b R 0010008c 028544b3 op=00100000,00000000\n";

/// Two programs: what they show, the words of the call, their code, the status, and what is written.
type Row = (
    &'static str,
    &'static str,
    [u32; 9],
    [u32; 9],
    u8,
    &'static str,
);

/// The files of a call: `a` and `b`, the plans `wait` and `flip`, and `cut`, which is no file.
fn files(alloc: Global, a: &[u32; 9], b: &[u32; 9]) -> Result<MemFiles, Fail> {
    let header = [1, 84, ENTRY, 36, 36];
    let mut files = MemFiles::new(alloc);
    files.add("a", &elf(alloc, ENTRY, 1, &[header], a)?)?;
    files.add("b", &elf(alloc, ENTRY, 1, &[header], b)?)?;
    files.add("wait", b"iwait 1 0\n")?;
    files.add("flip", b"# none is made here\nflip 4 main id_word 15\n")?;
    files.add("cut", b"\x7fELF")?;
    Ok(files)
}

// Compares a row's programs, and the status and both outputs.
fn compare_row(rt: &impl Abort, alloc: Global, row: &Row) -> Result<(), Fail> {
    let (name, line, a, b, status, out) = row;
    let shown = call(alloc, line, &mut files(alloc, a, b)?, 0, 0)?;
    assert_eq!(rt; shown.out.bytes(), out.as_bytes(), "at {name}");
    assert_eq!(rt; shown.err.bytes(), b"".as_slice(), "at {name}");
    assert_eq!(rt; shown.code, *status, "at {name}");
    Ok(())
}

#[test]
fn pairs(rt: HostRuntime) -> Result<(), Fail> {
    let rows: [Row; 9] = [
        (
            "a division by a secret, with equal times",
            "twin a b",
            dividing(SET_TIMING, 7),
            dividing(SET_TIMING, 0),
            0,
            "same 7\n",
        ),
        (
            "the same with unequal times",
            "twin a b",
            dividing(IDLE, 7),
            dividing(IDLE, 0),
            9,
            DIVISIONS,
        ),
        (
            "by a plan",
            "twin --plan wait a --mul slow b",
            dividing(IDLE, 7),
            dividing(IDLE, 0),
            9,
            DIVISIONS,
        ),
        (
            "a budget before the division is done",
            "twin a b --cycles 6",
            dividing(IDLE, 7),
            dividing(IDLE, 0),
            0,
            "same 3\n",
        ),
        (
            "no event",
            "twin a b --cycles 1",
            HALT,
            LATER,
            0,
            "same 0\n",
        ),
        (
            "another program",
            "twin b a",
            HALT,
            LATER,
            9,
            "differ 0\n\
             a R 00100080 00000013 op=00000000,00000000\n\
             b R 00100080 00020337 op=00000000,00000000\n",
        ),
        (
            "a story that ends",
            "twin a b",
            storing(1),
            storing(0),
            9,
            "differ 5\na end\nb R 00100094 00000013\n",
        ),
        (
            "the other one ends",
            "twin b a",
            storing(1),
            storing(0),
            9,
            "differ 5\na R 00100094 00000013\nb end\n",
        ),
        (
            "refused loads",
            "twin a b --cycles 20",
            loading(0),
            loading(4),
            9,
            "differ 0\n\
             a T 00100080 00000503 cause=5 tval=00000000 a=00000000\n\
             b T 00100080 00400503 cause=5 tval=00000004 a=00000004\n",
        ),
    ];
    for row in &rows {
        compare_row(&rt, rt.alloc(), row)?;
    }
    Ok(())
}

// What is read first is answered first, and nothing is on the output then.
#[test]
fn answers_in_order(rt: HostRuntime) -> Result<(), Fail> {
    let rows: [(&str, u8, &str); 10] = [
        ("twin a", 2, "ibex: bad words\n"),
        ("twin a b c", 2, "ibex: bad words\n"),
        ("twin a missing", 3, "ibex: cannot read missing\n"),
        ("twin missing cut", 3, "ibex: cannot read missing\n"),
        ("twin cut missing", 5, "ibex: cut: elf fault 1\n"),
        ("twin a cut", 5, "ibex: cut: elf fault 1\n"),
        (
            "twin missing cut --plan gone",
            3,
            "ibex: cannot read gone\n",
        ),
        (
            "twin missing cut --plan cut",
            6,
            "ibex: cut: plan line 1 word\n",
        ),
        (
            "twin cut b --plan flip",
            6,
            "ibex: flip: plan line 2 flip\n",
        ),
        ("twin cut b --plan wait", 5, "ibex: cut: elf fault 1\n"),
    ];
    for (line, status, err) in rows {
        let alloc = rt.alloc();
        let shown = call(alloc, line, &mut files(alloc, &HALT, &HALT)?, 0, 0)?;
        assert_eq!(rt; shown.err.bytes(), err.as_bytes(), "at {line}");
        assert_eq!(rt; shown.out.bytes(), b"".as_slice(), "at {line}");
        assert_eq!(rt; (shown.code, shown.seal), (status, 0), "at {line}");
    }
    Ok(())
}

// The output has the whole lines before the write that fails.
#[test]
fn a_full_output(rt: HostRuntime) -> Result<(), Fail> {
    let rows: [(u64, &str); 3] = [
        (1, ""),
        (2, "differ 3\n"),
        (3, "differ 3\na R 0010008c 028544b3 op=00100000,00000007\n"),
    ];
    for (fails, out) in rows {
        let alloc = rt.alloc();
        let mut files = files(alloc, &dividing(IDLE, 7), &dividing(IDLE, 0))?;
        let shown = call(alloc, "twin a b", &mut files, fails, 0)?;
        assert_eq!(rt; shown.out.bytes(), out.as_bytes(), "at write {fails}");
        assert_eq!(rt;
            shown.err.bytes(),
            b"ibex: cannot write\n".as_slice(),
            "at write {fails}"
        );
        assert_eq!(rt; (shown.code, shown.seal), (4, 0), "at write {fails}");
    }
    Ok(())
}
