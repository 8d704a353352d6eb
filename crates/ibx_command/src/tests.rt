use crate::{Assemble, Command, Disassemble, Generate, Inject, Options, Run, Twin, read_words};
use ibx_elf::Ram;
use ibx_isa::MulKind;
use ibx_lockstep::Delay;
use std::alloc::Global;
use std::test::Fail;

const CYCLES: u64 = 1_000_000;

const BASE: u32 = 0x0010_0000;

const SIZE: u32 = 1_048_576;

/// The words of a line, between its spaces.
fn words_of(alloc: Global, line: &str) -> Result<Vec<String>, Fail> {
    let mut words = Vec::new(alloc);
    for word in line.split(' ') {
        words.push(String::from_str(alloc, word)?)?;
    }
    Ok(words)
}

fn run(file: &str, cycles: u64, base: u32, size: u32) -> Command<'_> {
    Command::Run(Run {
        file,
        plan: None,
        options: Options {
            cycles,
            ram: Ram { base, size },
            mul: MulKind::Fast,
            delay: Delay::Two,
        },
    })
}

fn inject<'w>(
    file: &'w str,
    plan: &'w str,
    cycles: u64,
    mul: MulKind,
    base: u32,
    size: u32,
) -> Command<'w> {
    Command::Inject(Inject {
        file,
        plan,
        options: Options {
            cycles,
            ram: Ram { base, size },
            mul,
            delay: Delay::Two,
        },
    })
}

fn twin<'w>(first: &'w str, second: &'w str, plan: Option<&'w str>, cycles: u64) -> Command<'w> {
    Command::Twin(Twin {
        first,
        second,
        plan,
        options: Options {
            cycles,
            ram: Ram {
                base: BASE,
                size: SIZE,
            },
            mul: MulKind::Fast,
            delay: Delay::Two,
        },
    })
}

fn generate(seed: u32, cycles: u64, mul: MulKind) -> Command<'static> {
    Command::Generate(Generate {
        seed,
        options: Options {
            cycles,
            ram: Ram {
                base: BASE,
                size: SIZE,
            },
            mul,
            delay: Delay::Two,
        },
    })
}

fn disassemble(file: &str, base: u32, size: u32) -> Command<'_> {
    Command::Disassemble(Disassemble {
        file,
        ram: Ram { base, size },
    })
}

#[test]
fn reads_what_fits(rt: HostRuntime) -> Result<(), Fail> {
    let rows = [
        ("run a", run("a", CYCLES, BASE, SIZE)),
        ("run a --cycles 1", run("a", 1, BASE, SIZE)),
        (
            "run a --mul slow --plan p --delay 0x4",
            Command::Run(Run {
                file: "a",
                plan: Some("p"),
                options: Options {
                    cycles: CYCLES,
                    ram: Ram {
                        base: BASE,
                        size: SIZE,
                    },
                    mul: MulKind::Slow,
                    delay: Delay::Four,
                },
            }),
        ),
        (
            "run --cycles 1000000000 a.elf",
            run("a.elf", 1_000_000_000, BASE, SIZE),
        ),
        ("run a --cycles 0xFfFf", run("a", 65_535, BASE, SIZE)),
        ("run a --cycles 0000000007", run("a", 7, BASE, SIZE)),
        (
            "run --ram-size 0x20000 a --ram-base 0",
            run("a", CYCLES, 0, 131_072),
        ),
        (
            "run a --ram-base 0x21000",
            run("a", CYCLES, 0x0002_1000, SIZE),
        ),
        (
            "run a --ram-base 4293918720",
            run("a", CYCLES, 0xFFF0_0000, SIZE),
        ),
        ("run a --ram-size 4096", run("a", CYCLES, BASE, 4_096)),
        (
            "run --ram-size 16777216 --cycles 2 --ram-base 0x80000000 b",
            run("b", 2, 0x8000_0000, 16_777_216),
        ),
        (
            "inject a --plan p",
            inject("a", "p", CYCLES, MulKind::Fast, BASE, SIZE),
        ),
        (
            "inject --plan a a",
            inject("a", "a", CYCLES, MulKind::Fast, BASE, SIZE),
        ),
        (
            "inject --mul slow --plan p a --cycles 5",
            inject("a", "p", 5, MulKind::Slow, BASE, SIZE),
        ),
        (
            "inject a --mul single --plan p",
            inject("a", "p", CYCLES, MulKind::Single, BASE, SIZE),
        ),
        (
            "inject a --mul fast --ram-size 4096 --plan p --ram-base 0x21000",
            inject("a", "p", CYCLES, MulKind::Fast, 0x0002_1000, 4_096),
        ),
        ("twin a b", twin("a", "b", None, CYCLES)),
        ("twin b a", twin("b", "a", None, CYCLES)),
        ("twin a --plan p --cycles 9 a", twin("a", "a", Some("p"), 9)),
        ("gen 0", generate(0, CYCLES, MulKind::Fast)),
        (
            "gen --mul slow 0xffffffff --cycles 5",
            generate(0xFFFF_FFFF, 5, MulKind::Slow),
        ),
        (
            "gen 4294967295",
            generate(4_294_967_295, CYCLES, MulKind::Fast),
        ),
        ("asm a.s", Command::Assemble(Assemble { file: "a.s" })),
        ("dis a", disassemble("a", BASE, SIZE)),
        (
            "dis --ram-size 4096 a --ram-base 0x21000",
            disassemble("a", 0x0002_1000, 4_096),
        ),
    ];
    for (line, command) in rows {
        let words = words_of(rt.alloc(), line)?;
        assert_eq!(rt; read_words(words.as_slice()), Some(command), "at {line}");
    }
    Ok(())
}

#[test]
fn refuses_what_does_not_fit(rt: HostRuntime) -> Result<(), Fail> {
    let lines = [
        "",
        "run",
        "run a b",
        "run a --cycles 0",
        "run a --cycles",
        "fly a",
        "run a --ram-size 4095",
        "inject a",
        "Run a",
        "--cycles 5 run a",
        "run  a",
        "run a ",
        "run -a",
        "run - a",
        "run --cycles a",
        "run a --cycles 5 --cycles 5",
        "run a --cycles -5",
        "run a --cycles 1000000001",
        "run a --cycles 00000000001",
        "run a --cycles 0x",
        "run a --cycles 0X10",
        "run a --cycles 0x100000000",
        "run a --cycle 5",
        "run a --mul quick",
        "run a --mul fast --mul fast",
        "run a --delay 0",
        "run a --delay 5",
        "run a --delay two",
        "run a --delay 2 --delay 2",
        "gen 1 --delay 2",
        "dis a --delay 2",
        "run a --plan",
        "run a --plan ",
        "run a --plan p --plan p",
        "run a --ram-base 0",
        "run a --ram-base 0 --ram-size 0x21000",
        "run a --ram-base 0x20000",
        "run a --ram-base 0x80000800",
        "run a --ram-base 0xFFF01000",
        "run a --ram-base 4294967296",
        "run a --ram-size 0",
        "run a --ram-size 16781312",
        "inject",
        "inject --plan p",
        "inject a --plan",
        "inject a --plan ",
        "inject a --plan -p",
        "inject a --plan p --plan p",
        "inject a b --plan p",
        "inject a --plan p --mul",
        "inject a --plan p --mul quick",
        "inject a --plan p --mul Fast",
        "inject a --plan p --mul fast --mul fast",
        "inject a --plan p --cycles 0",
        "inject a --plan p --ram-base 0",
        "inject a --plan p --seed 1",
        "twin",
        "twin a",
        "twin a b c",
        "twin a b --plan p --plan p",
        "twin a b --mul quick",
        "twin a --plan p",
        "gen",
        "gen a",
        "gen 4294967296",
        "gen 0x100000000",
        "gen -1",
        "gen 1 2",
        "gen 1 --plan p",
        "gen 1 --ram-size 4096",
        "gen 1 --cycles 0",
        "asm",
        "asm a b",
        "asm a --cycles 5",
        "asm a --ram-base 0x80000000",
        "dis",
        "dis a b",
        "dis a --cycles 5",
        "dis a --plan p",
        "dis a --ram-size 4095",
    ];
    for line in lines {
        let words = words_of(rt.alloc(), line)?;
        assert!(rt; read_words(words.as_slice()).is_none(), "at {line}");
    }
    assert!(rt; read_words(&[]).is_none());
    Ok(())
}
