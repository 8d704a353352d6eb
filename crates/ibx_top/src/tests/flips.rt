//! Flips, and the plans that name them.
use super::{ENTRY, HALT, HALT_TEXT, call, elf};
use ibx_base::MemFiles;
use std::alloc::Global;
use std::test::Fail;

/// `lui x5, 0x100`, `sb x0, 0xa0(x5)` and `lw x8, 0xa0(x5)`, and the three that halt.
const LOADING: [u32; 6] = [
    0x0010_02b7,
    0x0a02_8023,
    0x0a02_a403,
    0x0002_0337,
    0x0010_0393,
    0x0073_2423,
];

/// The file `halt`, which stores and ends, `load`, which loads a word of RAM before, `cut`, which is no program, and a
/// plan `p`.
fn files_with(alloc: Global, plan: &str) -> Result<MemFiles, Fail> {
    let halt = elf(alloc, ENTRY, 1, &[[1, 84, ENTRY, 12, 12]], &HALT)?;
    let load = elf(alloc, ENTRY, 1, &[[1, 84, ENTRY, 24, 24]], &LOADING)?;
    let mut cut = elf(alloc, ENTRY, 1, &[[1, 84, ENTRY, 12, 12]], &HALT)?;
    cut.truncate(51);
    let mut files = MemFiles::new(alloc);
    files.add("halt", &halt)?;
    files.add("load", &load)?;
    files.add("cut", &cut)?;
    files.add("p", plan.as_bytes())?;
    Ok(files)
}

#[test]
fn flips_are_told_or_change_nothing(rt: HostRuntime) -> Result<(), Fail> {
    // The words, the plan, the status, and what is written.
    let rows = [
        (
            "inject halt --plan p --cycles 5",
            "flip 4 main id_word 15",
            8,
            "diff 4\nalert 7 internal\n",
        ),
        (
            "inject halt --plan p --cycles 5 --delay 1",
            "flip 4 main id_word 15",
            8,
            "diff 4\nalert 6 internal\n",
        ),
        (
            "inject halt --plan p --cycles 5 --delay 4",
            "flip 4 main id_word 15",
            8,
            "diff 4\nalert 9 internal\n",
        ),
        (
            "inject halt --plan p --cycles 10",
            "flip 4 shadow id_word 15",
            8,
            "diff none\nalert 5 internal\n",
        ),
        // What the comparator keeps is an alert in the same cycle.
        (
            "inject halt --plan p --cycles 10",
            "flip 3 delay 0 told 0",
            8,
            "diff none\nalert 3 internal\n",
        ),
        // A register that isn't read, a check bit of one that is, and the bit of one that is stored.
        (
            "inject halt --plan p --cycles 10",
            "flip 3 reg 31 0",
            0,
            "diff none\nalert none\n",
        ),
        (
            "inject halt --plan p --cycles 6",
            "flip 4 reg 6 32",
            8,
            "diff none\nalert 4 internal\n",
        ),
        (
            "inject halt --plan p --cycles 6",
            "flip 4 reg 7 0",
            8,
            "diff 4\nalert 4 internal\n",
        ),
        // The loaded word in RAM, and in the answer of the data port.
        (
            "inject load --plan p --cycles 20",
            "flip 1 mem 40 24",
            8,
            "diff 7\nalert 6 bus\n",
        ),
        (
            "inject load --plan p --cycles 20",
            "flip 6 answer 1 0",
            8,
            "diff 7\nalert 6 bus\n",
        ),
    ];
    for (line, plan, status, out) in rows {
        let mut files = files_with(rt.alloc(), plan)?;
        let shown = call(rt.alloc(), line, &mut files, 0, 0)?;
        assert_eq!(rt; shown.out.bytes(), out.as_bytes(), "{plan}");
        assert_eq!(rt; shown.err.bytes(), b"".as_slice(), "{plan}");
        assert_eq!(rt; shown.code, status, "{plan}");
        assert_eq!(rt; shown.seal, 0);
    }
    Ok(())
}

#[test]
fn plans_are_refused(rt: HostRuntime) -> Result<(), Fail> {
    let rows = [
        (
            "flip 3 reg 31 0\nflip 4 reg 31 0",
            "ibex: p: plan line 2 flip\n",
        ),
        ("iwait 1 0", "ibex: p: no flip\n"),
        ("", "ibex: p: no flip\n"),
        ("iwait 256 0", "ibex: p: plan line 1 range\n"),
        ("iwait 1", "ibex: p: plan line 1 word\n"),
        ("iwait a 0", "ibex: p: plan line 1 number\n"),
        ("irq 5 8\nirq 5 0", "ibex: p: plan line 2 order\n"),
        ("flip 0 mem 262144 0", "ibex: p: plan line 1 range\n"),
        // The budget is 10 cycles, and the delay 2.
        ("flip 10 reg 31 0", "ibex: p: plan line 1 range\n"),
        ("flip 3 delay 2 lines 0", "ibex: p: plan line 1 range\n"),
    ];
    for (plan, err) in rows {
        let mut files = files_with(rt.alloc(), plan)?;
        let shown = call(
            rt.alloc(),
            "inject halt --plan p --cycles 10",
            &mut files,
            0,
            0,
        )?;
        assert_eq!(rt; shown.out.bytes(), b"".as_slice(), "{plan}");
        assert_eq!(rt; shown.err.bytes(), err.as_bytes(), "{plan}");
        assert_eq!(rt; shown.code, 6, "{plan}");
    }
    Ok(())
}

#[test]
fn a_run_takes_no_flip(rt: HostRuntime) -> Result<(), Fail> {
    let mut files = files_with(rt.alloc(), "# waits\niwait 1 0\nflip 3 reg 31 0")?;
    let shown = call(rt.alloc(), "run halt --plan p", &mut files, 0, 0)?;
    assert_eq!(rt; shown.out.bytes(), b"".as_slice());
    assert_eq!(rt;
        shown.err.bytes(),
        b"ibex: p: plan line 3 flip\n".as_slice()
    );
    assert_eq!(rt; shown.code, 6);
    Ok(())
}

#[test]
fn the_plan_is_read_and_followed_first(rt: HostRuntime) -> Result<(), Fail> {
    // The words, the plan, the call of the files that fails (0 for none), the status, and the line.
    let rows = [
        (
            "inject other --plan q",
            "flip 3 reg 31 0",
            0,
            3,
            "ibex: cannot read q\n",
        ),
        (
            "inject other --plan p",
            "flip 3 reg 32 0",
            0,
            6,
            "ibex: p: plan line 1 range\n",
        ),
        (
            "inject other --plan p",
            "flip 3 reg 31 0",
            0,
            3,
            "ibex: cannot read other\n",
        ),
        (
            "inject cut --plan p",
            "flip 3 reg 32 0",
            0,
            6,
            "ibex: p: plan line 1 range\n",
        ),
        (
            "inject cut --plan p",
            "flip 3 reg 31 0",
            0,
            5,
            "ibex: cut: elf fault 1\n",
        ),
        (
            "inject halt --plan p",
            "flip 3 reg 31 0",
            2,
            3,
            "ibex: cannot read p\n",
        ),
        (
            "inject halt --plan p",
            "flip 3 reg 31 0",
            4,
            3,
            "ibex: cannot read halt\n",
        ),
    ];
    for (line, plan, failing, status, err) in rows {
        let mut files = files_with(rt.alloc(), plan)?;
        files.fail_at(failing)?;
        let shown = call(rt.alloc(), line, &mut files, 0, 0)?;
        assert_eq!(rt; shown.out.bytes(), b"".as_slice(), "{err}");
        assert_eq!(rt; shown.err.bytes(), err.as_bytes(), "{err}");
        assert_eq!(rt; shown.code, status, "{err}");
    }
    Ok(())
}

#[test]
fn a_verdict_is_cut_short(rt: HostRuntime) -> Result<(), Fail> {
    // The write that fails, and what was written before.
    let rows = [(1, ""), (2, "diff 4\n")];
    for (failing, out) in rows {
        let mut files = files_with(rt.alloc(), "flip 4 main id_word 15")?;
        let shown = call(
            rt.alloc(),
            "inject halt --plan p --cycles 5",
            &mut files,
            failing,
            0,
        )?;
        assert_eq!(rt; shown.out.bytes(), out.as_bytes());
        assert_eq!(rt; shown.err.bytes(), b"ibex: cannot write\n".as_slice());
        assert_eq!(rt; shown.code, 4);
    }
    Ok(())
}

#[test]
fn long_plans_are_refused(rt: HostRuntime) -> Result<(), Fail> {
    let comment = vec![in rt.alloc(); b'#'; 4_194_305]?;
    let mut waits = Vec::new(rt.alloc());
    for _ in 0..65_537 {
        waits.extend_from_slice(b"iwait 0 0\n")?;
    }
    let rows = [
        (comment, "ibex: p: too long\n"),
        (waits, "ibex: p: plan line 65537 too many\n"),
    ];
    for (plan, err) in &rows {
        let mut files = MemFiles::new(rt.alloc());
        files.add("p", plan)?;
        let shown = call(rt.alloc(), "inject a --plan p", &mut files, 0, 0)?;
        assert_eq!(rt; shown.err.bytes(), err.as_bytes());
        assert_eq!(rt; shown.out.bytes(), b"".as_slice());
        assert_eq!(rt; shown.code, 6);
    }
    Ok(())
}
