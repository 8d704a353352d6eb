//! Runs of firmware: their events and cycles.
use super::{ENTRY, HALT, HALT_TEXT, call, elf};
use ibx_base::MemFiles;
use std::alloc::Global;
use std::process::Abort;
use std::test::Fail;

/// These three at 0x0010_0000, and an ECALL at the entry.
const HANDLER: [u32; 33] = [
    0x00020337, 0x00100393, 0x00732423, 0, 0, 0, 0, 0, 0, 0, 0, 0, 0, 0, 0, 0, 0, 0, 0, 0, 0, 0, 0,
    0, 0, 0, 0, 0, 0, 0, 0, 0, 0x00000073,
];

/// A handler at 0x0010_0000 that steps over an ECALL and returns, and the ECALL at the entry with the three behind it.
const RETURNING: [u32; 36] = [
    0x34102573, 0x00450513, 0x34151073, 0x30200073, 0, 0, 0, 0, 0, 0, 0, 0, 0, 0, 0, 0, 0, 0, 0, 0,
    0, 0, 0, 0, 0, 0, 0, 0, 0, 0, 0, 0, 0x00000073, 0x00020337, 0x00100393, 0x00732423,
];

/// A run: what it shows, its words, its plan, where its code lies, its code, its status, and what is written.
type Row = (
    &'static str,
    &'static str,
    &'static str,
    u32,
    &'static [u32],
    u8,
    &'static str,
);

// Runs a row, and compares its status and both outputs.
fn run_row(rt: &impl Abort, alloc: Global, row: Row) -> Result<(), Fail> {
    let (name, line, plan, paddr, code, status, out) = row;
    let bytes = u32::try_from(code.len())?.saturating_mul(4);
    let file = elf(alloc, ENTRY, 1, &[[1, 84, paddr, bytes, bytes]], code)?;
    let mut files = MemFiles::new(alloc);
    files.add("a", &file)?;
    files.add("p", plan.as_bytes())?;
    let shown = call(alloc, line, &mut files, 0, 0)?;
    assert_eq!(rt; shown.out.bytes(), out.as_bytes(), "at {name}");
    assert_eq!(rt; shown.err.bytes(), b"".as_slice(), "at {name}");
    assert_eq!(rt; shown.code, status, "at {name}");
    Ok(())
}

#[test]
fn budgets_and_waits(rt: HostRuntime) -> Result<(), Fail> {
    let rows: [Row; 6] = [
        ("halts", "run a", "", ENTRY, &HALT, 0, HALT_TEXT),
        (
            "a budget of one cycle",
            "run a --cycles 1",
            "",
            ENTRY,
            &HALT,
            1,
            "E budget 1 0\n",
        ),
        (
            "a budget before the second event",
            "run a --cycles 3",
            "",
            ENTRY,
            &HALT,
            1,
            "R 2 00100080 00020337 x06=00020000\n\
             E budget 3 1\n",
        ),
        (
            "a budget before the store",
            "run a --cycles 5",
            "",
            ENTRY,
            &HALT,
            1,
            "R 2 00100080 00020337 x06=00020000\n\
             R 3 00100084 00100393 x07=00000001\n\
             E budget 5 2\n",
        ),
        (
            "a budget that the store just fits",
            "run a --cycles 6",
            "",
            ENTRY,
            &HALT,
            0,
            "R 2 00100080 00020337 x06=00020000\n\
             R 3 00100084 00100393 x07=00000001\n\
             R 5 00100088 00732423 m00020008=00000001/4\n\
             E halt 6 3\n",
        ),
        (
            "waits of the instruction port",
            "run a --plan p",
            "iwait 1 0\n",
            ENTRY,
            &HALT,
            0,
            "R 3 00100080 00020337 x06=00020000\n\
             R 5 00100084 00100393 x07=00000001\n\
             R 8 00100088 00732423 m00020008=00000001/4\n\
             E halt 9 3\n",
        ),
    ];
    for row in rows {
        run_row(&rt, rt.alloc(), row)?;
    }
    Ok(())
}

#[test]
fn jumps_and_branches(rt: HostRuntime) -> Result<(), Fail> {
    let rows: [Row; 6] = [
        (
            "a jump to itself",
            "run a --cycles 6",
            "",
            ENTRY,
            &[0x0000006f],
            1,
            "R 2 00100080 0000006f\n\
             R 4 00100080 0000006f\n\
             E budget 6 2\n",
        ),
        (
            "a jump over a word",
            "run a",
            "",
            ENTRY,
            &[0x008000ef, 0x00000000, 0x00020337, 0x00100393, 0x00732423],
            0,
            "R 2 00100080 008000ef x01=00100084\n\
             R 4 00100088 00020337 x06=00020000\n\
             R 5 0010008c 00100393 x07=00000001\n\
             R 7 00100090 00732423 m00020008=00000001/4\n\
             E halt 8 4\n",
        ),
        (
            "a taken branch",
            "run a",
            "",
            ENTRY,
            &[0x00000463, 0x00000000, 0x00020337, 0x00100393, 0x00732423],
            0,
            "R 3 00100080 00000463\n\
             R 5 00100088 00020337 x06=00020000\n\
             R 6 0010008c 00100393 x07=00000001\n\
             R 8 00100090 00732423 m00020008=00000001/4\n\
             E halt 9 4\n",
        ),
        (
            "a branch that isn't taken",
            "run a",
            "",
            ENTRY,
            &[0x00001463, 0x00020337, 0x00100393, 0x00732423],
            0,
            "R 2 00100080 00001463\n\
             R 3 00100084 00020337 x06=00020000\n\
             R 4 00100088 00100393 x07=00000001\n\
             R 6 0010008c 00732423 m00020008=00000001/4\n\
             E halt 7 4\n",
        ),
        (
            "the same in fixed time",
            "run a",
            "",
            ENTRY,
            &[0x7c016073, 0x00001463, 0x00020337, 0x00100393, 0x00732423],
            0,
            "R 2 00100080 7c016073\n\
             R 4 00100084 00001463\n\
             R 6 00100088 00020337 x06=00020000\n\
             R 7 0010008c 00100393 x07=00000001\n\
             R 9 00100090 00732423 m00020008=00000001/4\n\
             E halt 10 5\n",
        ),
        (
            "two compressed instructions",
            "run a",
            "",
            ENTRY,
            &[0x05054501, 0x00020337, 0x00100393, 0x00732423],
            0,
            "R 2 00100080 4501 x10=00000000\n\
             R 3 00100082 0505 x10=00000001\n\
             R 4 00100084 00020337 x06=00020000\n\
             R 5 00100088 00100393 x07=00000001\n\
             R 7 0010008c 00732423 m00020008=00000001/4\n\
             E halt 8 5\n",
        ),
    ];
    for row in rows {
        run_row(&rt, rt.alloc(), row)?;
    }
    Ok(())
}

#[test]
fn multiplication_and_division(rt: HostRuntime) -> Result<(), Fail> {
    let rows: [Row; 5] = [
        (
            "the quotient of 100 by 7",
            "run a",
            "",
            ENTRY,
            &[
                0x06400293, 0x00700413, 0x0282c4b3, 0x00020337, 0x00100393, 0x00732423,
            ],
            0,
            "R 2 00100080 06400293 x05=00000064\n\
             R 3 00100084 00700413 x08=00000007\n\
             R 41 00100088 0282c4b3 x09=0000000e\n\
             R 42 0010008c 00020337 x06=00020000\n\
             R 43 00100090 00100393 x07=00000001\n\
             R 45 00100094 00732423 m00020008=00000001/4\n\
             E halt 46 6\n",
        ),
        (
            "a division by 0",
            "run a",
            "",
            ENTRY,
            &[
                0x06400293, 0x00000413, 0x0282c4b3, 0x00020337, 0x00100393, 0x00732423,
            ],
            0,
            "R 2 00100080 06400293 x05=00000064\n\
             R 3 00100084 00000413 x08=00000000\n\
             R 5 00100088 0282c4b3 x09=ffffffff\n\
             R 6 0010008c 00020337 x06=00020000\n\
             R 7 00100090 00100393 x07=00000001\n\
             R 9 00100094 00732423 m00020008=00000001/4\n\
             E halt 10 6\n",
        ),
        (
            "the same in fixed time",
            "run a",
            "",
            ENTRY,
            &[
                0x7c016073, 0x06400293, 0x00000413, 0x0282c4b3, 0x00020337, 0x00100393, 0x00732423,
            ],
            0,
            "R 2 00100080 7c016073\n\
             R 3 00100084 06400293 x05=00000064\n\
             R 4 00100088 00000413 x08=00000000\n\
             R 42 0010008c 0282c4b3 x09=ffffffff\n\
             R 43 00100090 00020337 x06=00020000\n\
             R 44 00100094 00100393 x07=00000001\n\
             R 46 00100098 00732423 m00020008=00000001/4\n\
             E halt 47 7\n",
        ),
        (
            "the least number by -1",
            "run a",
            "",
            ENTRY,
            &[
                0x800002b7, 0xfff00413, 0x0282c4b3, 0x0282e533, 0x00020337, 0x00100393, 0x00732423,
            ],
            0,
            "R 2 00100080 800002b7 x05=80000000\n\
             R 3 00100084 fff00413 x08=ffffffff\n\
             R 41 00100088 0282c4b3 x09=80000000\n\
             R 79 0010008c 0282e533 x10=00000000\n\
             R 80 00100090 00020337 x06=00020000\n\
             R 81 00100094 00100393 x07=00000001\n\
             R 83 00100098 00732423 m00020008=00000001/4\n\
             E halt 84 7\n",
        ),
        (
            "a product on the slow multiplier",
            "run a --mul slow",
            "",
            ENTRY,
            &[
                0x06400293, 0x00700413, 0x028284b3, 0x00020337, 0x00100393, 0x00732423,
            ],
            0,
            "R 2 00100080 06400293 x05=00000064\n\
             R 3 00100084 00700413 x08=00000007\n\
             R 7 00100088 028284b3 x09=000002bc\n\
             R 8 0010008c 00020337 x06=00020000\n\
             R 9 00100090 00100393 x07=00000001\n\
             R 11 00100094 00732423 m00020008=00000001/4\n\
             E halt 12 6\n",
        ),
    ];
    for row in rows {
        run_row(&rt, rt.alloc(), row)?;
    }
    Ok(())
}

#[test]
fn accesses_and_protection(rt: HostRuntime) -> Result<(), Fail> {
    let rows: [Row; 5] = [
        (
            "a load across words, with waits",
            "run a --plan p",
            "dwait 2 1\ndwait 0 0\n",
            ENTRY,
            &[0x001002b7, 0x0832a403, 0x00020337, 0x00100393, 0x00732423],
            0,
            "R 2 00100080 001002b7 x05=00100000\n\
             R 9 00100084 0832a403 x08=32a40300\n\
             R 10 00100088 00020337 x06=00020000\n\
             R 11 0010008c 00100393 x07=00000001\n\
             R 16 00100090 00732423 m00020008=00000001/4\n\
             E halt 17 5\n",
        ),
        (
            "a store across the end of RAM",
            "run a --cycles 12",
            "",
            ENTRY,
            &[0x002002b7, 0xfff00413, 0xfe82af23],
            1,
            "R 2 00100080 002002b7 x05=00200000\n\
             R 3 00100084 fff00413 x08=ffffffff\n\
             T 8 00100088 cause=7 tval=00200000\n\
             T 11 00100000 cause=2 tval=00000000\n\
             E budget 12 4\n",
        ),
        (
            "a second parcel that no entry allows",
            "run a --cycles 10",
            "",
            ENTRY,
            &[
                0x000402b7, 0x02628293, 0x3b029073, 0x09000413, 0x3a041073, 0x00130001, 0x00000000,
            ],
            1,
            "R 2 00100080 000402b7 x05=00040000\n\
             R 3 00100084 02628293 x05=00040026\n\
             R 4 00100088 3b029073\n\
             R 5 0010008c 09000413 x08=00000090\n\
             R 6 00100090 3a041073\n\
             R 7 00100094 0001\n\
             T 9 00100096 cause=1 tval=00100098\n\
             E budget 10 7\n",
        ),
        (
            "a return to U mode, which no entry lets fetch",
            "run a --cycles 10",
            "",
            ENTRY,
            &[0x001002b7, 0x09028293, 0x34129073, 0x30200073, 0x00000013],
            1,
            "R 2 00100080 001002b7 x05=00100000\n\
             R 3 00100084 09028293 x05=00100090\n\
             R 4 00100088 34129073\n\
             R 6 0010008c 30200073\n\
             T 9 00100090 cause=1 tval=00100090\n\
             E budget 10 5\n",
        ),
        (
            "a return to U mode, which one entry allows all",
            "run a",
            "",
            ENTRY,
            &[
                0xfff00293, 0x3b029073, 0x01f00293, 0x3a029073, 0x001002b7, 0x0a028293, 0x34129073,
                0x30200073, 0x00020337, 0x00100393, 0x00732423,
            ],
            0,
            "R 2 00100080 fff00293 x05=ffffffff\n\
             R 3 00100084 3b029073\n\
             R 4 00100088 01f00293 x05=0000001f\n\
             R 5 0010008c 3a029073\n\
             R 6 00100090 001002b7 x05=00100000\n\
             R 7 00100094 0a028293 x05=001000a0\n\
             R 8 00100098 34129073\n\
             R 10 0010009c 30200073\n\
             R 12 001000a0 00020337 x06=00020000\n\
             R 13 001000a4 00100393 x07=00000001\n\
             R 15 001000a8 00732423 m00020008=00000001/4\n\
             E halt 16 11\n",
        ),
    ];
    for row in rows {
        run_row(&rt, rt.alloc(), row)?;
    }
    Ok(())
}

#[test]
fn protection_by_mseccfg(rt: HostRuntime) -> Result<(), Fail> {
    let rows: [Row; 3] = [
        (
            "M mode needs an entry to fetch",
            "run a --cycles 8",
            "",
            ENTRY,
            &[0x7470e073, 0x00000013],
            1,
            "R 2 00100080 7470e073\n\
             T 4 00100084 cause=1 tval=00100084\n\
             T 7 00100000 cause=1 tval=00100000\n\
             E budget 8 3\n",
        ),
        (
            "RLB is set",
            "run a",
            "",
            ENTRY,
            &[0x74726073, 0x747024f3, 0x00020337, 0x00100393, 0x00732423],
            0,
            "R 2 00100080 74726073\n\
             R 3 00100084 747024f3 x09=00000004\n\
             R 4 00100088 00020337 x06=00020000\n\
             R 5 0010008c 00100393 x07=00000001\n\
             R 7 00100090 00732423 m00020008=00000001/4\n\
             E halt 8 5\n",
        ),
        (
            "RLB stays 0 beside a locked entry that is off",
            "run a",
            "",
            ENTRY,
            &[
                0x08000293, 0x3a029073, 0x74726073, 0x747024f3, 0x00020337, 0x00100393, 0x00732423,
            ],
            0,
            "R 2 00100080 08000293 x05=00000080\n\
             R 3 00100084 3a029073\n\
             R 4 00100088 74726073\n\
             R 5 0010008c 747024f3 x09=00000000\n\
             R 6 00100090 00020337 x06=00020000\n\
             R 7 00100094 00100393 x07=00000001\n\
             R 9 00100098 00732423 m00020008=00000001/4\n\
             E halt 10 7\n",
        ),
    ];
    for row in rows {
        run_row(&rt, rt.alloc(), row)?;
    }
    Ok(())
}

#[test]
fn fences_interrupts_and_dummies(rt: HostRuntime) -> Result<(), Fail> {
    let rows: [Row; 5] = [
        (
            "a store into the next instruction",
            "run a",
            "",
            ENTRY,
            &[
                0x001002b7, 0x00200437, 0x49340413, 0x0882a823, 0x00100493, 0x00020337, 0x00100393,
                0x00732423,
            ],
            0,
            "R 2 00100080 001002b7 x05=00100000\n\
             R 3 00100084 00200437 x08=00200000\n\
             R 4 00100088 49340413 x08=00200493\n\
             R 6 0010008c 0882a823 m00100090=00200493/4\n\
             R 7 00100090 00100493 x09=00000001\n\
             R 8 00100094 00020337 x06=00020000\n\
             R 9 00100098 00100393 x07=00000001\n\
             R 11 0010009c 00732423 m00020008=00000001/4\n\
             E halt 12 8\n",
        ),
        (
            "the same with FENCE.I between",
            "run a",
            "",
            ENTRY,
            &[
                0x001002b7, 0x00200437, 0x49340413, 0x0882aa23, 0x0000100f, 0x00100493, 0x00020337,
                0x00100393, 0x00732423,
            ],
            0,
            "R 2 00100080 001002b7 x05=00100000\n\
             R 3 00100084 00200437 x08=00200000\n\
             R 4 00100088 49340413 x08=00200493\n\
             R 6 0010008c 0882aa23 m00100094=00200493/4\n\
             R 7 00100090 0000100f\n\
             R 9 00100094 00200493 x09=00000002\n\
             R 10 00100098 00020337 x06=00020000\n\
             R 11 0010009c 00100393 x07=00000001\n\
             R 13 001000a0 00732423 m00020008=00000001/4\n\
             E halt 14 9\n",
        ),
        (
            "lines that rise too late for an interrupt",
            "run a --plan p",
            "irq 4 8\n",
            ENTRY,
            &[
                0x30446073, 0x30046073, 0x30047073, 0x00020337, 0x00100393, 0x00732423,
            ],
            0,
            "R 2 00100080 30446073\n\
             R 3 00100084 30046073\n\
             R 4 00100088 30047073\n\
             R 5 0010008c 00020337 x06=00020000\n\
             R 6 00100090 00100393 x07=00000001\n\
             R 8 00100094 00732423 m00020008=00000001/4\n\
             E halt 9 6\n",
        ),
        (
            "an interrupt",
            "run a --cycles 8 --plan p",
            "irq 3 8\n",
            ENTRY,
            &[
                0x30446073, 0x30046073, 0x30047073, 0x00020337, 0x00100393, 0x00732423,
            ],
            1,
            "R 2 00100080 30446073\n\
             R 3 00100084 30046073\n\
             I 4 00100088 cause=3\n\
             T 7 0010000c cause=2 tval=00000000\n\
             E budget 8 4\n",
        ),
        (
            "a dummy instruction",
            "run a",
            "",
            ENTRY,
            &[0x7c026073, 0x00020337, 0x00100393, 0x00732423],
            0,
            "R 2 00100080 7c026073\n\
             R 3 00100084 00020337 x06=00020000\n\
             R 5 00100088 00100393 x07=00000001\n\
             R 7 0010008c 00732423 m00020008=00000001/4\n\
             E halt 8 4\n",
        ),
    ];
    for row in rows {
        run_row(&rt, rt.alloc(), row)?;
    }
    Ok(())
}

#[test]
fn traps_and_waits(rt: HostRuntime) -> Result<(), Fail> {
    let rows: [Row; 5] = [
        (
            "a trap handler",
            "run a",
            "",
            0x0010_0000,
            &HANDLER,
            0,
            "T 3 00100080 cause=11 tval=00000000\n\
             R 5 00100000 00020337 x06=00020000\n\
             R 6 00100004 00100393 x07=00000001\n\
             R 8 00100008 00732423 m00020008=00000001/4\n\
             E halt 9 4\n",
        ),
        (
            "a handler that returns",
            "run a",
            "",
            0x0010_0000,
            &RETURNING,
            0,
            "T 3 00100080 cause=11 tval=00000000\n\
             R 5 00100000 34102573 x10=00100080\n\
             R 6 00100004 00450513 x10=00100084\n\
             R 7 00100008 34151073\n\
             R 9 0010000c 30200073\n\
             R 11 00100084 00020337 x06=00020000\n\
             R 12 00100088 00100393 x07=00000001\n\
             R 14 0010008c 00732423 m00020008=00000001/4\n\
             E halt 15 8\n",
        ),
        (
            "an illegal halfword",
            "run a --cycles 8",
            "",
            ENTRY,
            &[0x00020337, 0x00000000],
            1,
            "R 2 00100080 00020337 x06=00020000\n\
             T 4 00100084 cause=2 tval=00000000\n\
             T 7 00100000 cause=2 tval=00000000\n\
             E budget 8 3\n",
        ),
        (
            "a WFI that nothing wakes",
            "run a --cycles 100",
            "",
            ENTRY,
            &[0x10500073],
            1,
            "E budget 100 0\n",
        ),
        (
            "a WFI that a line wakes",
            "run a --plan p",
            "irq 20 8\n",
            ENTRY,
            &[0x30446073, 0x10500073, 0x00020337, 0x00100393, 0x00732423],
            0,
            "R 2 00100080 30446073\n\
             R 20 00100084 10500073\n\
             R 21 00100088 00020337 x06=00020000\n\
             R 22 0010008c 00100393 x07=00000001\n\
             R 24 00100090 00732423 m00020008=00000001/4\n\
             E halt 25 5\n",
        ),
    ];
    for row in rows {
        run_row(&rt, rt.alloc(), row)?;
    }
    Ok(())
}

#[test]
fn the_instruction_cache(rt: HostRuntime) -> Result<(), Fail> {
    let rows: [Row; 2] = [
        (
            "code from the instruction cache",
            "run a --plan p",
            "irq 300 8\n",
            ENTRY,
            &[
                0x30446073, 0x7c00e073, 0x10500073, 0x0040006f, 0x00020337, 0x00100393, 0x00732423,
            ],
            0,
            "R 2 00100080 30446073\n\
             R 3 00100084 7c00e073\n\
             R 300 00100088 10500073\n\
             R 301 0010008c 0040006f\n\
             R 306 00100090 00020337 x06=00020000\n\
             R 307 00100094 00100393 x07=00000001\n\
             R 312 00100098 00732423 m00020008=00000001/4\n\
             E halt 313 7\n",
        ),
        (
            "the same without it",
            "run a --plan p",
            "irq 300 8\n",
            ENTRY,
            &[
                0x30446073, 0x00000013, 0x10500073, 0x0040006f, 0x00020337, 0x00100393, 0x00732423,
            ],
            0,
            "R 2 00100080 30446073\n\
             R 3 00100084 00000013\n\
             R 300 00100088 10500073\n\
             R 301 0010008c 0040006f\n\
             R 303 00100090 00020337 x06=00020000\n\
             R 304 00100094 00100393 x07=00000001\n\
             R 306 00100098 00732423 m00020008=00000001/4\n\
             E halt 307 7\n",
        ),
    ];
    for row in rows {
        run_row(&rt, rt.alloc(), row)?;
    }
    Ok(())
}
