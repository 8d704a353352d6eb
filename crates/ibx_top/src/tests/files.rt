//! What the program answers to its words, to files, and to an outside that fails.
use super::{ENTRY, HALT, HALT_TEXT, Header, call, elf};
use ibx_base::MemFiles;
use std::alloc::Global;
use std::test::Fail;

#[test]
fn files_are_refused_or_run(rt: HostRuntime) -> Result<(), Fail> {
    let one = [1, 84, ENTRY, 12, 12];
    // The entry, `e_phnum`, the program headers, how many bytes are kept, the status, and the line.
    let rows: [(u32, u16, &[Header], usize, u8, &str); 12] = [
        (ENTRY, 1, &[one], 51, 5, "ibex: a.elf: elf fault 1\n"),
        (ENTRY, 0xffff, &[one], 96, 5, "ibex: a.elf: elf fault 9\n"),
        (ENTRY, 2, &[one], 96, 5, "ibex: a.elf: elf fault 8\n"),
        (ENTRY, 1, &[one], 83, 5, "ibex: a.elf: elf fault 8\n"),
        (ENTRY, 1, &[one], 95, 5, "ibex: a.elf: elf fault 10 0\n"),
        (0x0010_0081, 1, &[one], 96, 5, "ibex: a.elf: elf fault 13\n"),
        (ENTRY, 1, &[one], 96, 0, ""),
        // A second segment without file bytes, anywhere in RAM or past its end.
        (
            ENTRY,
            2,
            &[[1, 116, ENTRY, 12, 12], [1, 116, 0x0011_0000, 0, 4096]],
            128,
            0,
            "",
        ),
        (
            ENTRY,
            2,
            &[[1, 116, ENTRY, 12, 12], [1, 116, 0x001f_f000, 0, 4096]],
            128,
            0,
            "",
        ),
        (
            ENTRY,
            2,
            &[[1, 116, ENTRY, 12, 12], [1, 116, 0x001f_f001, 0, 4096]],
            128,
            5,
            "ibex: a.elf: elf fault 11 1\n",
        ),
        // Two segments with file bytes for one address.
        (
            ENTRY,
            2,
            &[[1, 116, ENTRY, 12, 12], [1, 116, 0x0010_0088, 4, 4]],
            128,
            5,
            "ibex: a.elf: elf fault 12 0 1\n",
        ),
        // As a linker writes it: attributes, a segment and a stack.
        (
            ENTRY,
            3,
            &[
                [0x7000_0003, 148, 0, 12, 0],
                [1, 148, ENTRY, 12, 12],
                [0x6474_e551, 0, 0, 0, 0],
            ],
            160,
            0,
            "",
        ),
    ];
    for (entry, count, headers, kept, status, err) in rows {
        let mut file = elf(rt.alloc(), entry, count, headers, &HALT)?;
        file.truncate(kept);
        let mut files = MemFiles::new(rt.alloc());
        files.add("a.elf", &file)?;
        let shown = call(rt.alloc(), "run a.elf", &mut files, 0, 0)?;
        let out = if status == 0 { HALT_TEXT } else { "" };
        assert_eq!(rt; shown.err.bytes(), err.as_bytes());
        assert_eq!(rt; shown.out.bytes(), out.as_bytes(), "{err}");
        assert_eq!(rt; shown.code, status, "{err}");
    }
    Ok(())
}

#[test]
fn firmware_of_64_kib_runs(rt: HostRuntime) -> Result<(), Fail> {
    // A vector table of 128 bytes, the code at the entry, and a zero-filled segment behind the file's 65,536 bytes.
    let headers = [
        [1, 116, 0x0010_0000, 0x1_0000, 0x1_0000],
        [1, 0, 0x0011_0000, 0, 0x1_0000],
    ];
    let mut file = elf(rt.alloc(), ENTRY, 2, &headers, &[0; 32])?;
    for word in HALT {
        file.extend_from_slice(&word.to_le_bytes())?;
    }
    file.extend_from_slice(&[0; 65_396])?;
    let mut files = MemFiles::new(rt.alloc());
    files.add("a", &file)?;
    let shown = call(rt.alloc(), "run a", &mut files, 0, 0)?;
    assert_eq!(rt; shown.out.bytes(), HALT_TEXT.as_bytes());
    assert_eq!(rt; shown.code, 0);
    Ok(())
}

#[test]
fn the_outside_fails(rt: HostRuntime) -> Result<(), Fail> {
    let two_lines = "R 2 00100080 00020337 x06=00020000\nR 3 00100084 00100393 x07=00000001\n";
    // The words, the call of the files, the writes of each sink that fail (0 for none), the status, and what is
    // written.
    let rows = [
        ("run a", 0, 0, 0, 0, HALT_TEXT, ""),
        ("run a", 3, 0, 0, 3, "", "ibex: cannot read a\n"),
        ("run a", 1, 0, 0, 3, "", "ibex: cannot read a\n"),
        ("run other", 0, 0, 0, 3, "", "ibex: cannot read other\n"),
        ("run other", 0, 0, 2, 3, "", "ibex: cannot read "),
        ("run a", 0, 3, 0, 4, two_lines, "ibex: cannot write\n"),
        ("run a", 0, 1, 1, 4, "", ""),
        ("", 0, 0, 0, 2, "", "ibex: bad words\n"),
        ("run", 0, 0, 0, 2, "", "ibex: bad words\n"),
        ("run a b", 0, 0, 0, 2, "", "ibex: bad words\n"),
        ("run a --cycles 0", 0, 0, 0, 2, "", "ibex: bad words\n"),
        ("run a --cycles", 0, 0, 0, 2, "", "ibex: bad words\n"),
        ("fly a", 0, 0, 0, 2, "", "ibex: bad words\n"),
        ("run a --ram-size 4095", 0, 0, 0, 2, "", "ibex: bad words\n"),
        ("inject a", 0, 0, 0, 2, "", "ibex: bad words\n"),
        ("run a --plan q", 0, 0, 0, 3, "", "ibex: cannot read q\n"),
        ("run a --mul quick", 0, 0, 0, 2, "", "ibex: bad words\n"),
        ("fly a", 0, 0, 1, 2, "", ""),
    ];
    let file = elf(rt.alloc(), ENTRY, 1, &[[1, 84, ENTRY, 12, 12]], &HALT)?;
    for (line, failing, out_fails, err_fails, status, out, err) in rows {
        let mut files = MemFiles::new(rt.alloc());
        files.add("a", &file)?;
        files.fail_at(failing)?;
        let shown = call(rt.alloc(), line, &mut files, out_fails, err_fails)?;
        assert_eq!(rt; shown.out.bytes(), out.as_bytes(), "{line}");
        assert_eq!(rt; shown.err.bytes(), err.as_bytes(), "{line}");
        assert_eq!(rt; shown.code, status, "{line}");
    }
    Ok(())
}

/// A file of one byte more than the limit.
fn too_long(alloc: Global) -> Result<Vec<u8>, Fail> {
    Ok(vec![in alloc; 0; 33_554_433]?)
}

#[test]
fn long_files_are_refused(rt: HostRuntime) -> Result<(), Fail> {
    let mut files = MemFiles::new(rt.alloc());
    let file = too_long(rt.alloc())?;
    files.add("a", &file)?;
    let shown = call(rt.alloc(), "run a", &mut files, 0, 0)?;
    assert_eq!(rt; shown.out.bytes(), b"".as_slice());
    assert_eq!(rt; shown.err.bytes(), b"ibex: a: too long\n".as_slice());
    assert_eq!(rt; shown.code, 5);
    Ok(())
}
