//! Texts that are assembled, and files whose code is printed.
use super::call;
use ibx_base::MemFiles;
use std::alloc::Global;
use std::process::Abort;
use std::test::Fail;

/// A call: what it shows, its words, the bytes of the file `a`, its status, and what is written.
type Row<'r> = (&'r str, &'r str, &'r [u8], u8, &'r [u8], &'r str);

// Calls the program, and compares its status and both outputs. The write to `out` of this number fails.
fn check(rt: &impl Abort, alloc: Global, row: Row<'_>, out_fails: u64) -> Result<(), Fail> {
    let (name, line, file, code, written, said) = row;
    let mut files = MemFiles::new(alloc);
    files.add("a", file)?;
    let shown = call(alloc, line, &mut files, out_fails, 0)?;
    assert_eq!(rt; shown.out.bytes(), written, "at {name}");
    assert_eq!(rt; shown.err.bytes(), said.as_bytes(), "at {name}");
    assert_eq!(rt; shown.code, code, "at {name}");
    assert_eq!(rt; shown.seal, 0, "at {name}");
    Ok(())
}

/// Three instructions, and the file around their code.
const STORE: &str = "lui x6, 0x00020\naddi x7, x0, 1\nsw x7, 8(x6)\n";

static FILE: [u8; 96] = [
    0x7f, 0x45, 0x4c, 0x46, 0x01, 0x01, 0x01, 0x00, 0x00, 0x00, 0x00, 0x00, 0x00, 0x00, 0x00, 0x00,
    0x02, 0x00, 0xf3, 0x00, 0x01, 0x00, 0x00, 0x00, 0x80, 0x00, 0x10, 0x00, 0x34, 0x00, 0x00, 0x00,
    0x00, 0x00, 0x00, 0x00, 0x00, 0x00, 0x00, 0x00, 0x34, 0x00, 0x20, 0x00, 0x01, 0x00, 0x00, 0x00,
    0x00, 0x00, 0x00, 0x00, 0x01, 0x00, 0x00, 0x00, 0x54, 0x00, 0x00, 0x00, 0x80, 0x00, 0x10, 0x00,
    0x80, 0x00, 0x10, 0x00, 0x0c, 0x00, 0x00, 0x00, 0x0c, 0x00, 0x00, 0x00, 0x07, 0x00, 0x00, 0x00,
    0x04, 0x00, 0x00, 0x00, 0x37, 0x03, 0x02, 0x00, 0x93, 0x03, 0x10, 0x00, 0x23, 0x24, 0x73, 0x00,
];

/// The file around this code, of fewer than 256 bytes.
fn file_of(alloc: Global, code: &[u8]) -> Result<Vec<u8>, Fail> {
    let count = u8::try_from(code.len())?;
    let mut file = Vec::new(alloc);
    file.extend_from_slice(&FILE[..84])?;
    file.extend_from_slice(code)?;
    file[68] = count;
    file[72] = count;
    Ok(file)
}

#[test]
fn texts_become_files_and_files_become_texts(rt: HostRuntime) -> Result<(), Fail> {
    let alloc = rt.alloc();
    let turning = file_of(alloc, &[0x7d, 0x14, 0x7d, 0xfc])?;
    let empty = file_of(alloc, &[])?;
    let cut = file_of(alloc, &[0x37, 0x03, 0x02])?;
    let rows: [Row<'_>; 7] = [
        ("a store", "asm a", STORE.as_bytes(), 0, &FILE, ""),
        (
            "a loop",
            "asm a",
            b"loop:\nc.addi x8, -1\nc.bnez x8, loop",
            0,
            &turning,
            "",
        ),
        ("no text", "asm a", b"", 0, &empty, ""),
        (
            "a store's file",
            "dis a",
            &FILE,
            0,
            b"# 0x00100080\nlui x6, 0x00020\naddi x7, x0, 1\nsw x7, 8(x6)\n",
            "",
        ),
        (
            "a loop's file",
            "dis a --ram-size 4096",
            &turning,
            0,
            b"# 0x00100080\nc.addi x8, -1\nc.bnez x8, -2\n",
            "",
        ),
        (
            "a file without code",
            "dis a",
            &empty,
            0,
            b"# 0x00100080\n",
            "",
        ),
        (
            "a word that is cut off",
            "dis a",
            &cut,
            0,
            b"# 0x00100080\n.half 0x0337\n.byte 0x02\n",
            "",
        ),
    ];
    for row in rows {
        check(&rt, alloc, row, 0)?;
    }
    Ok(())
}

#[test]
fn texts_and_files_are_refused(rt: HostRuntime) -> Result<(), Fail> {
    let rows: [Row<'_>; 7] = [
        (
            "a range",
            "asm a",
            b"addi x7, x0, 2048",
            12,
            b"",
            "ibex: a: asm line 1 range\n",
        ),
        (
            "a label",
            "asm a",
            b"c.j nowhere",
            12,
            b"",
            "ibex: a: asm line 1 label\n",
        ),
        (
            "a word",
            "asm a",
            b"c.nop:\n\nmov x1, x2",
            12,
            b"",
            "ibex: a: asm line 3 word\n",
        ),
        (
            "no text there",
            "asm b",
            b"",
            3,
            b"",
            "ibex: cannot read b\n",
        ),
        (
            "no file there",
            "dis b",
            b"",
            3,
            b"",
            "ibex: cannot read b\n",
        ),
        (
            "no file at all",
            "dis a",
            b"c.ebreak",
            5,
            b"",
            "ibex: a: elf fault 1\n",
        ),
        (
            "words first",
            "asm a --mul slow",
            b"mov",
            2,
            b"",
            "ibex: bad words\n",
        ),
    ];
    for row in rows {
        check(&rt, rt.alloc(), row, 0)?;
    }
    Ok(())
}

// A text of 4 MiB is read, here a comment, and one of a byte more isn't.
#[test]
fn long_texts_are_refused(rt: HostRuntime) -> Result<(), Fail> {
    let alloc = rt.alloc();
    let mut text = vec![in alloc; b'#'; 4_194_304]?;
    let empty = file_of(alloc, &[])?;
    check(&rt, alloc, ("the limit", "asm a", &text, 0, &empty, ""), 0)?;
    text.push(b'#')?;
    let said = "ibex: a: text too long\n";
    check(
        &rt,
        alloc,
        ("a byte more", "asm a", &text, 12, b"", said),
        0,
    )
}

#[test]
fn writing_is_cut_short(rt: HostRuntime) -> Result<(), Fail> {
    let alloc = rt.alloc();
    let front: &[u8] = b"# 0x00100080\nlui x6, 0x00020\n";
    check(
        &rt,
        alloc,
        ("a text", "dis a", &FILE, 4, front, "ibex: cannot write\n"),
        3,
    )?;
    check(
        &rt,
        alloc,
        (
            "a file",
            "asm a",
            STORE.as_bytes(),
            4,
            b"",
            "ibex: cannot write\n",
        ),
        1,
    )
}
