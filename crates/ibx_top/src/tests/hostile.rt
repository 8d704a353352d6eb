//! Each call of the outside fails in turn, and a file has many headers.
use super::{ENTRY, HALT, HALT_TEXT, call, elf};
use ibx_base::MemFiles;
use std::alloc::Global;
use std::test::Fail;

#[test]
fn each_call_fails(rt: HostRuntime) -> Result<(), Fail> {
    let file = elf(rt.alloc(), ENTRY, 1, &[[1, 84, ENTRY, 12, 12]], &HALT)?;
    // The bytes of the file; the call of the files, the write of `out` and that of `err` that fail (0 for none); the
    // status, and how many bytes of the run's lines are written.
    let rows = [
        ("the file's beginning", 96, 1, 0, 0, 3, 0),
        ("its first read", 96, 2, 0, 0, 3, 0),
        ("its second read", 96, 3, 0, 0, 3, 0),
        ("the first line", 96, 0, 1, 0, 4, 0),
        ("the second line", 96, 0, 2, 0, 4, 35),
        ("the third line", 96, 0, 3, 0, 4, 70),
        ("the last line", 96, 0, 4, 0, 4, 113),
        ("a fault's line", 51, 0, 0, 1, 5, 0),
    ];
    for (name, bytes, failing, out_fails, err_fails, status, written) in rows {
        let mut files = MemFiles::new(rt.alloc());
        files.add("a", file.get(..bytes).unwrap_or(&file))?;
        files.fail_at(failing)?;
        let shown = call(rt.alloc(), "run a", &mut files, out_fails, err_fails)?;
        let lines = HALT_TEXT.get(..written).unwrap_or(HALT_TEXT);
        assert_eq!(rt; shown.out.bytes(), lines.as_bytes(), "at {name}");
        assert_eq!(rt; shown.code, status, "at {name}");
    }
    Ok(())
}

/// The file with its program header at the end, and 1,000 of type 0 after it.
fn many_headers(alloc: Global) -> Result<Vec<u8>, Fail> {
    let mut file = elf(alloc, ENTRY, 1001, &[], &HALT)?;
    // `e_phoff`: the three words of code end at byte 64.
    if let Some(offset) = file.get_mut(28) {
        *offset = 64;
    }
    for field in [1u32, 52, ENTRY, ENTRY, 12, 12, 7, 4] {
        file.extend_from_slice(&field.to_le_bytes())?;
    }
    for _ in 0..1000 {
        file.extend_from_slice(&[0; 32])?;
    }
    Ok(file)
}

#[test]
fn headers_of_type_0_are_skipped(rt: HostRuntime) -> Result<(), Fail> {
    let mut files = MemFiles::new(rt.alloc());
    files.add("a", &many_headers(rt.alloc())?)?;
    let shown = call(rt.alloc(), "run a", &mut files, 0, 0)?;
    assert_eq!(rt; shown.out.bytes(), HALT_TEXT.as_bytes());
    assert_eq!(rt; shown.err.bytes(), b"".as_slice());
    assert_eq!(rt; shown.code, 0);
    Ok(())
}
