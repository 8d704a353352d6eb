//! Calls of the whole program on files in memory. The values are the worked examples of the rules, or another
//! program's.
mod files;
mod flips;
mod hostile;
mod listings;
mod programs;
mod runs;
mod twins;

use crate::ibex;
use ibx_base::{MemFiles, MemSink};
use std::alloc::Global;
use std::test::Fail;

/// What a call answered and wrote.
#[derive(Drop)]
struct Shown {
    code: u8,
    seal: u64,
    out: MemSink,
    err: MemSink,
}

/// The words of a line, between its spaces.
fn words_of(alloc: Global, line: &str) -> Result<Vec<String>, Fail> {
    let mut words = Vec::new(alloc);
    for word in line.split(' ') {
        words.push(String::from_str(alloc, word)?)?;
    }
    Ok(words)
}

/// Calls the program with the words of a line. `out_fails` and `err_fails` are the numbers of the writes that fail.
fn call(
    alloc: Global,
    line: &str,
    files: &mut MemFiles,
    out_fails: u64,
    err_fails: u64,
) -> Result<Shown, Fail> {
    let words = words_of(alloc, line)?;
    let mut out = MemSink::new(alloc, 4096, &[out_fails])?;
    let mut err = MemSink::new(alloc, 4096, &[err_fails])?;
    let status = ibex(alloc, &words, files, &mut out, &mut err);
    Ok(Shown {
        code: status.code,
        seal: status.seal,
        out,
        err,
    })
}

/// A program header: `p_type`, `p_offset`, `p_paddr`, `p_filesz` and `p_memsz`.
type Header = [u32; 5];

/// An ELF32 file: a file header with this entry and this number of program headers, the program headers, and the code.
fn elf(
    alloc: Global,
    entry: u32,
    count: u16,
    headers: &[Header],
    code: &[u32],
) -> Result<Vec<u8>, Fail> {
    let mut file = Vec::new(alloc);
    file.extend_from_slice(b"\x7fELF\x01\x01\x01\x00\x00\x00\x00\x00\x00\x00\x00\x00")?;
    file.extend_from_slice(&[2, 0, 0xf3, 0, 1, 0, 0, 0])?;
    file.extend_from_slice(&entry.to_le_bytes())?;
    file.extend_from_slice(&[52, 0, 0, 0, 0, 0, 0, 0, 0, 0, 0, 0, 52, 0, 32, 0])?;
    file.extend_from_slice(&count.to_le_bytes())?;
    file.extend_from_slice(&[0; 6])?;
    for [kind, offset, paddr, filesz, memsz] in headers {
        for field in [kind, offset, paddr, paddr, filesz, memsz, &7, &4] {
            file.extend_from_slice(&field.to_le_bytes())?;
        }
    }
    for word in code {
        file.extend_from_slice(&word.to_le_bytes())?;
    }
    Ok(file)
}

const ENTRY: u32 = 0x0010_0080;

/// `lui x6, 0x20`, `addi x7, x0, 1` and `sw x7, 8(x6)`, which halts.
const HALT: [u32; 3] = [0x0002_0337, 0x0010_0393, 0x0073_2423];

/// The lines of these three.
const HALT_TEXT: &str = "R 2 00100080 00020337 x06=00020000\n\
             R 3 00100084 00100393 x07=00000001\n\
             R 5 00100088 00732423 m00020008=00000001/4\n\
             E halt 6 3\n";
