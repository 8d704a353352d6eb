ghost use Rattle.ibx_elf.specs.Faults.{AreAscending, Reports, entry_fault, file_header_fault, first_overlap};
ghost use Rattle.ibx_elf.specs.Faults.{outside_fault, overlap_fault, segment_fault};
ghost use Rattle.ibx_elf.specs.Fields.{HasHeaders, e_phnum, program_header};
ghost use Rattle.ibx_elf.specs.Search.{first_below};
ghost use Rattle.std.specs.Prelude.{IsTrue, OnOk, length, ◌<◌, ◌≤◌, ◌↔◌};

use crate::fault::ElfFault;
use crate::fields::{
    E_ENTRY, E_MACHINE, E_PHENTSIZE, E_PHOFF, E_TYPE, E_VERSION, EI_CLASS, EI_DATA, EI_VERSION,
    FILE_HEADER_BYTES, PROGRAM_HEADER_BYTES, ProgramHeader, half_at, header_count, word_at,
};
use crate::ram::Ram;

// The bytes that begin each ELF file.
const MAGIC: [u8; 4] = [0x7f, b'E', b'L', b'F'];
// A file of 32-bit objects.
const ELFCLASS32: u8 = 1;
// The lowest byte of a number stands first.
const ELFDATA2LSB: u8 = 1;
// The one version of the format.
const EV_CURRENT: u8 = 1;
// An executable file.
const ET_EXEC: u16 = 2;
// RISC-V.
const EM_RISCV: u16 = 243;
// The `e_phnum` of a file whose number of program headers stands elsewhere.
const PN_XNUM: u16 = 0xffff;

/// Checks the file header, all but its entry.
#[tactic(auto, unfolding(crate::specs::Faults::file_header_fault))]
pub(crate) fn check_file_header(file: &[u8]) -> Result<(), ElfFault>
    ensures fault { Reports result (file_header_fault file.now) }
    ensures headers { OnOk result (HasHeaders file.now) }
{
    if file.len() < FILE_HEADER_BYTES {
        return Err(ElfFault::Short);
    }
    if !file.starts_with(&MAGIC) {
        return Err(ElfFault::Magic);
    }
    if file[EI_CLASS] != ELFCLASS32 {
        return Err(ElfFault::Class);
    }
    if file[EI_DATA] != ELFDATA2LSB {
        return Err(ElfFault::Order);
    }
    if file[EI_VERSION] != EV_CURRENT || word_at(file, E_VERSION) != u32::from(EV_CURRENT) {
        return Err(ElfFault::Version);
    }
    if half_at(file, E_TYPE) != ET_EXEC {
        return Err(ElfFault::Kind);
    }
    if half_at(file, E_MACHINE) != EM_RISCV {
        return Err(ElfFault::Machine);
    }
    let count = header_count(file);
    if count == PN_XNUM {
        return Err(ElfFault::TooMany);
    }
    let headers_end = u64::from(word_at(file, E_PHOFF))
        + u64::from(PROGRAM_HEADER_BYTES) * u64::from(count);
    if count > 0
        && (half_at(file, E_PHENTSIZE) != PROGRAM_HEADER_BYTES || headers_end > file.len() as u64)
    {
        return Err(ElfFault::Headers);
    }
    Ok(())
}

/// Checks that the file bytes of each segment lie within the file and fill no more than its memory.
#[tactic(auto, using(crate::proofs::Searching::steps), unfolding(crate::specs::Faults::segment_fault))]
pub(crate) fn check_segments(file: &[u8]) -> Result<(), ElfFault>
    requires { HasHeaders file.now }
    ensures { Reports result (first_below (segment_fault file.now) (e_phnum file.now)) }
{
    for i in 0..header_count(file) {
        if ProgramHeader::read(file, i).overruns(file.len()) {
            return Err(ElfFault::Segment(i));
        }
    }
    Ok(())
}

/// Checks that the memory of each segment lies in RAM.
#[tactic(auto, using(crate::proofs::Searching::steps), unfolding(crate::specs::Faults::outside_fault))]
pub(crate) fn check_ranges(file: &[u8], ram: Ram) -> Result<(), ElfFault>
    requires { HasHeaders file.now }
    ensures { Reports result (first_below (outside_fault file.now ram) (e_phnum file.now)) }
{
    for i in 0..header_count(file) {
        if ProgramHeader::read(file, i).leaves(ram) {
            return Err(ElfFault::OutsideRam(i));
        }
    }
    Ok(())
}

// Checks that no later segment has a file byte at an address of a file byte of segment `i`.
#[tactic(auto, using(crate::proofs::Searching::steps), unfolding(crate::specs::Faults::first_overlap, crate::specs::Faults::overlap_fault))]
fn check_overlaps_of(file: &[u8], i: u16) -> Result<(), ElfFault>
    requires headers { HasHeaders file.now }
    requires index { i < e_phnum file.now }
    ensures { Reports result (first_overlap file.now i) }
{
    let first = ProgramHeader::read(file, i);
    if !first.has_file_bytes() {
        return Ok(());
    }
    let count = header_count(file);
    for j in i + 1..count {
        if first.shares_address(ProgramHeader::read(file, j)) {
            return Err(ElfFault::Overlap(i, j));
        }
    }
    Ok(())
}

// Whether the file bytes of each segment lie after those of the segments before it.
fn are_ascending(file: &[u8]) -> bool
    requires { HasHeaders file.now }
    ensures { IsTrue result ↔ AreAscending file.now }
{
    let mut end = 0;
    for i in 0..header_count(file) {
        let Some(next) = ProgramHeader::read(file, i).end_after(end) else {
            return false;
        };
        end = next;
    }
    true
}

/// Checks that the file bytes of no two segments share an address. Pairs are compared only where the file
/// bytes don't come in ascending order, as linkers write them.
#[tactic(auto, using(crate::proofs::Searching::steps))]
pub(crate) fn check_overlaps(file: &[u8]) -> Result<(), ElfFault>
    requires { HasHeaders file.now }
    ensures { Reports result (first_below (first_overlap file.now) (e_phnum file.now)) }
{
    if are_ascending(file) {
        return Ok(());
    }
    for i in 0..header_count(file) {
        check_overlaps_of(file, i)?;
    }
    Ok(())
}

/// Checks that the entry is even and in RAM.
#[tactic(auto, unfolding(crate::specs::Faults::entry_fault))]
pub(crate) fn check_entry(file: &[u8], ram: Ram) -> Result<(), ElfFault>
    requires { 52 ≤ length file.now }
    ensures { Reports result (entry_fault file.now ram) }
{
    let entry = word_at(file, E_ENTRY);
    if entry % 2 == 1 || !ram.has(entry) {
        Err(ElfFault::Entry)
    } else {
        Ok(())
    }
}
