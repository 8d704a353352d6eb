ghost use Rattle.ibx_elf.specs.Fields.{e_phnum, field};
ghost use Rattle.std.specs.Prelude.{length, ◌*◌, ◌+◌, ◌≡◌, ◌≤◌};

use crate::ram::Ram;
use byteorder::{ByteOrder, LittleEndian};

/// Bytes of `Elf32_Ehdr`.
pub(crate) const FILE_HEADER_BYTES: usize = 52;
/// Bytes of `Elf32_Phdr`.
pub(crate) const PROGRAM_HEADER_BYTES: u16 = 32;
/// The byte offsets of the fields of `Elf32_Ehdr` that are looked at.
pub(crate) const EI_CLASS: usize = 4;

pub(crate) const EI_DATA: usize = 5;

pub(crate) const EI_VERSION: usize = 6;

pub(crate) const E_TYPE: usize = 16;

pub(crate) const E_MACHINE: usize = 18;

pub(crate) const E_VERSION: usize = 20;

pub(crate) const E_ENTRY: usize = 24;

pub(crate) const E_PHOFF: usize = 28;

pub(crate) const E_PHENTSIZE: usize = 42;

const E_PHNUM: usize = 44;
// The `p_type` of a loadable segment.
const PT_LOAD: u32 = 1;

/// The 16-bit field at a byte offset of a file.
pub(crate) fn half_at(file: &[u8], offset: usize) -> u16
    requires { offset + 2 ≤ length file.now }
    ensures { result ≡ field file.now offset 2 }
{
    LittleEndian::read_u16(&file[offset..])
}

/// The 32-bit field at a byte offset of a file.
pub(crate) fn word_at(file: &[u8], offset: usize) -> u32
    requires { offset + 4 ≤ length file.now }
    ensures { result ≡ field file.now offset 4 }
{
    LittleEndian::read_u32(&file[offset..])
}

/// `e_phnum`, the number of program headers.
pub(crate) fn header_count(file: &[u8]) -> u16
    requires { 52 ≤ length file.now }
    ensures { result ≡ e_phnum file.now }
{
    half_at(file, E_PHNUM)
}

/// `Elf32_Phdr`, a program header: the fields that are looked at.
#[derive(Clone, Copy)]
pub(crate) struct ProgramHeader {
    pub(crate) p_type: u32,
    pub(crate) p_offset: u32,
    pub(crate) p_paddr: u32,
    pub(crate) p_filesz: u32,
    pub(crate) p_memsz: u32,
}

impl ProgramHeader {
    ghost use Rattle.ibx_elf.specs.Faults.{end_after, leaves, overruns, shares_address};
    ghost use Rattle.ibx_elf.specs.Fields.{e_phnum, e_phoff, field, has_file_bytes, is_load, program_header};
    ghost use Rattle.ibx_elf.specs.Image.{places};

    /// Program header `index` of a file, counted from 0.
    #[tactic(auto, unfolding(crate::specs::Fields::program_header))]
    pub(crate) fn read(file: &[u8], index: u16) -> ProgramHeader
        requires long { 52 ≤ length file.now }
        requires within { e_phoff file.now + 32 * (index + 1) ≤ length file.now }
        ensures { result ≡ program_header file.now index }
    {
        let first = word_at(file, E_PHOFF) as usize;
        let start = first + usize::from(PROGRAM_HEADER_BYTES) * usize::from(index);
        ProgramHeader {
            p_type: word_at(file, start),
            p_offset: word_at(file, start + 4),
            p_paddr: word_at(file, start + 12),
            p_filesz: word_at(file, start + 16),
            p_memsz: word_at(file, start + 20),
        }
    }

    /// Whether the header describes a loadable segment.
    pub(crate) fn is_load(self) -> bool
        ensures { result ≡ is_load self }
    {
        self.p_type == PT_LOAD
    }

    /// Whether the segment has file bytes.
    pub(crate) fn has_file_bytes(self) -> bool
        ensures { result ≡ has_file_bytes self }
    {
        self.is_load() && self.p_filesz > 0
    }

    // The byte address after the file bytes, up to 2^33.
    fn file_end(self) -> u64
        ensures { result ≡ self.p_paddr + self.p_filesz }
    {
        u64::from(self.p_paddr) + u64::from(self.p_filesz)
    }

    /// Whether the segment has more file bytes than bytes of memory, or file bytes past the file's end.
    pub(crate) fn overruns(self, file_bytes: usize) -> bool
        ensures { result ≡ overruns file_bytes self }
    {
        let last = u64::from(self.p_offset) + u64::from(self.p_filesz);
        self.is_load()
            && (self.p_filesz > self.p_memsz || self.p_filesz > 0 && last > file_bytes as u64)
    }

    /// Whether the segment has bytes of memory that aren't all in RAM.
    pub(crate) fn leaves(self, ram: Ram) -> bool
        ensures { result ≡ leaves ram self }
    {
        self.is_load() && self.p_memsz > 0 && !ram.has_all(self.p_paddr, self.p_memsz)
    }

    /// Whether the file bytes of the two segments share an address.
    pub(crate) fn shares_address(self, other: ProgramHeader) -> bool
        ensures { result ≡ shares_address self other }
    {
        let later_start = u64::from(self.p_paddr.max(other.p_paddr));
        let earlier_end = self.file_end().min(other.file_end());
        self.is_load() && other.is_load() && later_start < earlier_end
    }

    /// The byte address after the file bytes of this segment and of those before it, whose file bytes end at
    /// `end`; none where its own begin before that.
    pub(crate) fn end_after(self, end: u64) -> Option<u64>
        ensures { result ≡ end_after self end }
    {
        if !self.has_file_bytes() {
            Some(end)
        } else if end <= u64::from(self.p_paddr) {
            Some(self.file_end())
        } else {
            None
        }
    }

    /// Whether the segment has a file byte for the byte address.
    pub(crate) fn places(self, addr: u32) -> bool
        ensures { result ≡ places self addr }
    {
        self.is_load() && self.p_paddr <= addr && u64::from(addr) < self.file_end()
    }
}
