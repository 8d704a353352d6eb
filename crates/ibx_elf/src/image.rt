ghost use Rattle.ibx_elf.specs.Faults.{IsWellFormed, Reports, first_fault};
ghost use Rattle.ibx_elf.specs.Image.{HoldsBytes, HoldsSegments, HoldsWords, IsReadable, IsZeroElsewhere, Placed};
ghost use Rattle.ibx_elf.specs.Image.{image_byte, image_of, placed_byte, image_word};
ghost use Rattle.ibx_elf.specs.Ram.{IsInRam, IsRamRange};
ghost use Rattle.std.specs.Prelude.{IfOk, Some, ℕ, length, slice_get, ◌+◌, ◌*◌, ◌%◌, ◌/◌, ◌<◌, ◌^◌, ◌≡◌};

use crate::checks::{check_entry, check_file_header, check_overlaps, check_ranges, check_segments};
use crate::fault::ElfFault;
use crate::fields::{E_ENTRY, ProgramHeader, header_count, word_at};
use crate::filling::fill_words;
use crate::ram::Ram;
use crate::segments::{count_segments, segment_at};
use std::marker::Model;

/// The memory that a file describes: each file byte that a loadable segment places at its physical
/// address, and 0 elsewhere. It reads the file in place.
#[derive(Drop)]
pub struct Image<'f> {
    file: &'f [u8],
    ram: Ram,
}

impl<'f> Model for Image<'f> {
    ghost Value = { Placed };

    ghost view = { λ image. image_of image.file.now image.ram };

    ghost invariant = { λ image. IsRamRange image.ram × IsWellFormed image.file.now image.ram };
}

/// Reads an ELF32 file for a RAM (System V gABI). Flags, the OS ABI, sections, `p_vaddr`, `p_flags` and
/// `p_align` are not looked at; `e_phentsize` and `e_phoff` only where there are program headers, and
/// `p_offset` only where `p_filesz` isn't 0.
#[tactic(auto, unfolding(crate::specs::Faults::first_fault))]
pub fn load<'f>(file: &'f [u8], ram: Ram) -> Result<Image<'f>, ElfFault>
    requires { IsRamRange ram }
    ensures fault { Reports result (first_fault file.now ram) }
    ensures image { IfOk result (λ image. image ≡ image_of file.now ram) }

    // What the image's bytes are, segment by segment.
    ensures segments { IfOk result (λ image. HoldsSegments file.now image) }
    ensures zero_elsewhere { IfOk result (λ image. IsZeroElsewhere file.now image) }
{
    check_file_header(file)?;
    check_segments(file)?;
    check_ranges(file, ram)?;
    check_overlaps(file)?;
    check_entry(file, ram)?;
    Ok(Image { file, ram })
}

impl<'f> Image<'f> {
    /// The RAM that was handed to [`load`].
    pub fn ram(&self) -> Ram
        ensures handed_in { result ≡ self.now.ram }
        ensures valid { IsRamRange result }
    {
        self.ram
    }

    /// The byte address of the first instruction, `e_entry`.
    pub fn entry(&self) -> u32
        ensures entry { result ≡ self.now.entry }
        ensures even { result % 2 ≡ 0 }
        ensures in_ram { IsInRam self.now.ram result }
    {
        word_at(self.file, E_ENTRY)
    }

    /// How many loadable segments, `PT_LOAD`, the file has.
    pub fn segments(&self) -> u16
        ensures { result ≡ length self.now.segments }
    {
        count_segments(self.file)
    }

    /// The physical address of the loadable segment of this number, counted from 0 in the order of the program
    /// headers, and its bytes of the file.
    pub fn segment(&self, i: u16) -> (u32, &'f [u8])
        requires { i < length self.now.segments }
        ensures { slice_get self.now.segments i ≡ Some (record { addr = result.0; bytes = result.1.now }) }
    {
        segment_at(self.file, i)
    }

    /// The word at a byte address of RAM that is a multiple of 4, the lowest byte first.
    pub fn word(&self, addr: u32) -> u32
        requires aligned { addr % 4 ≡ 0 }
        requires in_ram { IsInRam self.now.ram addr }
        ensures value { result ≡ image_word self.now addr }
        ensures bytes { (k : ℕ) → k < 4 → result / 256 ^ k % 256 ≡ image_byte self.now (addr + k) }
    {
        u32::from_le_bytes([
            byte_at(self.file, addr),
            byte_at(self.file, addr + 1),
            byte_at(self.file, addr + 2),
            byte_at(self.file, addr + 3),
        ])
    }

    /// Makes `words` all words of RAM, that at the base first, whatever they were before. It walks the
    /// program headers once and takes no memory.
    pub fn fill(&self, words: &mut [u32])
        requires { 4 * length words.old ≡ self.now.ram.size }
        ensures words { HoldsWords self.now words.new }
        ensures bytes { HoldsBytes self.now words.new }
    {
        fill_words(self.file, self.ram, words);
    }
}

// The file byte that a segment places at a byte address, or 0.
#[tactic(auto, using(crate::proofs::Searching::steps), unfolding(crate::specs::Image::placed_byte, crate::specs::Image::placed_by))]
fn byte_at(file: &[u8], addr: u32) -> u8
    requires { IsReadable file.now }
    ensures { result ≡ placed_byte file.now addr }
{
    for i in 0..header_count(file) {
        let header = ProgramHeader::read(file, i);
        if header.places(addr) {
            return file[header.p_offset as usize + (addr - header.p_paddr) as usize];
        }
    }
    0
}
