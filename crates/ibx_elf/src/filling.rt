ghost use Rattle.ibx_bits.specs.Bytes.{word_byte};
ghost use Rattle.ibx_elf.specs.Faults.{IsWellFormed};
ghost use Rattle.ibx_elf.specs.Fields.{e_phnum};
ghost use Rattle.ibx_elf.specs.Filling.{AreWords, FilledBelow, HasPut, HasPutByte};
ghost use Rattle.ibx_elf.specs.Image.{HoldsBytes, HoldsWords, image_of};
ghost use Rattle.std.specs.Prelude.{ℕ, ◌+◌, ◌*◌, ◌<◌, ◌≡◌, ◌≤◌, ◌==◌, if◌then◌else◌, length};

use crate::fields::{ProgramHeader, header_count};
use crate::ram::Ram;

// The word with another byte in a lane, from 0, the lowest, to 3.
fn with_byte(word: u32, lane: usize, byte: u8) -> u32
    requires { lane < 4 }
    ensures { (j : ℕ) → j < 4 → word_byte result j ≡ (if j == lane then byte else word_byte word j) }
{
    let mut bytes = word.to_le_bytes();
    bytes[lane] = byte;
    u32::from_le_bytes(bytes)
}

// Puts a byte at a byte offset of the words; the lowest byte of each word stands first.
fn put_byte(words: &mut [u32], at: usize, byte: u8)
    requires { at < 4 * length words.old }
    ensures bytes { HasPutByte words.old at byte words.new }
    ensures small { AreWords words.old → AreWords words.new }
{
    words[at / 4] = with_byte(words[at / 4], at % 4, byte);
}

// Puts bytes one after the other, from a byte offset of the words on.
fn put_bytes(words: &mut [u32], start: usize, bytes: &[u8])
    requires { start + length bytes.now ≤ 4 * length words.old }
    ensures bytes { HasPut words.old start bytes.now (length bytes.now) words.new }
    ensures small { AreWords words.old → AreWords words.new }
{
    for i in 0..bytes.len() {
        put_byte(words, start + i, bytes[i]);
    }
}

// Puts the file bytes of segment `i` where they are loaded.
fn put_segment(file: &[u8], i: u16, ram: Ram, words: &mut [u32])
    requires well_formed { IsWellFormed file.now ram }
    requires index { i < e_phnum file.now }
    requires count { 4 * length words.old ≡ ram.size }
    ensures { FilledBelow file.now ram.base words.old i → FilledBelow file.now ram.base words.new (i + 1) }
{
    let header = ProgramHeader::read(file, i);
    if header.has_file_bytes() {
        let offset = header.p_offset as usize;
        let bytes = &file[offset..offset + header.p_filesz as usize];
        put_bytes(words, (header.p_paddr - ram.base) as usize, bytes);
    }
}

/// Makes the words those of a RAM that a file without a fault is loaded into: 0, but for the file bytes of
/// each segment. It walks the program headers once.
pub(crate) fn fill_words(file: &[u8], ram: Ram, words: &mut [u32])
    requires well_formed { IsWellFormed file.now ram }
    requires count { 4 * length words.old ≡ ram.size }
    ensures words { HoldsWords (image_of file.now ram) words.new }
    ensures bytes { HoldsBytes (image_of file.now ram) words.new }
{
    words.fill(0);
    for i in 0..header_count(file) {
        put_segment(file, i, ram, words);
    }
}
