ghost use Rattle.std.specs.Prelude.{◌≡◌, ◌+◌, ◌*◌, ◌%◌, ◌^◌, ◌<◌, ◌≤◌, IfOk, ℕ, slice_index, length};
ghost use Rattle.ibx_elf.specs.Image.{image_byte};
ghost use Rattle.ibx_bits.specs.Bytes.{word_byte};
ghost use Rattle.ibx_isa.specs.Portions.{size_of, loaded, portion_size};
ghost use Rattle.ibx_arch.specs.Memory.{is_mapped, read_byte, read_bytes, with_bytes, image_memory};
ghost use Rattle.ibx_arch.specs.Access.{error_at, stored};
ghost use Rattle.ibx_memory.specs.Words.{merged_byte, memory_of, HoldsBytes, portion_from, portion_to, portion_word};

use ibx_base::NoMemory;
use ibx_bits::{byte_at, host_page_has};
use ibx_elf::{Image, Ram};
use ibx_isa::{LoadOp, gather, lanes, parts};
use std::alloc::Global;
use std::marker::Model;

/// The memory of a machine, as words. Contracts see the byte at each address.
#[derive(Drop)]
pub struct Storage {
    ram: Ram,
    words: Vec<u32>,
}

impl Model for Storage {
    ghost use Rattle.ibx_memory.specs.Words.{Words, IsWhole};

    ghost Value = { Words };

    ghost view = { λ s. record { ram = s.ram; words = s.words.items } };

    ghost invariant = { λ s. IsWhole (record { ram = s.ram; words = s.words.items }) };
}

impl Storage {
    /// The image's bytes.
    pub fn new(alloc: Global, image: &Image<'_>) -> Result<Storage, NoMemory>
        ensures { IfOk result (λ storage. memory_of storage ≡ image_memory image.now) }
    {
        let ram = image.ram();
        let words = image_words(alloc, image)?;
        Ok(Storage { ram, words })
    }

    /// Whether a byte address answers without an error: one of RAM or of the host's page.
    #[tactic(auto, unfolding(ibx_memory::specs::Words::memory_of))]
    pub fn is_mapped(&self, addr: u32) -> bool
        ensures { result ≡ is_mapped (memory_of self.now).ram addr }
    {
        self.ram.has(addr) || host_page_has(addr)
    }

    /// The byte that a read of a byte address gives.
    #[tactic(auto, unfolding(ibx_memory::specs::Words::memory_of))]
    pub fn byte(&self, addr: u32) -> u8
        ensures { result ≡ read_byte (memory_of self.now) addr }
    {
        if !self.ram.has(addr) {
            return 0;
        }
        byte_at(self.words[((addr - self.ram.base) / 4) as usize], addr % 4)
    }

    /// The parcel of 16 bits at a byte address.
    pub fn parcel(&self, addr: u32) -> u16
        ensures { result ≡ read_byte (memory_of self.now) addr + 256 * read_byte (memory_of self.now)
            ((addr + 1) % 2 ^ 32) }
    {
        self.byte(addr) as u16 + 256 * self.byte(addr.wrapping_add(1)) as u16
    }

    // The word at a byte address that is a multiple of 4.
    #[tactic(auto, unfolding(ibx_memory::specs::Words::memory_of))]
    fn word(&self, addr: u32) -> u32
        requires { addr % 4 ≡ 0 }
        ensures { HoldsBytes (memory_of self.now) addr result }
    {
        if self.ram.has(addr) {
            self.words[((addr - self.ram.base) / 4) as usize]
        } else {
            0
        }
    }

    /// The register value of a load at a byte address.
    pub fn load(&self, op: LoadOp, addr: u32) -> u32
        ensures { result ≡ loaded op (read_bytes (memory_of self.now) addr (size_of op)) }
    {
        let start = addr - addr % 4;
        let first = self.word(start);
        let second = self.word(start.wrapping_add(4));
        gather(op, addr, first, second)
    }

    /// The byte address of the portion of an access that no memory answers.
    #[tactic(auto, unfolding(ibx_arch::specs::Access::error_at))]
    pub fn error(&self, addr: u32, size: u8) -> Option<u32>
        ensures { result ≡ error_at (memory_of self.now).ram addr size }
    {
        let second = (addr - addr % 4).wrapping_add(4);
        if !self.is_mapped(addr) {
            Some(addr)
        } else if parts(addr, size) == 2 && !self.is_mapped(second) {
            Some(second)
        } else {
            None
        }
    }

    /// Stores the low `size` bytes of a value at a byte address: the first portion, and the second where the
    /// first met no error.
    #[tactic(auto, unfolding(ibx_arch::specs::Access::stored, ibx_arch::specs::Memory::with_bytes))]
    pub fn store(&mut self, addr: u32, size: u8, value: u32)
        requires { size ≤ 4 }
        ensures { memory_of self.new ≡ stored (memory_of self.old) addr size value }
    {
        self.put(addr, size, value, false);
        if parts(addr, size) == 2 && self.is_mapped(addr) {
            self.put(addr, size, value, true);
        }
    }

    // Stores one portion of an access.
    fn put(&mut self, addr: u32, size: u8, value: u32, second: bool)
        requires { size ≤ 4 }
        ensures { memory_of self.new ≡ with_bytes (memory_of self.old) addr (portion_from addr size second)
            (portion_to addr size second) value }
    {
        let (enables, bits) = lanes(addr, size, value, second);
        let start = word_start(addr, second);
        if self.ram.has(start) {
            let place = ((start - self.ram.base) / 4) as usize;
            self.words[place] = merge(self.words[place], enables, bits);
        }
    }
}

// The byte address of the word of a portion.
fn word_start(addr: u32, second: bool) -> u32
    ensures { result ≡ portion_word addr second * 4 }
{
    let first = addr - addr % 4;
    if second { first.wrapping_add(4) } else { first }
}

// The byte in a lane of two words: of the second where the lane is enabled.
fn merged_lane(word: u32, enables: u8, bits: u32, index: u32) -> u32
    requires { index < 4 }
    ensures value { result ≡ merged_byte word enables bits index }
    ensures small { result < 256 }
{
    if (enables >> index) % 2 == 1 {
        byte_at(bits, index) as u32
    } else {
        byte_at(word, index) as u32
    }
}

// A word with the lanes that are enabled taken from others.
fn merge(word: u32, enables: u8, bits: u32) -> u32
    ensures { (j : ℕ) → j < 4 → word_byte result j ≡ merged_byte word enables bits j }
{
    let a = merged_lane(word, enables, bits, 0);
    let b = merged_lane(word, enables, bits, 1);
    let c = merged_lane(word, enables, bits, 2);
    let d = merged_lane(word, enables, bits, 3);
    a + b * 0x100 + c * 0x1_0000 + d * 0x100_0000
}

// The words of an image.
fn image_words(alloc: Global, image: &Image<'_>) -> Result<Vec<u32>, NoMemory>
    ensures count { IfOk result (λ words. 4 * length words.items ≡ image.now.ram.size) }
    ensures words { IfOk result (λ words. (k : ℕ) → 4 * k < image.now.ram.size → (j : ℕ) → j < 4
        → word_byte (slice_index words.items k) j ≡ image_byte image.now (image.now.ram.base + 4 * k + j)) }
{
    let count = (image.ram().size / 4) as usize;
    let mut words = vec![in alloc; 0; count]?;
    image.fill(&mut words);
    Ok(words)
}
