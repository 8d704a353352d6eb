ghost use Rattle.std.specs.Prelude.{IsTrue, ◌↔◌, ◌≡◌};

use ibx_bits::{HOST_PAGE, HOST_PAGE_END};

// The step of a RAM's base and size, in bytes (our own rule).
const PAGE_BYTES: u32 = 4_096;
// The largest RAM, in bytes (our own rule).
const MAX_BYTES: u32 = 16_777_216;

/// The range of byte addresses that is memory.
#[derive(Clone, Copy, Debug, PartialEq, Eq)]
pub struct Ram {
    /// The first byte address, a multiple of 4,096.
    pub base: u32,
    /// Bytes from the base on: a multiple of 4,096 from 4,096 to 16,777,216.
    pub size: u32,
}

impl Ram {
    ghost use Rattle.ibx_elf.specs.Ram.{IsRamRange, ram_has, ram_has_all};

    /// Whether base and size are in range, the memory ends at or below 2^32, and it doesn't meet the host
    /// page (our own rules).
    pub fn is_valid(self) -> bool
        ensures { IsTrue result ↔ IsRamRange self }
    {
        let base = u64::from(self.base);
        let end = base + u64::from(self.size);
        let in_steps = self.base % PAGE_BYTES == 0 && self.size % PAGE_BYTES == 0;
        let in_range = PAGE_BYTES <= self.size && self.size <= MAX_BYTES && end <= 1 << 32;
        let off_host_page = end <= u64::from(HOST_PAGE) || HOST_PAGE_END <= self.base;
        in_steps && in_range && off_host_page
    }

    /// Whether the byte address lies in this memory.
    pub fn has(self, addr: u32) -> bool
        ensures { result ≡ ram_has self addr }
    {
        self.base <= addr && u64::from(addr) < u64::from(self.base) + u64::from(self.size)
    }

    /// Whether so many bytes from a byte address on all lie in this memory, without wrapping.
    pub fn has_all(self, addr: u32, bytes: u32) -> bool
        ensures { result ≡ ram_has_all self addr bytes }
    {
        let end = u64::from(addr) + u64::from(bytes);
        self.base <= addr && end <= u64::from(self.base) + u64::from(self.size)
    }
}
