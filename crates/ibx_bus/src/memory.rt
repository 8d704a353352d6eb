ghost use Rattle.std.specs.Prelude.{◌≡◌, ◌≢◌, ◌<◌, ◌≤◌, ◌^◌, ◌*◌, ◌+◌, ◌%◌, ℕ, IfOk, length, slice_index, bit_xor};
ghost use Rattle.std.specs.Prelude.{true, false};
ghost use Rattle.ibx_bits.specs.Platform.{host_page_has};
ghost use Rattle.ibx_secded.specs.Code.{encode_of};
ghost use Rattle.ibx_bus.specs.Memory.{MissesHostPage, error_of, memory_has, memory_flip, memory_next, coded_memory};
ghost use Rattle.ibx_bus.specs.Memory.{answered_word};
ghost use Rattle.ibx_isa.specs.Wires.{IsRequest};

use crate::merge::store;
use ibx_base::NoMemory;
use ibx_bits::host_page_has;
use ibx_isa::Req;
use ibx_ram::CodedRam;
use ibx_secded::Code;
use std::alloc::Global;
use std::marker::Model;

/// RAM, as words of 39 bits: `Code<32, 7>` over the words of 32 bits. A word takes five bytes.
#[derive(Drop)]
pub struct Memory {
    base: u32,
    words: CodedRam<32, 7>,
}

impl Model for Memory {
    ghost use Rattle.ibx_bus.specs.Memory.{IsMemory, MemoryState};

    ghost Value = { MemoryState };

    ghost view = { λ m. record { base = m.base; words = m.words } };

    ghost invariant = { λ m. IsMemory (record { base = m.base; words = m.words }) };
}

/// The codeword of 0.
#[tactic(auto, using(crate::proofs::Words::zero))]
pub(crate) fn zero_word() -> u64
    ensures value { result ≡ encode_of 32 7 0 }
    ensures fits { result < 2 ^ 39 }
{
    0x2a_0000_0000
}

/// What a transaction answers with.
#[derive(Clone, Copy)]
pub(crate) struct Answer {
    pub(crate) err: bool,
    pub(crate) word: u64,
}

impl Memory {
    /// RAM from the byte address `base` on, with the codeword of each word of the image. The base is a multiple of 4,
    /// and RAM doesn't meet the host page. An `Err` means that there was no memory for the words.
    pub fn new(alloc: Global, image: &[u32], base: u32) -> Result<Memory, NoMemory>
        requires aligned { base % 4 ≡ 0 }
        requires ends { base + 4 * length image.now ≤ 2 ^ 32 }
        requires apart { MissesHostPage base (length image.now) }
        ensures { IfOk result (λ m. m ≡ coded_memory image.now base) }
    {
        let mut words = CodedRam::new(alloc, image.len() as u32)?;
        for (i, value) in image.iter().enumerate() {
            words.put(i as u32, Code::<32, 7>::encode(u64::from(*value)));
        }
        Ok(Memory { base, words })
    }

    /// Changes bit `bit` of word number `word`, counted from the base.
    pub fn flip(&mut self, word: u32, bit: u8)
        requires inside { word < length self.old.words }
        requires bit { bit < 39 }
        ensures value { self.new ≡ memory_flip self.old word bit }
        ensures others { (j : ℕ) → j ≢ word → slice_index self.new.words j ≡ slice_index self.old.words j }
    {
        self.words.flip(word, bit);
    }

    fn in_ram(&self, addr: u32) -> bool
        ensures value { result ≡ memory_has self.now addr }
        ensures apart { host_page_has addr ≡ true → result ≡ false }
    {
        addr >= self.base && ((addr - self.base) as usize) < 4 * self.words.len()
    }

    /// Makes a granted transaction.
    #[tactic(auto, unfolding(crate::specs::Memory::memory_next))]
    pub(crate) fn access(&mut self, req: &Req) -> Answer
        requires { IsRequest req.now }
        ensures err { result.err ≡ error_of self.old req.now }
        ensures word { result.word ≡ answered_word self.old req.now }
        ensures fits { result.word < 2 ^ 39 }
        ensures memory { self.new ≡ memory_next self.old req.now }
        ensures host { host_page_has req.now.addr ≡ true → self.new ≡ self.old }
    {
        if !self.in_ram(req.addr) {
            return Answer {
                err: !host_page_has(req.addr),
                word: zero_word(),
            };
        }
        let index = (req.addr - self.base) / 4;
        if !req.write {
            return Answer {
                err: false,
                word: self.words.get(index),
            };
        }
        store(&mut self.words, index, req.be, req.word);
        Answer {
            err: false,
            word: zero_word(),
        }
    }
}
