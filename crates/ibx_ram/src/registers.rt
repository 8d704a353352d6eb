ghost use Rattle.std.specs.Prelude.{◌≡◌, ◌≢◌, ◌<◌, ◌^◌, ℕ, IfOk, slice_index, bit_xor};
ghost use Rattle.ibx_secded.specs.Code.{encode_of};
ghost use Rattle.ibx_ram.specs.Ram.{empty_of, register_put, register_flip};

use ibx_base::NoMemory;
use ibx_secded::Code;
use std::alloc::Global;
use std::marker::Model;

/// The 32 registers, each a word of 39 bits. Register 0 is always the codeword of 0.
#[derive(Drop)]
pub struct RegFile {
    words: Vec<u64>,
}

impl Model for RegFile {
    ghost use Rattle.std.specs.Prelude.{List, ℕ};
    ghost use Rattle.ibx_ram.specs.Ram.{IsRegisters};

    ghost Value = { List ℕ };

    ghost view = { λ file. file.words.items };

    ghost invariant = { λ file. IsRegisters file.words.items };
}

impl RegFile {
    /// Registers that each hold the codeword of 0. An `Err` means that there was no memory for them.
    pub fn new(alloc: Global) -> Result<RegFile, NoMemory>
        ensures { IfOk result (λ file. file ≡ empty_of 32 7 32) }
    {
        let words = vec![in alloc; Code::<32, 7>::encode(0); 32]?;
        Ok(RegFile { words })
    }

    /// The word of register `n`, as it was last put, with the flips made since.
    pub fn get(&self, n: u8) -> u64
        requires { n < 32 }
        ensures value { result ≡ slice_index self.now n }
        ensures fits { result < 2 ^ 39 }
        ensures zero { n ≡ 0 → result ≡ encode_of 32 7 0 }
    {
        self.words[n as usize]
    }

    /// Puts the word of register `n`; register 0 doesn't change.
    pub fn put(&mut self, n: u8, word: u64)
        requires inside { n < 32 }
        requires fits { word < 2 ^ 39 }
        ensures value { self.new ≡ register_put self.old n word }
        ensures here { n ≢ 0 → slice_index self.new n ≡ word }
        ensures others { (m : ℕ) → m ≢ n → slice_index self.new m ≡ slice_index self.old m }
        ensures zero { n ≡ 0 → self.new ≡ self.old }
    {
        if n != 0 {
            self.words[n as usize] = word;
        }
    }

    /// Changes bit `bit` of the word of register `n`; register 0 doesn't change.
    pub fn flip(&mut self, n: u8, bit: u8)
        requires inside { n < 32 }
        requires bit { bit < 39 }
        ensures value { self.new ≡ register_flip self.old n bit }
        ensures here { n ≢ 0 → slice_index self.new n ≡ bit_xor (slice_index self.old n) (2 ^ bit) }
        ensures others { (m : ℕ) → m ≢ n → slice_index self.new m ≡ slice_index self.old m }
        ensures zero { n ≡ 0 → self.new ≡ self.old }
    {
        let changed = Code::<32, 7>::flip(self.get(n), bit);
        self.put(n, changed);
    }
}
