ghost use Rattle.std.specs.Prelude.{◌≡◌, ◌≢◌, ◌<◌, ◌≤◌, ◌^◌, ◌+◌, ◌*◌, ◌/◌, ℕ, IfOk, length, slice_index, slice_set};
ghost use Rattle.std.specs.Prelude.{bit_xor};
ghost use Rattle.ibx_secded.specs.Code.{IsCode, payload_of, rewrite_of};
ghost use Rattle.ibx_ram.specs.Ram.{empty_of, flip_of};

use ibx_base::NoMemory;
use ibx_secded::Code;
use std::alloc::Global;
use std::marker::Model;

/// A memory of words of `Code<K, R>`, with K at most 32, numbered from 0.
///
/// Payloads and stored check bits are kept apart, so that a word takes five bytes.
#[derive(Drop)]
pub struct CodedRam<const K: usize, const R: usize> {
    payloads: Vec<u32>,
    // the stored check bits of each word
    checks: Vec<u8>,
}

impl<const K: usize, const R: usize> Model for CodedRam<K, R> {
    ghost use Rattle.std.specs.Prelude.{List, ℕ};
    ghost use Rattle.ibx_ram.specs.Ram.{IsCodedRam, words_of};

    ghost Value = { List ℕ };

    ghost view = { λ ram. words_of K ram.payloads.items ram.checks.items };

    ghost invariant = { λ ram. IsCodedRam K R ram.payloads.items ram.checks.items };
}

// The payload of a word, of at most 32 bits.
#[tactic(auto, using(crate::proofs::Planes::narrow))]
fn payload<const K: usize, const R: usize>(word: u64) -> u32
    requires code { IsCode K R }
    requires payload { K ≤ 32 }
    ensures value { result ≡ payload_of K word }
    ensures fits { result < 2 ^ K }
{
    Code::<K, R>::payload(word) as u32
}

// The stored check bits of a word.
#[tactic(auto, using(crate::proofs::Planes::narrow))]
fn check<const K: usize, const R: usize>(word: u64) -> u8
    requires code { IsCode K R }
    requires fits { word < 2 ^ (K + R) }
    ensures value { result ≡ word / 2 ^ K }
    ensures fits { result < 2 ^ R }
{
    (word >> K) as u8
}

// The word of a payload below its stored check bits.
#[tactic(auto, using(ibx_secded::proofs::Words::cat_is, ibx_secded::proofs::Words::cat_lt))]
fn join<const K: usize, const R: usize>(payload: u32, check: u8) -> u64
    requires code { IsCode K R }
    requires payload { payload < 2 ^ K }
    requires check { check < 2 ^ R }
    ensures value { result ≡ check * 2 ^ K + payload }
    ensures fits { result < 2 ^ (K + R) }
{
    (u64::from(check) << K) | u64::from(payload)
}

impl<const K: usize, const R: usize> CodedRam<K, R> {
    /// A memory of `words` words, each the codeword of 0. An `Err` means that there was no memory for them.
    pub fn new(alloc: Global, words: u32) -> Result<CodedRam<K, R>, NoMemory>
        requires code { IsCode K R }
        requires payload { K ≤ 32 }
        ensures { IfOk result (λ ram. ram ≡ empty_of K R words) }
    {
        let zero = Code::<K, R>::encode(0);
        let payloads = vec![in alloc; 0; words as usize]?;
        let checks = vec![in alloc; check::<K, R>(zero); words as usize]?;
        Ok(CodedRam { payloads, checks })
    }

    /// The number of words.
    #[tactic(auto, using(crate::proofs::Planes::reads))]
    pub fn len(&self) -> usize
        ensures { result ≡ length self.now }
    {
        self.payloads.len()
    }

    /// Word `i`, as it was last put, with the flips made since.
    #[tactic(auto, using(crate::proofs::Planes::reads))]
    pub fn get(&self, i: u32) -> u64
        requires { i < length self.now }
        ensures value { result ≡ slice_index self.now i }
        ensures fits { result < 2 ^ (K + R) }
    {
        join::<K, R>(self.payloads[i as usize], self.checks[i as usize])
    }

    // Writes word `i` into the planes.
    #[tactic(auto, using(crate::proofs::Planes::reads))]
    fn set(&mut self, i: u32, payload: u32, check: u8)
        requires inside { i < length self.old }
        requires payload { payload < 2 ^ K }
        requires check { check < 2 ^ R }
        ensures { self.new ≡ slice_set self.old i (check * 2 ^ K + payload) }
    {
        self.payloads[i as usize] = payload;
        self.checks[i as usize] = check;
    }

    /// Puts word `i`, of K + R bits.
    #[tactic(auto, using(std::proofs::lemmas::Nat::shr_split))]
    pub fn put(&mut self, i: u32, word: u64)
        requires inside { i < length self.old }
        requires fits { word < 2 ^ (K + R) }
        ensures value { self.new ≡ slice_set self.old i word }
        ensures length { length self.new ≡ length self.old }
        ensures here { slice_index self.new i ≡ word }
        ensures others { (j : ℕ) → j ≢ i → slice_index self.new j ≡ slice_index self.old j }
    {
        // by the invariant, which a use of a field brings, the sizes are those of a code
        let _ = &self.payloads;
        self.set(i, payload::<K, R>(word), check::<K, R>(word));
    }

    /// Puts the payload of word `i`, below `2^K`, and changes its check bits by the columns of the payload bits that
    /// change, so that what is wrong stays told.
    #[tactic(auto, using(crate::proofs::Planes::reads))]
    pub fn rewrite(&mut self, i: u32, value: u64)
        requires inside { i < length self.old }
        requires fits { value < 2 ^ K }
        ensures value { self.new ≡ slice_set self.old i (rewrite_of K R (slice_index self.old i) value) }
        ensures length { length self.new ≡ length self.old }
        ensures others { (j : ℕ) → j ≢ i → slice_index self.new j ≡ slice_index self.old j }
    {
        let changed = u64::from(self.payloads[i as usize]) ^ value;
        let columns = Code::<K, R>::check(changed);
        let stored = u64::from(self.checks[i as usize]) ^ columns;
        self.set(i, value as u32, stored as u8);
    }

    /// Changes bit `bit` of word `i`.
    #[tactic(auto, using(crate::proofs::Planes::reads))]
    pub fn flip(&mut self, i: u32, bit: u8)
        requires inside { i < length self.old }
        requires bit { bit < K + R }
        ensures value { self.new ≡ flip_of self.old i bit }
        ensures length { length self.new ≡ length self.old }
        ensures here { slice_index self.new i ≡ bit_xor (slice_index self.old i) (2 ^ bit) }
        ensures others { (j : ℕ) → j ≢ i → slice_index self.new j ≡ slice_index self.old j }
    {
        let word = join::<K, R>(self.payloads[i as usize], self.checks[i as usize]);
        self.put(i, Code::<K, R>::flip(word, bit));
    }
}
