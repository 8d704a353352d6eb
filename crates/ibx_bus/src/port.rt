ghost use Rattle.std.specs.Prelude.{◌≡◌, ◌≢◌, ◌<◌, ◌≤◌, ◌^◌, ◌&&◌, ℕ, List, true, false, length, slice_index};
ghost use Rattle.ibx_bits.specs.Platform.{host_page_has};
ghost use Rattle.ibx_bus.specs.Memory.{StoresWord, error_of, index_of, is_store, memory_after, answered_word};
ghost use Rattle.ibx_bus.specs.Port.{answer_wires, grants, new_port, next_place, port_flip, port_next, wait_at};
ghost use Rattle.ibx_bus.specs.PortTimes.{AnswersInOrder, AnswersInTime, Call, GrantsInTime};
ghost use Rattle.ibx_isa.specs.Wires.{IsRequest};

use crate::memory::{Memory, zero_word};
use ibx_isa::{Req, Rsp};
use ibx_plan::Wait;
use ibx_secded::Code;
use std::marker::Model;

/// One port of the bus, over its list of waits.
#[derive(Drop)]
pub struct Port<'w> {
    waits: &'w [Wait],
    // the entry of the next transaction
    place: usize,
    // the waited cycles of the request
    waited: u8,
    // whether a transaction is granted and wasn't answered before this cycle, and in how many cycles it answers
    busy: bool,
    left: u8,
    // the last transaction's answer
    err: bool,
    word: u64,
}

impl<'w> Model for Port<'w> {
    ghost use Rattle.ibx_bus.specs.Port.{IsPort, PortState};

    ghost Value = { PortState };

    ghost view = { λ p. record {
      waits = p.waits.now;
      place = p.place;
      waited = p.waited;
      busy = p.busy;
      left = p.left;
      err = p.err;
      word = p.word;
    } };

    ghost invariant = { λ p. IsPort (record {
      waits = p.waits.now;
      place = p.place;
      waited = p.waited;
      busy = p.busy;
      left = p.left;
      err = p.err;
      word = p.word;
    }) };
}

impl<'w> Port<'w> {
    /// A port that has had no request. An empty list means the one entry without waits.
    pub fn new(waits: &'w [Wait]) -> Port<'w>
        ensures value { result ≡ new_port waits.now }

        // Over every list of calls, transaction n, issued at t, is granted at t + g and answered at t + g + 1 + w, if
        // each request is held until its grant and the next one comes with the answer or later.
        ensures granted { (calls : List Call) → GrantsInTime waits.now calls }
        ensures answered { (calls : List Call) → AnswersInTime waits.now calls }

        // Over every list of calls, polite or not, each grant has one answer, with the error and the word of that
        // transaction.
        ensures in_order { (calls : List Call) → AnswersInOrder waits.now calls }
    {
        Port {
            waits,
            place: 0,
            waited: 0,
            busy: false,
            left: 0,
            err: false,
            word: zero_word(),
        }
    }

    /// The wires of this cycle's answer: valid exactly where a transaction answers, an error exactly where its word
    /// lies neither in RAM nor in the host page.
    #[tactic(auto, unfolding(crate::specs::Port::answer_wires))]
    pub fn answer(&self) -> Rsp
        ensures value { result ≡ answer_wires self.now }
        ensures fits { result.word < 2 ^ 39 }
    {
        if self.busy && self.left == 0 {
            Rsp {
                valid: true,
                err: self.err,
                word: self.word,
            }
        } else {
            Rsp {
                valid: false,
                err: false,
                word: 0,
            }
        }
    }

    fn next_wait(&self) -> Wait
        ensures { result ≡ wait_at self.now.waits self.now.place }
    {
        if self.place < self.waits.len() {
            self.waits[self.place]
        } else {
            Wait {
                grant: 0,
                answer: 0,
            }
        }
    }

    fn next_place(&self) -> usize
        ensures { result ≡ next_place self.now.waits self.now.place }
    {
        if self.place + 1 < self.waits.len() {
            self.place + 1
        } else {
            0
        }
    }

    /// Ends the cycle; true exactly where the request is granted in it. The memory is then read or written by the
    /// wires of this cycle. A request may be broken off, changed or made too early.
    pub fn step(&mut self, req: &Req, mem: &mut Memory) -> bool
        requires { IsRequest req.now }
        ensures granted { result ≡ grants req.now.valid self.old }
        ensures next { self.new ≡ port_next self.old mem.old req.now }
        ensures memory { mem.new ≡ memory_after result mem.old req.now }

        // A request that is broken off leaves no count of waited cycles.
        ensures broken_off { req.now.valid ≡ false → self.new.waited ≡ 0 }

        // A grant replaces the kept answer by that of its transaction, and nothing else does.
        ensures error { result ≡ true → self.new.err ≡ error_of mem.old req.now }
        ensures word { result ≡ true → self.new.word ≡ answered_word mem.old req.now }
        ensures kept { result ≡ false → self.new.word ≡ self.old.word }

        // Only a store to RAM that is granted changes a word, and it changes that word alone.
        ensures unchanged { (result && is_store mem.old req.now) ≡ false → mem.new ≡ mem.old }
        ensures stores { (result && is_store mem.old req.now) ≡ true → StoresWord mem.old mem.new req.now }
        ensures others { (i : ℕ) → i ≢ index_of mem.old req.now.addr
            → slice_index mem.new.words i ≡ slice_index mem.old.words i }
        ensures host { host_page_has req.now.addr ≡ true → mem.new ≡ mem.old }
        ensures base { mem.new.base ≡ mem.old.base }
        ensures length { length mem.new.words ≡ length mem.old.words }
    {
        self.end_cycle(req, mem)
    }

    #[tactic(auto, unfolding(crate::specs::Port::port_moves))]
    fn end_cycle(&mut self, req: &Req, mem: &mut Memory) -> bool
        requires { IsRequest req.now }
        ensures granted { result ≡ grants req.now.valid self.old }
        ensures next { self.new ≡ port_next self.old mem.old req.now }
        ensures memory { mem.new ≡ memory_after result mem.old req.now }
        ensures broken_off { req.now.valid ≡ false → self.new.waited ≡ 0 }
        ensures host { host_page_has req.now.addr ≡ true → mem.new ≡ mem.old }
    {
        if self.busy && self.left != 0 {
            self.left -= 1;
            return false;
        }
        self.busy = false;
        if !req.valid {
            self.waited = 0;
            return false;
        }
        let wait = self.next_wait();
        if self.waited != wait.grant {
            self.waited += 1;
            return false;
        }
        let answer = mem.access(req);
        self.place = self.next_place();
        self.waited = 0;
        self.busy = true;
        self.left = wait.answer;
        self.err = answer.err;
        self.word = answer.word;
        true
    }

    /// Changes bit `bit` of the kept answer word.
    pub fn flip(&mut self, bit: u8)
        requires { bit < 39 }
        ensures { self.new ≡ port_flip self.old bit }
    {
        self.word = Code::<32, 7>::flip(self.word, bit);
    }
}
