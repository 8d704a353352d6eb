ghost use Rattle.std.specs.Prelude.{◌≡◌, ℕ, ◌%◌, ◌^◌, ◌<◌, ◌≤◌, drop, slice_get, None, IfSome};
ghost use Rattle.ibx_prefetch.specs.Buffer.{entry_of, fetch_after_answer, fetch_reset, head_of, held_parcel};
ghost use Rattle.ibx_prefetch.specs.Buffer.{held_word, is_turn, next_addr, popped, prefetch_next, pushed, received};
ghost use Rattle.ibx_prefetch.specs.Buffer.{request_of, requested, took, turned};
ghost use Rattle.ibx_prefetch.specs.Parcels.{IsInOrder, IsWithin, Issues, KeepsOrder, ShowsInOrder, offered};
ghost use Rattle.ibx_prefetch.specs.Parcels.{parcels_of, ready_of};

/// The prefetch buffer: the word request that is outstanding, and the words whose parcels aren't all taken yet.
#[derive(Clone, Copy, Debug, PartialEq, Eq)]
pub struct Prefetch {
    /// A word request is outstanding.
    pub f_busy: bool,
    /// The next word request is the first after a redirect.
    pub f_fresh: bool,
    /// The outstanding request is of before the last redirect, and its answer is dropped. Where none is outstanding,
    /// the mark is lost at the end of the cycle.
    pub f_drop: bool,
    /// The byte address of the last word that was requested. A run has multiples of 4 here.
    pub f_addr: u32,
    /// The oldest word that is held in bits 31:0, and in bit 32 that it was answered with an error.
    pub buf0: u64,
    /// The word after it.
    pub buf1: u64,
    /// The word after that one.
    pub buf2: u64,
    /// The words that are held, 0 to 3.
    pub buf_count: u8,
    /// The byte address of the next parcel. A run has even numbers here.
    pub head_pc: u32,
}

/// What answers a word request in a cycle.
#[derive(Clone, Copy, Debug, PartialEq, Eq)]
pub struct WordAns {
    /// A word answers in this cycle.
    pub valid: bool,
    /// It is an error.
    pub err: bool,
    pub word: u32,
}

/// A parcel of 16 bits (RISC-V Unprivileged ISA, 1.5).
#[derive(Clone, Copy, Debug, PartialEq, Eq)]
pub struct Parcel {
    /// Its word is held, or answers in this cycle. Where it isn't, the other fields say nothing.
    pub ready: bool,
    /// Its word was answered with an error.
    pub err: bool,
    pub half: u16,
}

/// The next two parcels.
#[derive(Clone, Copy, Debug, PartialEq, Eq)]
pub struct Head {
    /// The parcel at `head_pc`.
    pub first: Parcel,
    /// The parcel after it.
    pub second: Parcel,
}

impl Prefetch {
    /// The buffer at reset, which is a redirect to the byte address `entry`.
    #[tactic(auto, unfolding(crate::specs::Buffer::fetch_reset))]
    pub fn reset(entry: u32) -> Prefetch
        ensures fields { result ≡ fetch_reset entry }
        ensures within { IsWithin result }
        ensures order { (words : ℕ → ℕ) → IsInOrder words result }
    {
        Prefetch {
            f_busy: false,
            f_fresh: true,
            f_drop: false,
            f_addr: 0,
            buf0: 0,
            buf1: 0,
            buf2: 0,
            buf_count: 0,
            head_pc: entry,
        }
    }

    /// The next two parcels in a cycle that isn't redirected. The word of `ans` counts as held already.
    pub fn head(&self, ans: &WordAns) -> Head
        ensures head { result ≡ head_of (fetch_after_answer ans.now None self.now) }
        ensures first { ready_of result.first ≡ slice_get (offered ans.now None self.now) 0 }
        ensures second { ready_of result.second ≡ slice_get (offered ans.now None self.now) 1 }
        ensures order { ShowsInOrder ans.now self.now result }
    {
        let mut heard = *self;
        heard.hear(ans, None);
        heard.held_head()
    }

    /// The byte address of the word request of this cycle, a multiple of 4, if there is one. `redirect` is the byte
    /// address that this cycle redirects to.
    pub fn request(&self, ans: &WordAns, redirect: Option<u32>) -> Option<u32>
        ensures request { result ≡ request_of (fetch_after_answer ans.now redirect self.now) }
        ensures rule { Issues ans.now redirect self.now result }
        ensures aligned { IfSome result (λ addr. addr % 4 ≡ 0) }
    {
        let mut heard = *self;
        heard.hear(ans, redirect);
        heard.next_request()
    }

    /// Ends a cycle with the answer `ans`, in which the first `taken`, 0 to 2, of the parcels that are ready leave the
    /// buffer. In the cycle of a redirect none is ready.
    #[tactic(auto, unfolding(crate::specs::Buffer::prefetch_next))]
    pub fn advance(&mut self, ans: &WordAns, redirect: Option<u32>, taken: u8)
        ensures fields { self.new ≡ prefetch_next ans.now redirect taken self.old }
        ensures within { IsWithin self.old → IsWithin self.new }
        ensures queue { self.old.buf_count ≤ 3 → taken ≤ 2
            → parcels_of self.new ≡ drop taken (offered ans.now redirect self.old) }
        ensures order { KeepsOrder ans.now redirect taken self.old self.new }
    {
        self.hear(ans, redirect);
        self.end(taken);
    }

    /// The first half of a cycle, in place: its redirect to the byte address `redirect`, if there is one, and its
    /// answer `ans`.
    #[inline(always)]
    pub fn hear(&mut self, ans: &WordAns, redirect: Option<u32>)
        ensures fields { self.new ≡ fetch_after_answer ans.now redirect self.old }
        ensures within { IsWithin self.old → IsWithin self.new }
    {
        let dropped = self.f_drop || redirect.is_some();
        self.turn(redirect);
        self.receive(ans, dropped);
    }

    /// The second half of a cycle, in place: its word request goes out, and the first `taken`, 0 to 2, of the parcels
    /// that are held leave the buffer.
    #[inline(always)]
    pub fn end(&mut self, taken: u8)
        ensures fields { self.new ≡ took taken (requested (request_of self.old) self.old) }
        ensures within { IsWithin self.old → IsWithin self.new }
    {
        let request = self.next_request();
        self.ask(request);
        self.take(taken);
    }

    // The word that is outstanding is of before the redirect.
    #[inline(always)]
    #[tactic(auto, unfolding(crate::specs::Buffer::turned))]
    fn turn(&mut self, redirect: Option<u32>)
        ensures fields { self.new ≡ turned redirect self.old }
        ensures within { IsWithin self.old → IsWithin self.new }
    {
        if let Some(target) = redirect {
            self.f_fresh = true;
            self.f_drop = self.f_busy;
            self.buf0 = 0;
            self.buf1 = 0;
            self.buf2 = 0;
            self.buf_count = 0;
            self.head_pc = target;
        }
    }

    // A mark without an outstanding request is lost.
    #[inline(always)]
    #[tactic(auto, unfolding(crate::specs::Buffer::received))]
    fn receive(&mut self, ans: &WordAns, dropped: bool)
        ensures fields { self.new ≡ received ans.now.valid dropped (entry_of ans.now.err ans.now.word) self.old }
        ensures within { IsWithin self.old → IsWithin self.new }
    {
        if !ans.valid {
            self.f_drop = self.f_drop && self.f_busy;
        } else if dropped {
            self.f_busy = false;
            self.f_drop = false;
        } else {
            self.f_busy = false;
            self.push(entry(ans.err, ans.word));
        }
    }

    // A word more than three is lost.
    #[inline(always)]
    #[tactic(auto, unfolding(crate::specs::Buffer::pushed))]
    fn push(&mut self, entry: u64)
        ensures fields { self.new ≡ pushed self.old.buf_count entry self.old }
        ensures within { entry < 2 ^ 33 → IsWithin self.old → IsWithin self.new }
    {
        match self.buf_count {
            0 => {
                self.buf0 = entry;
                self.buf_count = 1;
            }
            1 => {
                self.buf1 = entry;
                self.buf_count = 2;
            }
            2 => {
                self.buf2 = entry;
                self.buf_count = 3;
            }
            _ => {}
        }
    }

    /// The next two parcels of the words that are held: after `hear`, those of its cycle.
    #[inline(always)]
    #[tactic(auto, unfolding(crate::specs::Buffer::head_of))]
    pub fn held_head(&self) -> Head
        ensures { result ≡ head_of self.now }
    {
        let half = (self.head_pc / 2 % 2) as u8;
        Head {
            first: self.parcel(half),
            second: self.parcel(half + 1),
        }
    }

    // Half `half` of the words that are held, counted from the low half of the oldest.
    #[inline(always)]
    fn parcel(&self, half: u8) -> Parcel
        ensures { result ≡ held_parcel self.now half }
    {
        let entry = self.word(half / 2);
        Parcel {
            ready: half / 2 < self.buf_count,
            err: entry >> 32 != 0,
            half: (entry >> (16 * (half % 2)) & 0xffff) as u16,
        }
    }

    #[inline(always)]
    fn word(&self, place: u8) -> u64
        ensures { result ≡ held_word self.now place }
    {
        match place {
            0 => self.buf0,
            1 => self.buf1,
            _ => self.buf2,
        }
    }

    /// The byte address of the word that is requested, a multiple of 4, if one is: after `hear`, that of its cycle.
    #[inline(always)]
    #[tactic(auto, unfolding(crate::specs::Buffer::request_of))]
    pub fn next_request(&self) -> Option<u32>
        ensures request { result ≡ request_of self.now }
        ensures aligned { IfSome result (λ addr. addr % 4 ≡ 0) }
    {
        if self.f_busy || !self.f_fresh && self.buf_count >= 3 {
            None
        } else if self.f_fresh {
            Some(self.head_pc / 4 * 4)
        } else {
            Some((self.f_addr / 4 * 4).wrapping_add(4))
        }
    }

    #[inline(always)]
    #[tactic(auto, unfolding(crate::specs::Buffer::requested))]
    fn ask(&mut self, request: Option<u32>)
        ensures fields { self.new ≡ requested request self.old }
        ensures within { IsWithin self.old → IsWithin self.new }
    {
        if let Some(addr) = request {
            self.f_busy = true;
            self.f_fresh = false;
            self.f_addr = addr;
        }
    }

    // The oldest word goes where its last parcel is taken.
    #[inline(always)]
    fn take(&mut self, taken: u8)
        ensures fields { self.new ≡ took taken self.old }
        ensures within { IsWithin self.old → IsWithin self.new }
    {
        let head_pc = self.head_pc.wrapping_add(2 * taken as u32);
        self.pop(self.head_pc / 2 % 2 + taken as u32 >= 2);
        self.head_pc = head_pc;
    }

    #[inline(always)]
    #[tactic(auto, unfolding(crate::specs::Buffer::popped))]
    fn pop(&mut self, spent: bool)
        ensures fields { self.new ≡ popped spent self.old }
        ensures within { IsWithin self.old → IsWithin self.new }
    {
        if spent {
            self.buf0 = self.buf1;
            self.buf1 = self.buf2;
            self.buf2 = 0;
            self.buf_count = self.buf_count.saturating_sub(1);
        }
    }
}

#[inline(always)]
fn entry(err: bool, word: u32) -> u64
    ensures value { result ≡ entry_of err word }
    ensures within { result < 2 ^ 33 }
{
    if err {
        word as u64 + 0x1_0000_0000
    } else {
        word as u64
    }
}
