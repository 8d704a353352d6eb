ghost use Rattle.std.specs.Prelude.{◌≡◌, ◌<◌, ◌^◌, ◌/◌, ◌+◌, true, false, if◌then◌else◌};
ghost use Rattle.ibx_icache.specs.WordPort.{IsInput, IsLook, found_word, has_bad, is_bad0, is_bad1, is_bad_word};
ghost use Rattle.ibx_icache.specs.WordPort.{is_bad_tag, is_empty, is_hit, look_of, matches, victim_of};

use crate::wires::CacheIn;
use ibx_secded::Code;

/// The words of the cache at an address: of each way its tag word, and of the line there the word of the address.
#[derive(Clone, Copy)]
pub struct Look {
    pub tag0: u64,
    pub tag1: u64,
    pub data0: u64,
    pub data1: u64,
}

/// What a lookup tells; all of it is `false` where there is none.
#[derive(Clone, Copy)]
pub struct Found {
    /// A way matches and no way is bad.
    pub hit: bool,
    /// A way is bad: its tag word has a flipped bit, or it is the lowest that matches and its data word has one.
    pub bad: bool,
    /// A miss fills way 1.
    pub victim: bool,
}

impl Look {
    #[inline(always)]
    pub fn of(i: &CacheIn) -> Look
        requires { IsInput i.now }
        ensures words { result ≡ look_of i.now.tags i.now.lanes }
        ensures fits { IsLook result }
    {
        Look {
            tag0: i.tags[0],
            tag1: i.tags[1],
            data0: i.lanes[0],
            data1: i.lanes[1],
        }
    }

    /// What a lookup of `addr` tells; `other` is the way that a miss fills where both are sound and full. The syndrome
    /// of each word is worked out at most once.
    #[inline(always)]
    #[tactic(auto, unfolding(crate::specs::WordPort::is_hit, crate::specs::WordPort::victim_of))]
    pub fn find(&self, addr: u32, other: bool) -> Found
        requires { IsLook self.now }
        ensures hit { result.hit ≡ is_hit self.now addr }
        ensures bad { result.bad ≡ has_bad self.now addr }
        ensures victim { result.victim ≡ victim_of self.now addr other }
    {
        let bad0 = self.is_bad0(addr);
        let bad1 = self.is_bad1(addr);
        let bad = bad0 || bad1;
        Found {
            hit: (matches(self.tag0, addr) || matches(self.tag1, addr)) && !bad,
            bad,
            victim: self.victim(bad0, bad1, other),
        }
    }

    #[inline(always)]
    fn is_bad0(&self, addr: u32) -> bool
        requires { IsLook self.now }
        ensures { result ≡ is_bad0 self.now addr }
    {
        is_bad_tag(self.tag0) || (matches(self.tag0, addr) && is_bad_word(self.data0))
    }

    #[inline(always)]
    fn is_bad1(&self, addr: u32) -> bool
        requires { IsLook self.now }
        ensures { result ≡ is_bad1 self.now addr }
    {
        is_bad_tag(self.tag1)
            || (!matches(self.tag0, addr) && matches(self.tag1, addr) && is_bad_word(self.data1))
    }

    // The lowest way that is bad, else the lowest that is empty, else `other`.
    #[inline(always)]
    fn victim(&self, bad0: bool, bad1: bool, other: bool) -> bool
        ensures { result ≡ (if bad0 then false else if bad1 then true else if is_empty self.now.tag0 then false
            else if is_empty self.now.tag1 then true else other) }
    {
        if bad0 {
            false
        } else if bad1 {
            true
        } else if is_empty(self.tag0) {
            false
        } else if is_empty(self.tag1) {
            true
        } else {
            other
        }
    }

    /// The word of the lowest way that matches.
    #[inline(always)]
    #[tactic(auto, unfolding(crate::specs::WordPort::found_word))]
    pub fn found_word(&self, addr: u32) -> u32
        ensures { result ≡ found_word self.now addr }
    {
        let word = if matches(self.tag0, addr) {
            self.data0
        } else {
            self.data1
        };
        Code::<32, 7>::payload(word) as u32
    }
}

// Whether a tag is valid and holds bits 31:11 of the address, told by its payload alone.
#[inline(always)]
fn matches(tag: u64, addr: u32) -> bool
    ensures { result ≡ matches tag addr }
{
    Code::<22, 6>::payload(tag) == 0x20_0000 + (addr / 0x800) as u64
}

#[inline(always)]
fn is_empty(tag: u64) -> bool
    ensures { result ≡ is_empty tag }
{
    Code::<22, 6>::payload(tag) / 0x20_0000 == 0
}

#[inline(always)]
fn is_bad_tag(tag: u64) -> bool
    requires { tag < 2 ^ 28 }
    ensures { result ≡ is_bad_tag tag }
{
    Code::<22, 6>::syndrome(tag) != 0
}

#[inline(always)]
fn is_bad_word(word: u64) -> bool
    requires { word < 2 ^ 39 }
    ensures { result ≡ is_bad_word word }
{
    Code::<32, 7>::syndrome(word) != 0
}
