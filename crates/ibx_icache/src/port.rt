ghost use Rattle.std.specs.Prelude.{◌≡◌, ◌≢◌, ◌+◌, ◌*◌, ◌/◌, ◌%◌, ◌^◌, ◌<◌, ◌≤◌, Bool, Decides, true, false, ◌&&◌};
ghost use Rattle.std.specs.Prelude.{◌||◌, not, ◌==◌, nat_le};
ghost use Rattle.ibx_isa.specs.declared.bus.Rsp.{Rsp};
ghost use Rattle.ibx_secded.specs.Code.{payload_of, syndrome_of};
ghost use Rattle.ibx_prefetch.specs.Buffer.{entry_of};
ghost use Rattle.ibx_icache.specs.Doing.{doing_of, granted_by, is_rest, state_of, wires_by};
ghost use Rattle.ibx_icache.specs.WordPort.{AreCodewords, AreSound, IsFields, IsInput, WordIn, answer_of, begun_by};
ghost use Rattle.ibx_icache.specs.WordPort.{entry_by, filling_of, gone_by, half_of, is_bad_word, is_cached, is_hit};
ghost use Rattle.ibx_icache.specs.WordPort.{look_of, looked, marked, met_of, out_of, reset_of, rsp_entry, stores_of};
ghost use Rattle.ibx_icache.specs.WordPort.{victim_of, walked, word_in, word_port_next};
ghost use Rattle.ibx_icache.specs.Rules.{Empties, Emptying, IsBad, IsFetch, IsGiven, IsHit, IsMiss, IsOutput};
ghost use Rattle.ibx_icache.specs.Rules.{IsStored, IsVictim, KeepsFences, StoresLine, WalksOn, half_at, hit_answer};
ghost use Rattle.ibx_icache.specs.Rules.{word_in_way};

use crate::doing::Doing;
use crate::lookup::{Found, Look};
use crate::wires::{CacheIn, CacheOut};
use crate::writes::{Filling, alerts, data_word, out_wires, slot, tag_word};
use ibx_isa::{Req, Rsp};
use ibx_prefetch::WordAns;
use ibx_secded::Code;

/// The word port of the instruction fetch: the outstanding word request, and the walk that empties the cache.
///
/// A request that is cached is looked up in the next cycle. A hit answers then; a miss asks the bus for both words of
/// the line from then on, stores the line in the cycle of the second answer, and answers in the cycle after it. An
/// uncached request is one transaction, asked for in its own cycle, and answers with the bus.
#[derive(Clone, Copy, Debug, PartialEq, Eq)]
pub struct WordPort {
    /// What it does, in 4 bits: 0 idle, 1 lookup, 2 first word not granted, 3 first word granted, 4 second not granted,
    /// 5 second granted, 6 answer, 7 uncached not granted, 8 uncached granted. Other values act as 0.
    pub c_state: u8,
    /// The byte address of the last request.
    pub c_addr: u32,
    /// The first word of the line, with its error in bit 32.
    pub c_word0: u64,
    /// The second word of the line, with its error in bit 32.
    pub c_word1: u64,
    /// The way that the miss fills; `true` is way 1.
    pub c_way: bool,
    /// The way other than that of the last stored line.
    pub c_alt: bool,
    /// The next set that the walk empties, in 9 bits; 256 where it has ended. Larger values act as 256.
    pub c_walk: u16,
    /// Whether a FENCE.I came while the request was outstanding, so that its line isn't stored.
    pub c_nostore: bool,
}

/// What comes to the outstanding request in a cycle, before the next request is known.
#[derive(Clone, Copy)]
pub struct Met {
    /// The answer of the cycle.
    pub ans: WordAns,
    /// The request is looked up, and its line is there.
    pub hit: bool,
    /// The request is looked up, and a way is bad.
    pub bad: bool,
    /// The request is looked up, and a miss would fill way 1.
    pub victim: bool,
}

impl WordPort {
    /// The port at reset: no request is outstanding, and the walk begins.
    #[tactic(auto, unfolding(crate::specs::WordPort::reset_of))]
    pub fn reset() -> WordPort
        ensures fields { result ≡ reset_of }
        ensures widths { IsFields result }

        // From here the walk empties set n in cycle n, and no line is stored with a FENCE.I from its request to its
        // second answer, whatever comes.
        ensures emptying { Emptying result }
        ensures fences { KeepsFences result }
    {
        WordPort {
            c_state: 0,
            c_addr: 0,
            c_word0: 0,
            c_word1: 0,
            c_way: false,
            c_alt: false,
            c_walk: 0,
            c_nostore: false,
        }
    }

    /// The byte address at which the cache is read in this cycle: that of the request that is looked up, and else 0.
    #[inline(always)]
    pub fn looked(&self) -> u32
        ensures { result ≡ looked self.now }
    {
        if self.c_state == 1 { self.c_addr } else { 0 }
    }

    /// The answer of this cycle to the outstanding request. It is an error where the bus answered one, or where a bit
    /// of its word was flipped. Where nothing answers, all else is 0.
    pub fn answer(&self, i: &CacheIn) -> WordAns
        requires { IsInput i.now }
        ensures value { result ≡ answer_of self.now i.now.rsp (look_of i.now.tags i.now.lanes) }

        // A lookup answers exactly where the lowest way that matches is there and no way is bad, with that way's word.
        ensures hit { self.now.c_state ≡ 1
            → Decides result.valid ((way : Bool) × IsHit (look_of i.now.tags i.now.lanes) self.now.c_addr way) }
        ensures word { self.now.c_state ≡ 1 → (way : Bool) → IsHit (look_of i.now.tags i.now.lanes) self.now.c_addr way
            → result ≡ hit_answer (payload_of 32 (word_in_way (look_of i.now.tags i.now.lanes) way)) }

        // After a miss it answers with its own word of the line, and with that word's error.
        ensures last { self.now.c_state ≡ 6 → IsGiven result (half_at self.now (self.now.c_addr / 4 % 2)) }
    {
        self.meet(i).ans
    }

    /// The wires of this cycle.
    #[tactic(auto, using(crate::proofs::Driven::out_rules))]
    pub fn out(&self, i: &CacheIn) -> CacheOut
        requires { IsInput i.now }
        ensures value { result ≡ out_of self.now (word_in i.now) }

        // On the bus it reads aligned words, and nothing else.
        ensures fetch { IsFetch result.bus }
        ensures aligned { result.bus.addr % 4 ≡ 0 }

        // A line is stored exactly where it may be, in codewords, whatever the fields are.
        ensures widths { IsOutput result }
        ensures codewords { result.ways ≢ 0 → AreCodewords result.tag result.line0 result.line1 }
        ensures stored { result.ways ≢ 0 → IsStored self.now (word_in i.now) }
        ensures line { IsStored self.now (word_in i.now) → StoresLine self.now (word_in i.now) result }

        // The walk empties the next set.
        ensures empties { self.now.c_walk < 256 → Empties self.now.c_walk result }
        ensures ended { 256 ≤ self.now.c_walk → result.clear ≡ false }

        // MINOR exactly where a way that is looked up is bad, BUS exactly where a word that the bus answers has a
        // flipped bit, and no other alert.
        ensures minor { Decides (result.alerts.0 % 2 == 1) ((self.now.c_state ≡ 1)
            × ((way : Bool) × IsBad (look_of i.now.tags i.now.lanes) self.now.c_addr way)) }
        ensures bus { Decides (result.alerts.0 / 4 == 1) ((i.now.rsp.valid ≡ true)
            × (syndrome_of 32 7 i.now.rsp.word ≢ 0)) }
        ensures internal { result.alerts.0 / 2 % 2 ≡ 0 }
    {
        self.outcome(i)
    }

    /// Ends the cycle.
    pub fn advance(&mut self, i: &CacheIn)
        requires { IsInput i.now }
        ensures fields { self.new ≡ word_port_next self.old (word_in i.now) i.now.granted }
        ensures widths { IsFields self.old → IsFields self.new }

        // A miss fills the lowest way that is bad, else the lowest that is empty, else the other than that of the last
        // stored line.
        ensures victim { self.old.c_state ≡ 1 → IsMiss (look_of i.now.tags i.now.lanes) self.old.c_addr
            → IsVictim (look_of i.now.tags i.now.lanes) self.old.c_addr self.old.c_alt self.new.c_way }
        ensures turned { IsStored self.old (word_in i.now) → self.new.c_alt ≡ not self.old.c_way }
        ensures kept { ¬ IsStored self.old (word_in i.now) → self.new.c_alt ≡ self.old.c_alt }

        // The walk goes on by a set a cycle, and a FENCE.I begins it anew.
        ensures walk { WalksOn i.now.fence self.old.c_walk self.new.c_walk }
        ensures anew { i.now.fence ≡ true → Emptying self.new }
    {
        self.step(i);
    }

    /// What comes to the outstanding request in a cycle. It needs neither the cycle's request nor its FENCE.I.
    #[inline(always)]
    pub fn meet(&self, i: &CacheIn) -> Met
        requires { IsInput i.now }
        ensures { result ≡ met_of self.now i.now.rsp (look_of i.now.tags i.now.lanes) }
    {
        let found = self.found(i);
        Met {
            ans: self.answered(i, found.hit),
            hit: found.hit,
            bad: found.bad,
            victim: found.victim,
        }
    }

    /// A cycle in place, in which nothing is granted, with its wires: `met` is what came in it. It doesn't look at
    /// `i.granted`; where the request that is driven is granted, `grant` comes after it.
    #[inline(always)]
    #[tactic(auto, using(crate::proofs::Runs::next_fields))]
    pub fn turn(&mut self, i: &CacheIn, met: &Met) -> CacheOut
        requires input { IsInput i.now }
        requires met { met.now ≡ met_of self.old i.now.rsp (look_of i.now.tags i.now.lanes) }
        ensures out { result ≡ out_of self.old (word_in i.now) }
        ensures fields { self.new ≡ word_port_next self.old (word_in i.now) false }
        ensures widths { IsOutput result }
        ensures codewords { result.ways ≢ 0 → AreCodewords result.tag result.line0 result.line1 }
        ensures aligned { result.bus.addr % 4 ≡ 0 }
        ensures kept { IsFields self.old → IsFields self.new }
    {
        let flipped = is_flipped(&i.rsp);
        let filling = self.filling(i, flipped);
        self.proceed(i, met, flipped);
        out_wires(filling, self.wires(), alerts(met.bad, flipped))
    }

    /// The request that was driven is granted: it is awaited from now on.
    #[inline(always)]
    #[tactic(auto, using(crate::proofs::Turned::grant_rules))]
    pub fn grant(&mut self)
        ensures value { self.new
            ≡ record self.old { c_state = state_of (granted_by true (doing_of self.old.c_state)) } }

        // After `turn` it is the cycle in which the request is granted.
        ensures law { (w : WordPort) (i : WordIn) → self.old ≡ word_port_next w i false
            → self.new ≡ word_port_next w i true }
        ensures kept { IsFields self.old → IsFields self.new }
    {
        self.c_state = Doing::of(self.c_state).granted(true).state();
    }

    // What the lookup tells, where there is one: no syndrome of the words that are read is worked out elsewhere.
    #[inline(always)]
    fn found(&self, i: &CacheIn) -> Found
        requires { IsInput i.now }
        ensures hit { result.hit ≡ (met_of self.now i.now.rsp (look_of i.now.tags i.now.lanes)).hit }
        ensures bad { result.bad ≡ (met_of self.now i.now.rsp (look_of i.now.tags i.now.lanes)).bad }
        ensures victim { result.victim ≡ (met_of self.now i.now.rsp (look_of i.now.tags i.now.lanes)).victim }
    {
        if Doing::of(self.c_state).is_look() {
            Look::of(i).find(self.c_addr, self.c_alt)
        } else {
            Found {
                hit: false,
                bad: false,
                victim: false,
            }
        }
    }

    // The answer, where `hit` is that the lookup found the line.
    #[inline(always)]
    #[tactic(auto, unfolding(crate::specs::WordPort::answer_of), using(crate::proofs::Turned::answers_looked))]
    fn answered(&self, i: &CacheIn, hit: bool) -> WordAns
        requires input { IsInput i.now }
        requires hit { hit ≡ (met_of self.now i.now.rsp (look_of i.now.tags i.now.lanes)).hit }
        ensures { result ≡ answer_of self.now i.now.rsp (look_of i.now.tags i.now.lanes) }
    {
        let doing = Doing::of(self.c_state);
        if !doing.answers(i.rsp.valid, hit) {
            return WordAns {
                valid: false,
                err: false,
                word: 0,
            };
        }
        let entry = self.entry(doing, &i.rsp, &Look::of(i));
        WordAns {
            valid: true,
            err: entry / 0x1_0000_0000 != 0,
            word: (entry % 0x1_0000_0000) as u32,
        }
    }

    // The word of its answer, with its error in bit 32.
    #[inline(always)]
    #[tactic(auto, unfolding(crate::specs::WordPort::entry_by))]
    fn entry(&self, doing: Doing, rsp: &Rsp, look: &Look) -> u64
        requires { rsp.now.word < 2 ^ 39 }
        ensures { result ≡ entry_by doing self.now rsp.now look.now }
    {
        match doing {
            Doing::Looks => look.found_word(self.c_addr) as u64,
            Doing::Answers => half(self.c_addr, self.c_word0, self.c_word1),
            _ => rsp_entry(rsp, is_bad(rsp)),
        }
    }

    // The wires, with the rules that take a proof of their own.
    fn outcome(&self, i: &CacheIn) -> CacheOut
        requires { IsInput i.now }
        ensures value { result ≡ out_of self.now (word_in i.now) }
        ensures widths { IsOutput result }
        ensures codewords { result.ways ≢ 0 → AreCodewords result.tag result.line0 result.line1 }
        ensures fetch { IsFetch result.bus }
        ensures stored { result.ways ≢ 0 → IsStored self.now (word_in i.now) }
        ensures line { IsStored self.now (word_in i.now) → StoresLine self.now (word_in i.now) result }
        ensures bus { Decides (result.alerts.0 / 4 == 1) ((i.now.rsp.valid ≡ true)
            × (syndrome_of 32 7 i.now.rsp.word ≢ 0)) }
    {
        self.driven(i)
    }

    fn driven(&self, i: &CacheIn) -> CacheOut
        requires { IsInput i.now }
        ensures value { result ≡ out_of self.now (word_in i.now) }
        ensures widths { IsOutput result }
        ensures codewords { result.ways ≢ 0 → AreCodewords result.tag result.line0 result.line1 }
    {
        let met = self.meet(i);
        let mut port = *self;
        port.turn(i, &met)
    }

    // A cycle, with its grant.
    fn step(&mut self, i: &CacheIn)
        requires { IsInput i.now }
        ensures { self.new ≡ word_port_next self.old (word_in i.now) i.now.granted }
    {
        let met = self.meet(i);
        let _wires = self.turn(i, &met);
        if i.granted {
            self.grant();
        }
    }

    // The fields of a cycle in which nothing is granted.
    #[inline(always)]
    fn proceed(&mut self, i: &CacheIn, met: &Met, flipped: bool)
        requires met { met.now ≡ met_of self.old i.now.rsp (look_of i.now.tags i.now.lanes) }
        requires flipped { flipped ≡ (i.now.rsp.valid && is_bad_word i.now.rsp.word) }
        ensures { self.new ≡ word_port_next self.old (word_in i.now) false }
    {
        let cached = self.is_cached(i);
        let c_walk = walked(i.fence, self.c_walk);
        self.go(i, met, flipped);
        self.mark(i.fence);
        self.begin(cached, i.request);
        self.c_state = Doing::of(self.c_state).state();
        self.c_walk = c_walk;
    }

    #[inline(always)]
    #[tactic(auto, unfolding(crate::specs::WordPort::filling_of))]
    fn filling(&self, i: &CacheIn, flipped: bool) -> Filling
        requires input { IsInput i.now }
        requires flipped { flipped ≡ (i.now.rsp.valid && is_bad_word i.now.rsp.word) }
        ensures value { result ≡ filling_of self.now (word_in i.now) }
        ensures sound { AreSound result }
    {
        if self.c_walk < 256 {
            Filling::Clears {
                set: self.c_walk as u8,
            }
        } else if self.stores(i, flipped) {
            Filling::Stores {
                slot: slot(self.c_addr, self.c_way),
                tag: tag_word(self.c_addr),
                word0: data_word(self.c_word0),
                word1: data_word(payload(&i.rsp) as u64),
            }
        } else {
            Filling::Nothing
        }
    }

    // The wires on the bus, after the cycle's request.
    #[inline(always)]
    fn wires(&self) -> Req
        ensures { result ≡ wires_by (doing_of self.now.c_state) self.now.c_addr }
    {
        Doing::of(self.c_state).wires(self.c_addr)
    }

    // Whether the line is stored in this cycle: neither of its words is an error, and no FENCE.I came meanwhile.
    #[inline(always)]
    #[tactic(auto, using(crate::proofs::Turned::stores_came))]
    fn stores(&self, i: &CacheIn, flipped: bool) -> bool
        requires flipped { flipped ≡ (i.now.rsp.valid && is_bad_word i.now.rsp.word) }
        ensures { result ≡ stores_of self.now (word_in i.now) }
    {
        let fenced = self.c_nostore || i.fence;
        let wrong = i.rsp.err || flipped;
        let good = !wrong && self.c_word0 / 0x1_0000_0000 == 0 && !fenced;
        Doing::of(self.c_state).stores(i.rsp.valid, good, self.c_walk >= 256)
    }

    #[inline(always)]
    fn is_cached(&self, i: &CacheIn) -> bool
        ensures { result ≡ is_cached self.now (word_in i.now) }
    {
        i.enable && self.c_walk >= 256 && !i.fence
    }

    // What comes to the outstanding request: this cycle's answer, or its next step.
    #[inline(always)]
    #[tactic(auto, unfolding(crate::specs::WordPort::gone_by))]
    fn go(&mut self, i: &CacheIn, met: &Met, flipped: bool)
        requires met { met.now ≡ met_of self.old i.now.rsp (look_of i.now.tags i.now.lanes) }
        requires flipped { flipped ≡ (i.now.rsp.valid && is_bad_word i.now.rsp.word) }
        ensures { self.new ≡ gone_by (doing_of self.old.c_state) i.now.rsp.valid
            (is_hit (look_of i.now.tags i.now.lanes) self.old.c_addr) (stores_of self.old (word_in i.now))
            (victim_of (look_of i.now.tags i.now.lanes) self.old.c_addr self.old.c_alt) (rsp_entry i.now.rsp) self.old }
    {
        match Doing::of(self.c_state) {
            Doing::Looks if met.hit => self.c_state = 0,
            Doing::Looks => {
                self.c_state = 2;
                self.c_way = met.victim;
            }
            Doing::AwaitsFirst if i.rsp.valid => {
                self.c_state = 4;
                self.c_word0 = rsp_entry(&i.rsp, flipped);
            }
            Doing::AwaitsSecond if i.rsp.valid => {
                self.c_alt = if self.stores(i, flipped) {
                    !self.c_way
                } else {
                    self.c_alt
                };
                self.c_state = 6;
                self.c_word1 = rsp_entry(&i.rsp, flipped);
            }
            Doing::AwaitsBare if i.rsp.valid => self.c_state = 0,
            Doing::Rests | Doing::Answers => self.c_state = 0,
            _ => {}
        }
    }

    // A FENCE.I keeps the line of an outstanding request from being stored.
    #[inline(always)]
    fn mark(&mut self, fence: bool)
        ensures { self.new ≡ marked fence self.old }
    {
        let rests = Doing::of(self.c_state).is_rest();
        self.c_nostore = !rests && (self.c_nostore || fence);
    }

    // A request is taken up where none is outstanding.
    #[inline(always)]
    #[tactic(auto, unfolding(crate::specs::WordPort::begun_by))]
    fn begin(&mut self, cached: bool, request: Option<u32>)
        ensures { self.new ≡ begun_by (is_rest (doing_of self.old.c_state)) cached request self.old }
    {
        match request {
            Some(addr) if Doing::of(self.c_state).is_rest() => {
                self.c_state = if cached { 1 } else { 7 };
                self.c_addr = addr;
                self.c_nostore = false;
            }
            _ => {}
        }
    }
}

// The walk empties a set a cycle, and a FENCE.I begins it anew.
#[inline(always)]
fn walked(fence: bool, walk: u16) -> u16
    ensures { result ≡ walked fence walk }
{
    if fence {
        0
    } else if walk < 256 {
        walk + 1
    } else {
        walk
    }
}

#[inline(always)]
fn half(addr: u32, word0: u64, word1: u64) -> u64
    ensures { result ≡ half_of addr word0 word1 }
{
    if addr / 4 % 2 == 0 { word0 } else { word1 }
}

#[inline(always)]
fn payload(rsp: &Rsp) -> u32
    ensures { result ≡ payload_of 32 rsp.now.word }
{
    Code::<32, 7>::payload(rsp.word) as u32
}

// Whether the word has a flipped bit, whether or not it answers.
#[inline(always)]
fn is_bad(rsp: &Rsp) -> bool
    requires { rsp.now.word < 2 ^ 39 }
    ensures { result ≡ is_bad_word rsp.now.word }
{
    Code::<32, 7>::syndrome(rsp.word) != 0
}

// Whether a word answers that has a flipped bit. Its syndrome is worked out only where one answers.
#[inline(always)]
fn is_flipped(rsp: &Rsp) -> bool
    requires { rsp.now.word < 2 ^ 39 }
    ensures { result ≡ (rsp.now.valid && is_bad_word rsp.now.word) }
{
    rsp.valid && is_bad(rsp)
}

// Its word, with bit 32 set where it is an error or has a flipped bit.
#[inline(always)]
fn rsp_entry(rsp: &Rsp, flipped: bool) -> u64
    ensures value { result ≡ entry_of (rsp.now.err || flipped) (payload_of 32 rsp.now.word) }
    ensures fits { result < 2 ^ 33 }
{
    let wrong = rsp.err || flipped;
    payload(rsp) as u64 + if wrong { 0x1_0000_0000 } else { 0 }
}
