ghost use Rattle.std.specs.Prelude.{◌≡◌, ◌==◌, ◌+◌, ◌*◌, ◌/◌, ◌%◌, ◌^◌, ◌<◌, ◌≤◌, Bool, true, false, if◌then◌else◌};
ghost use Rattle.ibx_secded.specs.Code.{encode_of, payload_of};
ghost use Rattle.ibx_isa.specs.Portions.{portion_addr};
ghost use Rattle.ibx_lsu.specs.Turns.{after_first, after_second, asked_first, asked_second, asks, crosses, faults};
ghost use Rattle.ibx_lsu.specs.Turns.{first_answer, gives, granted_of, idle_of, next_of, reply_of, second_answer};
ghost use Rattle.ibx_lsu.specs.Turns.{stage_of, turn_of, awaits};
ghost use Rattle.ibx_isa.specs.Wires.{no_request, request_of};
ghost use Rattle.ibx_isa.specs.declared.event.Access.{Access};
ghost use Rattle.ibx_isa.specs.declared.bus.Rsp.{Rsp};
ghost use Rattle.ibx_lsu.specs.Order.{Bus, KeepsOrder};

use ibx_isa::{Access, Req, Rsp, lanes, parts};
use ibx_secded::Code;

/// The load-store unit: how far an access has come on the bus. Every value of its fields is a state.
#[derive(Clone, Copy, Debug, PartialEq, Eq)]
pub struct Lsu {
    /// 0 with no access, 1 where the first portion isn't granted yet, 2 where it is, 3 where the second is due, 4 where
    /// it isn't granted yet, and 5 where it is. Other values act as 0.
    pub ls_state: u8,
    /// The word of the first portion, from the cycle after its answer until the second portion's.
    pub ls_first: u32,
}

/// A cycle of an access.
#[derive(Clone, Copy, Debug, PartialEq, Eq)]
pub struct LsTurn {
    /// The request that is driven in this cycle.
    pub req: Req,
    /// Whether this cycle's answer ends the access.
    pub done: bool,
    /// The portion, 1 or 2, whose answer is a bus error or has a flipped bit, else 0.
    pub fault: u8,
    /// The word of a load's first portion in the cycle that ends it without a fault, else 0.
    pub first: u32,
    /// The word of its second portion in that cycle, 0 for a load of one portion, else 0.
    pub second: u32,
}

// What a cycle of an access is about.
#[derive(Clone, Copy)]
enum Stage {
    AskFirst,
    AwaitFirst,
    AskSecond,
    AwaitSecond,
}

// What the bus answers in a cycle.
#[derive(Clone, Copy)]
enum Reply {
    Silent,
    Good,
    Bad,
}

impl Lsu {
    /// The unit with no access on the bus. From here an access goes in order, whatever the times of the bus.
    #[tactic(auto, using(crate::proofs::Order::in_order))]
    pub fn idle() -> Lsu
        ensures fields { result ≡ idle_of }
        ensures order { (want : Access) (bus : Bus) → KeepsOrder result want bus }
    {
        Lsu {
            ls_state: 0,
            ls_first: 0,
        }
    }

    /// What the access `want`, of at most 4 bytes, does in this cycle with the answer `rsp`, a word of 39 bits. A
    /// portion is asked for until it is granted. The second is asked for from the cycle after the first one's answer
    /// on, and not at all where that answer is bad.
    #[tactic(auto, unfolding(crate::specs::Turns::turn_of))]
    pub fn turn(&self, want: &Access, rsp: &Rsp) -> LsTurn
        requires size { want.now.size ≤ 4 }
        requires word { rsp.now.word < 2 ^ 39 }
        ensures turn { result ≡ turn_of self.now want.now rsp.now }
        ensures aligned { result.req.addr % 4 ≡ 0 }
        ensures enables { result.req.be < 16 }
        ensures word { result.req.word < 2 ^ 39 }
    {
        match self.stage() {
            Stage::AskFirst => asking(request(want, false)),
            Stage::AwaitFirst => answer_first(
                Reply::of(rsp),
                crossing(want),
                want.store,
                payload(rsp),
            ),
            Stage::AskSecond => asking(request(want, true)),
            Stage::AwaitSecond => answer_second(
                Reply::of(rsp),
                want.store,
                self.ls_first,
                payload(rsp),
            ),
        }
    }

    /// Ends a cycle of the access `want`; `granted` is that the request of this cycle was granted.
    #[tactic(auto, unfolding(crate::specs::Turns::next_of))]
    pub fn advance(&mut self, want: &Access, rsp: &Rsp, granted: bool)
        requires size { want.now.size ≤ 4 }
        requires word { rsp.now.word < 2 ^ 39 }
        ensures fields { self.new ≡ next_of self.old want.now rsp.now granted }
        ensures state { self.new.ls_state < 6 }
    {
        *self = match self.stage() {
            Stage::AskFirst => state(if granted { 2 } else { 1 }, 0),
            Stage::AwaitFirst => answered_first(Reply::of(rsp), crossing(want), payload(rsp)),
            Stage::AskSecond => state(if granted { 5 } else { 4 }, self.ls_first),
            Stage::AwaitSecond => answered_second(Reply::of(rsp), self.ls_first),
        };
    }

    /// The request of a cycle was granted after `advance` ended the cycle without a grant.
    pub fn grant(&mut self)
        ensures fields { self.new ≡ granted_of self.old }
        // It is what a grant in that cycle would have left, where a request was driven; where none was, a grant
        // changes nothing.
        ensures granted { (u : Lsu) (want : Access) (rsp : Rsp) → (turn_of u want rsp).req.valid ≡ true
            → self.old ≡ next_of u want rsp false → self.new ≡ next_of u want rsp true }
        ensures silent { (u : Lsu) (want : Access) (rsp : Rsp) → (turn_of u want rsp).req.valid ≡ false
            → next_of u want rsp true ≡ next_of u want rsp false }
    {
        self.ls_state = granted_state(self.ls_state);
    }

    fn stage(&self) -> Stage
        ensures { result ≡ stage_of self.now.ls_state }
    {
        match self.ls_state {
            2 => Stage::AwaitFirst,
            3 | 4 => Stage::AskSecond,
            5 => Stage::AwaitSecond,
            _ => Stage::AskFirst,
        }
    }
}

// The state once a request is granted that was driven in it.
fn granted_state(state: u8) -> u8
    ensures { result ≡ (if state == 1 then 2 else if state == 4 then 5 else state) }
{
    match state {
        1 => 2,
        4 => 5,
        _ => state,
    }
}

impl Reply {
    fn of(rsp: &Rsp) -> Reply
        requires { rsp.now.word < 2 ^ 39 }
        ensures { result ≡ reply_of rsp.now }
    {
        if !rsp.valid {
            Reply::Silent
        } else if rsp.err || Code::<32, 7>::syndrome(rsp.word) != 0 {
            Reply::Bad
        } else {
            Reply::Good
        }
    }
}

fn payload(rsp: &Rsp) -> u32
    ensures { result ≡ payload_of 32 rsp.now.word }
{
    Code::<32, 7>::payload(rsp.word) as u32
}

fn crossing(want: &Access) -> bool
    ensures { result ≡ crosses want.now }
{
    parts(want.addr, want.size) == 2
}

#[tactic(auto, unfolding(ibx_isa::specs::Wires::request_of, ibx_isa::specs::Portions::lanes_of))]
fn request(want: &Access, second: bool) -> Req
    requires { want.now.size ≤ 4 }
    ensures request { result ≡ request_of (encode_of 32 7) want.now second }
    ensures aligned { result.addr % 4 ≡ 0 }
    ensures enables { result.be < 16 }
    ensures word { result.word < 2 ^ 39 }
{
    let (be, bits) = lanes(want.addr, want.size, want.value, second);
    Req {
        valid: true,
        write: want.store,
        be,
        addr: word_address(want.addr, second),
        word: store_word(want.store, bits),
    }
}

// The address of the word of a portion.
fn word_address(addr: u32, second: bool) -> u32
    ensures value { result ≡ portion_addr addr second / 4 * 4 }
    ensures aligned { result % 4 ≡ 0 }
{
    let word = addr / 4 * 4;
    if second { word.wrapping_add(4) } else { word }
}

fn store_word(store: bool, bits: u32) -> u64
    ensures value { result ≡ (if store then encode_of 32 7 bits else 0) }
    ensures fits { result < 2 ^ 39 }
{
    if store {
        Code::<32, 7>::encode(bits as u64)
    } else {
        0
    }
}

fn asking(req: Req) -> LsTurn
    ensures { result ≡ asks req }
{
    LsTurn {
        req,
        done: false,
        fault: 0,
        first: 0,
        second: 0,
    }
}

fn failing(part: u8) -> LsTurn
    ensures { result ≡ faults part }
{
    LsTurn {
        done: true,
        fault: part,
        ..asking(Req::NONE)
    }
}

fn giving(store: bool, first: u32, second: u32) -> LsTurn
    ensures { result ≡ gives store first second }
{
    let done = LsTurn {
        done: true,
        ..asking(Req::NONE)
    };
    if store {
        done
    } else {
        LsTurn {
            first,
            second,
            ..done
        }
    }
}

fn answer_first(reply: Reply, two: bool, store: bool, word: u32) -> LsTurn
    ensures { result ≡ first_answer reply two store word }
{
    match reply {
        Reply::Silent => asking(Req::NONE),
        Reply::Bad => failing(1),
        Reply::Good if two => asking(Req::NONE),
        Reply::Good => giving(store, word, 0),
    }
}

fn answer_second(reply: Reply, store: bool, first: u32, word: u32) -> LsTurn
    ensures { result ≡ second_answer reply store first word }
{
    match reply {
        Reply::Silent => asking(Req::NONE),
        Reply::Bad => failing(2),
        Reply::Good => giving(store, first, word),
    }
}

fn state(ls_state: u8, ls_first: u32) -> Lsu
    ensures { result ≡ record { ls_state = ls_state; ls_first = ls_first } }
{
    Lsu { ls_state, ls_first }
}

fn answered_first(reply: Reply, two: bool, word: u32) -> Lsu
    ensures { result ≡ after_first reply two word }
{
    match reply {
        Reply::Silent => state(2, 0),
        Reply::Good if two => state(3, word),
        Reply::Good | Reply::Bad => Lsu::idle(),
    }
}

fn answered_second(reply: Reply, first: u32) -> Lsu
    ensures { result ≡ after_second reply first }
{
    match reply {
        Reply::Silent => state(5, first),
        Reply::Good | Reply::Bad => Lsu::idle(),
    }
}
