ghost use Rattle.std.specs.Prelude.{◌≡◌};
ghost use Rattle.ibx_icache.specs.Doing.{answers_by, doing_of, granted_by, is_look, is_rest, state_of, stores_by};
ghost use Rattle.ibx_icache.specs.Doing.{wires_by};
ghost use Rattle.ibx_isa.specs.Wires.{fetch_wires};

use ibx_isa::Req;

/// What the port does with the outstanding request.
#[derive(Clone, Copy)]
pub enum Doing {
    /// There is none.
    Rests,
    /// It is looked up in the cache.
    Looks,
    /// It missed, and the first word of its line isn't granted yet.
    AsksFirst,
    AwaitsFirst,
    /// The second word of its line isn't granted yet.
    AsksSecond,
    AwaitsSecond,
    /// Both words have come, and it answers.
    Answers,
    /// It isn't cached, and its word isn't granted yet.
    AsksBare,
    AwaitsBare,
}

impl Doing {
    #[inline(always)]
    #[tactic(auto, unfolding(crate::specs::Doing::doing_of))]
    pub fn of(state: u8) -> Doing
        ensures { result ≡ doing_of state }
    {
        match state {
            1 => Doing::Looks,
            2 => Doing::AsksFirst,
            3 => Doing::AwaitsFirst,
            4 => Doing::AsksSecond,
            5 => Doing::AwaitsSecond,
            6 => Doing::Answers,
            7 => Doing::AsksBare,
            8 => Doing::AwaitsBare,
            _ => Doing::Rests,
        }
    }

    #[inline(always)]
    pub fn state(self) -> u8
        ensures { result ≡ state_of self }
    {
        match self {
            Doing::Rests => 0,
            Doing::Looks => 1,
            Doing::AsksFirst => 2,
            Doing::AwaitsFirst => 3,
            Doing::AsksSecond => 4,
            Doing::AwaitsSecond => 5,
            Doing::Answers => 6,
            Doing::AsksBare => 7,
            Doing::AwaitsBare => 8,
        }
    }

    #[inline(always)]
    pub fn is_rest(self) -> bool
        ensures { result ≡ is_rest self }
    {
        match self {
            Doing::Rests => true,
            _ => false,
        }
    }

    #[inline(always)]
    pub fn is_look(self) -> bool
        ensures { result ≡ is_look self }
    {
        match self {
            Doing::Looks => true,
            _ => false,
        }
    }

    /// Whether the request answers; `came` is that the bus answers, and `hit` that the line is there.
    #[inline(always)]
    #[tactic(auto, unfolding(crate::specs::Doing::answers_by))]
    pub fn answers(self, came: bool, hit: bool) -> bool
        ensures { result ≡ answers_by self came hit }
    {
        match self {
            Doing::Looks => hit,
            Doing::Answers => true,
            Doing::AwaitsBare => came,
            _ => false,
        }
    }

    /// Whether the line is stored; `good` is that it may be, and `ended` that the walk has ended.
    #[inline(always)]
    pub fn stores(self, came: bool, good: bool, ended: bool) -> bool
        ensures { result ≡ stores_by self came good ended }
    {
        match self {
            Doing::AwaitsSecond => came && good && ended,
            _ => false,
        }
    }

    #[inline(always)]
    #[tactic(auto, unfolding(crate::specs::Doing::granted_by))]
    pub fn granted(self, granted: bool) -> Doing
        ensures { result ≡ granted_by granted self }
    {
        if !granted {
            return self;
        }
        match self {
            Doing::AsksFirst => Doing::AwaitsFirst,
            Doing::AsksSecond => Doing::AwaitsSecond,
            Doing::AsksBare => Doing::AwaitsBare,
            other => other,
        }
    }

    /// The wires on the bus, for a request of the word at `addr`.
    #[inline(always)]
    #[tactic(auto, unfolding(crate::specs::Doing::wires_by))]
    pub fn wires(self, addr: u32) -> Req
        ensures { result ≡ wires_by self addr }
    {
        match self {
            Doing::AsksFirst => fetch(addr / 8 * 8),
            Doing::AsksSecond => fetch(addr / 8 * 8 + 4),
            Doing::AsksBare => fetch(addr / 4 * 4),
            _ => Req::NONE,
        }
    }
}

#[inline(always)]
fn fetch(addr: u32) -> Req
    ensures { result ≡ fetch_wires addr }
{
    Req {
        valid: true,
        write: false,
        be: 15,
        addr,
        word: 0,
    }
}
