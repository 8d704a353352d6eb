ghost use Rattle.std.specs.Prelude.{◌≡◌, ◌≤◌, ◌<◌, ◌^◌, ◌%◌, ◌==◌, ◌&&◌, IfSome, None, Some, false, true};
ghost use Rattle.std.specs.Prelude.{if◌then◌else◌};
ghost use Rattle.ibx_isa.specs.Events.{IsPrintable};
ghost use Rattle.ibx_icache.specs.WordPort.{IsInput, look_of, met_of, out_of, word_in};
ghost use Rattle.ibx_muldiv.specs.Unit.{left_of, tick_of};
ghost use Rattle.ibx_id.specs.Turns.{IsWithinWidths};
ghost use Rattle.ibx_id.specs.declared.stage.IdState.{IdState};
ghost use Rattle.ibx_id.specs.declared.stage.Turn.TheVariants.{Hold};
ghost use Rattle.ibx_core.specs.Core.{asked, before_grants, core_next, core_out, cycle_seen, fetch_side, gives};
ghost use Rattle.ibx_core.specs.Core.{granted, head_at, leaves, ls_by, md_next, next_by, out_by, port_of};
ghost use Rattle.ibx_core.specs.Core.{with_port};
ghost use Rattle.ibx_core.specs.Effects.{fences, redirects, target_if};
ghost use Rattle.ibx_core.specs.Fields.{Fits};
ghost use Rattle.ibx_core.specs.Inputs.{inputs_of, irsp_of, look_in};
ghost use Rattle.ibx_core.specs.Sights.{IsSight, row_of};

use crate::output::{put_access, put_port, put_reads};
use crate::sight::{Sight, data_answer};
use crate::state::State;
use crate::wires::{In, Out};
use ibx_icache::{CacheIn, Met};
use ibx_id::Turn;
use ibx_isa::control::ICACHE_ENABLE;
use ibx_isa::{Insn, Rsp};
use ibx_muldiv::MulDiv;
use ibx_prefetch::{Head, Parcel, Prefetch};

#[inline(always)]
pub fn instruction_answer(i: &In) -> Rsp
    ensures value { result ≡ irsp_of i.now }
    ensures fits { result.word < 2 ^ 39 }
{
    Rsp {
        valid: i.irsp_valid,
        err: i.irsp_err,
        word: i.irsp_word,
    }
}

// What the word port is handed before the request of the cycle is known. Whether the cache is enabled is as the events
// before this cycle left it.
#[inline(always)]
#[tactic(auto, unfolding(crate::specs::Core::port_of))]
fn cache_in(x: &State, i: &In) -> CacheIn
    ensures value { word_in result ≡ port_of x.now (inputs_of i.now) None false }
    ensures rsp { result.rsp ≡ irsp_of i.now }
    ensures look { look_of result.tags result.lanes ≡ look_in i.now }
    ensures fits { IsInput result }
{
    CacheIn {
        request: None,
        enable: x.csrs.cpuctrl & ICACHE_ENABLE != 0,
        fence: false,
        rsp: instruction_answer(i),
        tags: [i.tag0 as u64, i.tag1 as u64],
        lanes: [i.data0, i.data1],
        granted: false,
    }
}

const NO_PARCEL: Parcel = Parcel {
    ready: false,
    err: false,
    half: 0,
};

// The next two parcels; in the cycle of a redirect none is ready.
#[inline(always)]
#[tactic(auto, unfolding(crate::specs::Core::head_at))]
fn head(redirect: Option<u32>, fetch: &Prefetch) -> Head
    ensures { result ≡ head_at redirect fetch.now }
{
    match redirect {
        None => fetch.held_head(),
        Some(_) => Head {
            first: NO_PARCEL,
            second: NO_PARCEL,
        },
    }
}

// Where the fetch side begins anew: at the next instruction, where the turn redirects.
#[inline(always)]
fn redirect(turn: &Turn, next_pc: u32) -> Option<u32>
    ensures { result ≡ target_if (redirects turn.now) next_pc }
{
    match *turn {
        Turn::Irq | Turn::Trap { .. } | Turn::Retire { redirect: true } => Some(next_pc),
        _ => None,
    }
}

#[inline(always)]
fn is_fence(turn: &Turn, row: Option<Insn>) -> bool
    ensures { result ≡ fences turn.now row }
{
    match (*turn, row) {
        (Turn::Retire { .. }, Some(Insn::FenceI)) => true,
        _ => false,
    }
}

// An operation goes on while its row is held.
#[inline(always)]
#[tactic(auto, unfolding(crate::specs::Core::md_next))]
fn next_unit(turn: &Turn, unit: &MulDiv) -> MulDiv
    ensures { result ≡ md_next turn.now unit.now }
{
    match *turn {
        Turn::Hold(_) => ticked(unit),
        _ => MulDiv::idle(),
    }
}

#[inline(always)]
fn ticked(unit: &MulDiv) -> MulDiv
    ensures { result ≡ (if left_of unit.now == 0 then unit.now else tick_of unit.now) }
{
    let mut after = *unit;
    if unit.left() != 0 {
        after.tick();
    }
    after
}

impl State {
    // An access moves while it is active; its request isn't granted yet.
    #[inline(always)]
    #[tactic(auto, unfolding(crate::specs::Core::ls_by))]
    fn move_access(&mut self, g: &Sight, rsp: &Rsp)
        requires size { IfSome g.now.access (λ w. w.size ≤ 4) }
        requires word { rsp.now.word < 2 ^ 39 }
        ensures value { self.new ≡ record self.old { ls = ls_by g.now.active g.now.access self.old.ls rsp.now false } }
        ensures fits { self.old.ls.ls_state < 2 ^ 3 → self.new.ls.ls_state < 2 ^ 3 }
    {
        match g.access {
            Some(want) if g.active => self.ls.advance(&want, rsp, false),
            _ => {}
        }
    }

    // The fetch side's part of a cycle: what answers, what enters the stage, the next request, and the word port.
    #[inline(always)]
    #[tactic(auto, unfolding(ibx_prefetch::specs::Buffer::prefetch_next))]
    fn fetch_on(&mut self, g: &Sight, cache: &mut CacheIn, met: &Met, lines: u32, o: &mut Out)
        requires fields { Fits self.old }
        requires held { (next : IdState) → g.now.turn ≡ Hold next → IsWithinWidths next }
        requires input { IsInput cache.old }
        requires met { met.now ≡ met_of self.old.words cache.old.rsp (look_of cache.old.tags cache.old.lanes) }
        ensures moved { self.new ≡ fetch_side g.now (word_in cache.old) met.now.ans lines self.old }
        ensures output { o.new ≡ with_port o.old
            (out_of self.old.words (asked g.now (word_in cache.old) met.now.ans self.old)) }
        ensures fetched { o.new.iaddr % 4 ≡ 0 }
        ensures fits { Fits self.new }
    {
        let redirect = redirect(&g.turn, self.next_pc);
        self.fetch.hear(&met.ans, redirect);
        let head = head(redirect, &self.fetch);
        let taken = self.admit(&g.turn, &head, lines);
        cache.request = self.fetch.next_request();
        cache.fence = is_fence(&g.turn, g.row);
        self.fetch.end(taken);
        put_port(o, &self.words.turn(cache, met));
    }

    // A cycle by what the stage sees, while nothing is granted.
    #[inline(always)]
    #[tactic(auto, unfolding(crate::specs::Core::cycle_seen, crate::specs::Core::cycle_with, crate::specs::Core::next_by, crate::specs::Core::out_by, crate::specs::Core::out_with, crate::specs::Core::port_of), using(crate::proofs::Turns::redirect_is, crate::proofs::Turns::fence_is, crate::proofs::Tags::bad_is))]
    fn work(&mut self, g: &Sight, i: &In, o: &mut Out)
        requires fields { Fits self.old }
        requires sight { IsSight self.old g.now }
        requires row { g.now.row ≡ row_of self.old.id }
        ensures moved { self.new ≡ next_by (cycle_seen g.now self.old (inputs_of i.now)) self.old (inputs_of (before_grants i.now)) }
        ensures output { o.new ≡ out_by (cycle_seen g.now self.old (inputs_of i.now)) self.old i.now }
        ensures fits { Fits self.new }
        ensures fetched { o.new.iaddr % 4 ≡ 0 }
        ensures accessed { o.new.daddr % 4 ≡ 0 }
        ensures printable { IfSome o.new.event IsPrintable }
    {
        let mut cache = cache_in(self, i);
        let met = self.words.meet(&cache);
        o.alerts = self.alerts(i, met.bad);
        put_reads(o, &self.reads_by(g.row));
        put_access(o, &g.ls.req);
        self.take(g, i.lines, o);
        self.fetch_on(g, &mut cache, &met, i.lines, o);
        self.move_access(g, &data_answer(i));
        self.md = next_unit(&g.turn, &g.md);
    }

    // The same with the wires as they are heard.
    #[inline(always)]
    #[tactic(auto, unfolding(crate::specs::Core::leaves, crate::specs::Core::gives, crate::specs::Core::cycle_of), using(crate::proofs::Laws::seen_ungranted))]
    fn work_heard(&mut self, i: &In, o: &mut Out)
        requires { Fits self.old }
        ensures moved { self.new ≡ leaves self.old (before_grants i.now) }
        ensures output { o.new ≡ gives self.old i.now }
        ensures fits { Fits self.new }
        ensures fetched { o.new.iaddr % 4 ≡ 0 }
        ensures accessed { o.new.daddr % 4 ≡ 0 }
        ensures printable { IfSome o.new.event IsPrintable }
    {
        let g = Sight::of(self, i);
        self.work(&g, i, o);
    }

    /// Begins a cycle: puts out what the core puts out, and moves the fields as if nothing were granted.
    #[tactic(auto, unfolding(crate::specs::Core::core_next, crate::specs::Core::core_out, crate::specs::Core::heard))]
    pub fn begin(&mut self, i: &In, o: &mut Out)
        requires { Fits self.old }
        ensures begun { self.new ≡ core_next self.old (before_grants i.now) }
        ensures output { o.new ≡ core_out self.old i.now }
        ensures fits { Fits self.new }
        ensures fetched { o.new.iaddr % 4 ≡ 0 }
        ensures accessed { o.new.daddr % 4 ≡ 0 }
        ensures printable { IfSome o.new.event IsPrintable }
    {
        let heard = self.heard(i);
        self.work_heard(&heard, o);
    }

    /// Ends a cycle that has begun, by its grants; that of the data port counts where it drives a request.
    #[inline(always)]
    pub fn finish(&mut self, i: &In, o: &Out)
        requires { Fits self.old }
        ensures value { self.new ≡ granted i.now.igrant (i.now.dgrant && o.now.dreq) self.old }
        ensures fits { Fits self.new }
    {
        if i.igrant {
            self.words.grant();
        }
        if i.dgrant && o.dreq {
            self.ls.grant();
        }
    }

    /// What the core puts out in a cycle.
    pub fn out(&self, i: &In) -> Out
        requires { Fits self.now }
        ensures value { result ≡ core_out self.now i.now }
        ensures fetched { result.iaddr % 4 ≡ 0 }
        ensures accessed { result.daddr % 4 ≡ 0 }
        ensures printable { IfSome result.event IsPrintable }
    {
        let mut after = *self;
        let mut o = Out::quiet();
        after.begin(i, &mut o);
        o
    }

    /// Ends a cycle.
    #[tactic(auto, using(crate::proofs::Laws::grants_last))]
    pub fn advance(&mut self, i: &In)
        requires { Fits self.old }
        ensures value { self.new ≡ core_next self.old i.now }
        ensures fits { Fits self.new }
    {
        let mut o = Out::quiet();
        self.begin(i, &mut o);
        self.finish(i, &o);
    }
}
