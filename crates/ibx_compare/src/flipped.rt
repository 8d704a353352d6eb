ghost use Rattle.std.specs.Prelude.{◌≡◌, ◌<◌, ◌≤◌, ◌^◌, ◌+◌, ◌==◌, ◌&&◌, not, true, length, Some, None};
ghost use Rattle.ibx_plan.specs.Sites.{site_fits};
ghost use Rattle.ibx_system.specs.Core.{core_parts};
ghost use Rattle.ibx_system.specs.Runs.{made, run};
ghost use Rattle.ibx_soc.specs.Cycles.{cycle_of, soc_next};
ghost use Rattle.ibx_soc.specs.First.{IsAsNew};
ghost use Rattle.ibx_compare.specs.Verdicts.{IsNoticed, agree_wires, then_test, verdict as verdict_of};

use ibx_isa::Alerts;
use ibx_plan::Flip;
use ibx_soc::{BusOut, Cycle, Soc};

/// What a flip comes to: the first cycle below the budget in which the bus differs from that without the flip, and the
/// first cycle in which alerts rise, with their set, up to the delay plus one cycles past the budget.
#[derive(Clone, Copy, Debug, PartialEq, Eq)]
pub struct Verdict {
    pub first_diff: Option<u64>,
    pub first_alert: Option<(u64, Alerts)>,
}

// Whether the wires of both buses are equal.
fn same_bus(a: &BusOut, b: &BusOut) -> bool
    ensures { result ≡ agree_wires a.now b.now }
{
    a.fetch.valid == b.fetch.valid
        && a.fetch.addr == b.fetch.addr
        && a.load_store.valid == b.load_store.valid
        && a.load_store.write == b.load_store.write
        && a.load_store.be == b.load_store.be
        && a.load_store.addr == b.load_store.addr
        && a.load_store.word == b.load_store.word
}

// Makes the flip where its cycle has come.
#[tactic(auto, using(ibx_system::proofs::Runs::cycle_flipped))]
fn make(soc: &mut Soc<'_>, flip: &Flip)
    requires { site_fits (length soc.old.place.memory.words) soc.old.delay flip.now.site ≡ true }
    ensures made { soc.new ≡ made core_parts (Some flip.now) soc.old }
    ensures cycle { soc.new.place.cycle ≡ soc.old.place.cycle }
{
    if soc.cycle() == flip.cycle {
        soc.flip(&flip.site);
    }
}

// Makes the flip where its cycle has come, and then one cycle.
fn turn(soc: &mut Soc<'_>, flip: &Flip) -> Cycle
    requires cycle { soc.old.place.cycle < 2 ^ 62 }
    requires fits { site_fits (length soc.old.place.memory.words) soc.old.delay flip.now.site ≡ true }
    ensures shown { result ≡ cycle_of (made core_parts (Some flip.now) soc.old) }
    ensures next { soc.new ≡ soc_next (made core_parts (Some flip.now) soc.old) }
{
    make(soc, flip);
    soc.step()
}

impl Verdict {
    // Takes what a cycle of both systems shows, where the bus counts or not.
    fn note(&mut self, at: u64, counts: bool, clean: &Cycle, faulty: &Cycle)
        ensures diff { self.new.first_diff ≡ then_test self.old.first_diff
            (counts && not (agree_wires clean.now.bus faulty.now.bus)) at }
        ensures alert { self.new.first_alert ≡ then_test self.old.first_alert (not (faulty.now.alerts.0 == 0))
            (at, faulty.now.alerts) }
    {
        if self.first_diff.is_none() && counts && !same_bus(&clean.bus, &faulty.bus) {
            self.first_diff = Some(at);
        }
        if self.first_alert.is_none() && faulty.alerts.0 != 0 {
            self.first_alert = Some((at, faulty.alerts));
        }
    }
}

/// Runs both systems for `cycles` cycles, from 1 to 1,000,000,000, and the delay plus one more, the second with one bit
/// changed just before the cycle of the flip, and compares them. Both are as they were opened, with equal image,
/// configuration and plan; the flip's cycle is below `cycles`, and its bit is there. It takes no memory.
pub fn inject(clean: &mut Soc<'_>, faulty: &mut Soc<'_>, flip: &Flip, cycles: u64) -> Verdict
    requires as_new { IsAsNew clean.old }
    requires alike { faulty.old ≡ clean.old }
    requires some { 1 ≤ cycles }
    requires most { cycles ≤ 1000000000 }
    requires below { flip.now.cycle < cycles }
    requires fits { site_fits (length clean.old.place.memory.words) clean.old.delay flip.now.site ≡ true }
    ensures verdict { result ≡ verdict_of clean.old flip.now cycles }
    // No difference without an alert, which comes at most the delay plus one cycles later.
    ensures noticed { IsNoticed (clean.old.delay + 1) result }
    ensures clean { clean.new ≡ run core_parts clean.old None (cycles + clean.old.delay + 1) }
    ensures faulty { faulty.new ≡ run core_parts faulty.old (Some flip.now) (cycles + clean.old.delay + 1) }
{
    let mut verdict = Verdict {
        first_diff: None,
        first_alert: None,
    };
    // The delay, and one cycle in which what was found last is told.
    let more = u64::from(clean.delay()) + 1;
    for at in 0..cycles + more {
        let shown = clean.step();
        let flipped = turn(faulty, flip);
        verdict.note(at, at < cycles, &shown, &flipped);
    }
    verdict
}
