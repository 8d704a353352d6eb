ghost use Rattle.std.specs.Prelude.{◌≡◌, ◌≤◌, ◌+◌, IfSome};
ghost use Rattle.std.specs.Option.{option_map};
ghost use Rattle.ibx_plan.specs.Plan.{PlanValue};
ghost use Rattle.ibx_system.specs.Core.{core_parts};
ghost use Rattle.ibx_system.specs.Runs.{run};
ghost use Rattle.ibx_soc.specs.First.{IsAsNew};
ghost use Rattle.ibx_views.specs.Observers.{ctl_in, settings_in};
ghost use Rattle.ibx_compare.specs.Twins.{HasLine, HaveLines, index_of, told, told_cycles};
ghost use Rattle.ibx_compare.specs.TimeTwins.{AgreesInTime, ctl_past, ends_with, seen_of, time_twin_of, twin_by_of};

use crate::comparison::Twin;
use crate::next::next_event;
use crate::twins::twin;
use ibx_elf::Ram;
use ibx_isa::{MulKind, View, view};
use ibx_soc::Soc;
use ibx_views::{Observer, Part, TimeView, part_of};

/// What of the events of two stories is compared.
#[derive(Clone, Copy, Debug, PartialEq, Eq)]
pub enum Views {
    /// The views, whole.
    Full,
    /// What of the views time can depend on, in systems with this range of RAM and this multiplier.
    Time { ram: Ram, mul: MulKind },
}

/// How two stories compare by what was asked for.
#[derive(Clone, Copy, Debug, PartialEq, Eq)]
pub struct TwinBy {
    /// The same, or the first index at which what is compared differs or one story has ended, with both views there.
    pub twin: Twin,
    /// The part that differs, where time views are compared and neither story has ended.
    pub part: Option<Part>,
}

// The view and the time view of the next event.
fn next_seen(soc: &mut Soc<'_>, left: &mut u64, observer: &mut Observer) -> Option<(View, TimeView)>
    requires { soc.old.place.cycle + left.old ≤ 1000000000 }
    ensures seen { result ≡ option_map (seen_of (settings_in observer.old) (ctl_in observer.old))
        (told left.old soc.old).event }
    ensures line { IfSome result (λ seen. HasLine seen.0) }
    ensures left { left.new ≡ (told left.old soc.old).left }
    ensures next { soc.new ≡ (told left.old soc.old).next }
    ensures registers { ctl_in observer.new ≡ ctl_past (ctl_in observer.old) (told left.old soc.old).event }
    ensures settings { settings_in observer.new ≡ settings_in observer.old }
{
    let event = next_event(soc, left)?;
    let seen = observer.observe(&event);
    Some((view(&event), seen))
}

// The answer at an index, if it is there, by what both stories have at it.
fn ends_with(at: u64, a: Option<(View, TimeView)>, b: Option<(View, TimeView)>) -> Option<TwinBy>
    ensures { result ≡ ends_with at a b }
{
    let (twin, part) = match (a, b) {
        (None, None) => (Twin::Same(at), None),
        (Some((x, seen_x)), Some((y, seen_y))) => {
            let part = part_of(&seen_x, &seen_y)?;
            (differ(at, Some(x), Some(y)), Some(part))
        }
        (Some((x, _)), None) => (differ(at, Some(x), None), None),
        (None, Some((y, _))) => (differ(at, None, Some(y)), None),
    };
    Some(TwinBy { twin, part })
}

fn differ(at: u64, a: Option<View>, b: Option<View>) -> Twin
    ensures { result ≡ Twin.Differ at a b }
{
    Twin::Differ { at, a, b }
}

// Tells two stories, one event of each at a time, and compares the time views.
fn time_twin(a: &mut Soc<'_>, b: &mut Soc<'_>, cycles: u64, ram: Ram, mul: MulKind) -> TwinBy
    requires a_new { IsAsNew a.old }
    requires b_new { IsAsNew b.old }
    requires most { cycles ≤ 1000000000 }
    ensures value { (plan : PlanValue) → result ≡ time_twin_of (record { ram = ram; mul = mul; plan = plan }) cycles
        a.old b.old }
    ensures lines { HaveLines result.twin }
    ensures a_left { a.new ≡ run core_parts a.old None (told_cycles cycles (index_of result.twin) a.old) }
    ensures b_left { b.new ≡ run core_parts b.old None (told_cycles cycles (index_of result.twin) b.old) }
{
    let mut left_a = cycles;
    let mut left_b = cycles;
    let mut of_a = Observer::new(ram, mul);
    let mut of_b = Observer::new(ram, mul);
    for at in 0..cycles {
        let seen_a = next_seen(a, &mut left_a, &mut of_a);
        let seen_b = next_seen(b, &mut left_b, &mut of_b);
        if let Some(answer) = ends_with(at, seen_a, seen_b) {
            return answer;
        }
    }
    TwinBy {
        twin: Twin::Same(cycles),
        part: None,
    }
}

/// Tells the stories of two systems, each at most `cycles` cycles long, 1 to 1,000,000,000, one event of each at a
/// time, and compares what is asked for. Both are as `Soc::new` left them, with equal configuration and plan where the
/// answer is to tell of cycles too. It ends at the first difference, and takes no memory.
pub fn twin_by(a: &mut Soc<'_>, b: &mut Soc<'_>, cycles: u64, views: Views) -> TwinBy
    requires a_new { IsAsNew a.old }
    requires b_new { IsAsNew b.old }
    requires least { 1 ≤ cycles }
    requires most { cycles ≤ 1000000000 }
    // Whatever the plan, the answer is the first difference of what is compared.
    ensures value { (plan : PlanValue) → result ≡ twin_by_of views plan cycles a.old b.old }
    // Where these are the stories of two runs with equal configuration and plan, their cycles are the same up to there.
    ensures in_time { AgreesInTime views cycles a.old b.old result.twin }
    // The views that it answers have printed lines.
    ensures lines { HaveLines result.twin }
    // Each system is left after its event of the answer's index, or after its story where that has ended.
    ensures a_left { a.new ≡ run core_parts a.old None (told_cycles cycles (index_of result.twin) a.old) }
    ensures b_left { b.new ≡ run core_parts b.old None (told_cycles cycles (index_of result.twin) b.old) }
{
    match views {
        Views::Full => TwinBy {
            twin: twin(a, b, cycles),
            part: None,
        },
        Views::Time { ram, mul } => time_twin(a, b, cycles, ram, mul),
    }
}
