//! A run of the two-stage core of which nothing is printed on the way.
ghost use Rattle.std.specs.Prelude.{◌≡◌, ◌≤◌, length};
ghost use Rattle.ibx_compare.specs.Drives.{drive_from};
ghost use Rattle.ibx_soc.specs.First.{IsAsNew};
ghost use Rattle.ibx_top.specs.Generated.{written, written_sum};

use ibx_isa::Event;
use ibx_soc::Soc;
use ibx_story::halts;

/// What a run comes to.
#[derive(Clone, Copy, Debug, PartialEq, Eq)]
pub(crate) struct Total {
    /// Whether a halting store ended it, and not the budget of cycles.
    pub halted: bool,
    /// The sum of the values that were written to registers, modulo 2^32.
    pub sum: u32,
    /// The number of events.
    pub events: u64,
}

// The value that an event wrote to a register, and 0 where it wrote none.
fn written(event: &Event) -> u32
    ensures { result ≡ written event.now }
{
    match *event {
        Event::Retire { rd, value, .. } if rd != 0 => value,
        _ => 0,
    }
}

/// Steps a system that is as `Soc::new` left it up to the halting store, for at most `cycles` cycles, and counts and
/// sums its events. It takes no memory.
pub(crate) fn run_total(soc: &mut Soc<'_>, cycles: u64) -> Total
    requires new { IsAsNew soc.old }
    requires most { cycles ≤ 1000000000 }
    ensures halted { result.halted ≡ (drive_from cycles soc.old).halted }
    ensures sum { result.sum ≡ written_sum (drive_from cycles soc.old).events }
    ensures events { result.events ≡ length (drive_from cycles soc.old).events }
    ensures left { soc.new ≡ (drive_from cycles soc.old).left }
{
    let mut sum = 0_u32;
    let mut events = 0;
    for _ in 0..cycles {
        let cycle = soc.step();
        if let Some(event) = cycle.event {
            sum = sum.wrapping_add(written(&event));
            events += 1;
            if halts(&event) {
                return Total {
                    halted: true,
                    sum,
                    events,
                };
            }
        }
    }
    Total {
        halted: false,
        sum,
        events,
    }
}
