ghost use Rattle.std.specs.Prelude.{◌≡◌, ◌≤◌, ◌+◌, IfSome};
ghost use Rattle.std.specs.Option.{option_map};
ghost use Rattle.ibx_isa.specs.Views.{view_of};
ghost use Rattle.ibx_system.specs.Core.{core_parts};
ghost use Rattle.ibx_system.specs.Runs.{run};
ghost use Rattle.ibx_soc.specs.First.{IsAsNew};
ghost use Rattle.ibx_compare.specs.Twins.{HasLine, HaveLines, IsFirstDifference, index_of, told, told_cycles, twin_of};
ghost use Rattle.ibx_compare.specs.Twins.{views_of};

use crate::comparison::Twin;
use crate::next::next_event;
use ibx_isa::{View, view};
use ibx_soc::Soc;

// The view of the next event.
fn next_view(soc: &mut Soc<'_>, left: &mut u64) -> Option<View>
    requires { soc.old.place.cycle + left.old ≤ 1000000000 }
    ensures shown { result ≡ option_map view_of (told left.old soc.old).event }
    ensures line { IfSome result HasLine }
    ensures left { left.new ≡ (told left.old soc.old).left }
    ensures next { soc.new ≡ (told left.old soc.old).next }
{
    let event = next_event(soc, left)?;
    Some(view(&event))
}

/// Tells the stories of two systems, each at most `cycles` cycles long, 1 to 1,000,000,000, one event of each at a
/// time, and compares the views. Both are as `Soc::new` left them, with equal configuration and plan where the answer
/// is to tell of cycles too. It ends at the first difference, and takes no memory.
pub fn twin(a: &mut Soc<'_>, b: &mut Soc<'_>, cycles: u64) -> Twin
    requires a_new { IsAsNew a.old }
    requires b_new { IsAsNew b.old }
    requires least { 1 ≤ cycles }
    requires most { cycles ≤ 1000000000 }
    ensures value { result ≡ twin_of cycles a.old b.old }
    // The answer is the first difference of the views, and they are the same exactly where there is none.
    ensures first { IsFirstDifference (views_of cycles a.old) (views_of cycles b.old) result }
    // The views that it answers have printed lines.
    ensures lines { HaveLines result }
    // Each system is left after its event of the answer's index, or after its story where that has ended.
    ensures a_left { a.new ≡ run core_parts a.old None (told_cycles cycles (index_of result) a.old) }
    ensures b_left { b.new ≡ run core_parts b.old None (told_cycles cycles (index_of result) b.old) }
{
    let mut left_a = cycles;
    let mut left_b = cycles;
    for at in 0..cycles {
        let of_a = next_view(a, &mut left_a);
        let of_b = next_view(b, &mut left_b);
        if of_a != of_b {
            return Twin::Differ {
                at,
                a: of_a,
                b: of_b,
            };
        }
        if of_a.is_none() {
            return Twin::Same(at);
        }
    }
    Twin::Same(cycles)
}
