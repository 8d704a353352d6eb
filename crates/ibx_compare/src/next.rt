ghost use Rattle.std.specs.Prelude.{◌≡◌, ◌≤◌, ◌+◌, IfSome};
ghost use Rattle.ibx_isa.specs.Events.{IsPrintable};
ghost use Rattle.ibx_compare.specs.Twins.{told};

use ibx_isa::Event;
use ibx_soc::Soc;
use ibx_story::halts;

// Makes cycles up to the next event, and gives it. Takes them from those that are left of the budget, none of which are
// left after a halting event.
pub(crate) fn next_event(soc: &mut Soc<'_>, left: &mut u64) -> Option<Event>
    requires { soc.old.place.cycle + left.old ≤ 1000000000 }
    ensures event { result ≡ (told left.old soc.old).event }
    ensures printable { IfSome result IsPrintable }
    ensures left { left.new ≡ (told left.old soc.old).left }
    ensures next { soc.new ≡ (told left.old soc.old).next }
{
    while *left > 0 {
        let cycle = soc.step();
        *left -= 1;
        if let Some(event) = cycle.event {
            if halts(&event) {
                *left = 0;
            }
            return Some(event);
        }
    }
    None
}
