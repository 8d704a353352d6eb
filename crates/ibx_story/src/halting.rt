ghost use Rattle.std.specs.Prelude.{◌≡◌};
ghost use Rattle.ibx_story.specs.Stories.{halts as halts_of};

use ibx_bits::HALT_REGISTER;
use ibx_isa::Event;

/// Whether an event ends a story: a word with bit 0 set was stored to the host's halting address, and retired.
pub fn halts(event: &Event) -> bool
    ensures { result ≡ halts_of event.now }
{
    match *event {
        Event::Retire {
            mem: Some(access),
            ..
        } => access.store
            && access.size == 4
            && access.addr == HALT_REGISTER
            && access.value % 2 == 1,
        _ => false,
    }
}
