ghost use Rattle.std.specs.Prelude.{◌≡◌};
ghost use Rattle.ibx_isa.specs.Views.{view_of};

use crate::cause::{LOAD_FAULT, STORE_FAULT};
use crate::event::{Event, View};

// The parts that an event's kind lacks.
const NOTHING: View = View {
    kind: 0,
    pc: 0,
    word: 0,
    addr: None,
    ctl: None,
    ops: None,
    cause: 0,
    tval: 0,
};

/// The view of an event. A part that its kind lacks is 0 or None (this core's own rule).
#[tactic(auto, unfolding(crate::specs::Views::view_of))]
pub fn view(e: &Event) -> View
    ensures { result ≡ view_of e.now }
{
    match *e {
        Event::Retire {
            pc,
            word,
            mem,
            ctl,
            ops,
            ..
        } => View {
            kind: 0,
            pc,
            word,
            addr: mem.map(|access| access.addr),
            ctl,
            ops,
            ..NOTHING
        },
        Event::Trap {
            pc,
            word,
            cause,
            tval,
            addr,
            ..
        } => View {
            kind: 1,
            pc,
            word,
            addr: if cause == LOAD_FAULT || cause == STORE_FAULT {
                Some(addr)
            } else {
                None
            },
            cause,
            tval,
            ..NOTHING
        },
        Event::Irq { pc, cause, .. } => View {
            kind: 2,
            pc,
            cause,
            ..NOTHING
        },
    }
}
