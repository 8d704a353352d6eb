ghost use Rattle.std.specs.Prelude.{◌≡◌, find};
ghost use Rattle.ibx_trap.specs.Bits.{bit_of};
ghost use Rattle.ibx_trap.specs.Interrupts.{pending_of, order};

use ibx_isa::control::MIE;

// The numbers of the interrupts, the one that is taken first in front: the fast interrupts (our own
// order), external, software, timer (RISC-V Privileged ISA 1.12, 3.1.9).
const ORDER: [u8; 18] = [
    16, 17, 18, 19, 20, 21, 22, 23, 24, 25, 26, 27, 28, 29, 30, 11, 3, 7,
];

/// The number of the interrupt that is to be taken, if any. `machine` is the mode, true for M; bit n of
/// `mie` enables interrupt n, and bit n of `lines` asks for it.
///
/// In M mode none is taken while MIE of `mstatus` is 0; in U mode MIE doesn't count.
#[tactic(auto, unfolding(crate::specs::Interrupts::pending_of))]
pub fn pending(machine: bool, mstatus: u32, mie: u32, lines: u32) -> Option<u8>
    ensures { result ≡ pending_of machine mstatus mie lines }
{
    if machine && mstatus & MIE == 0 {
        return None;
    }
    first_asked(mie & lines)
}

// The first number of the order whose bit is 1.
fn first_asked(asked: u32) -> Option<u8>
    ensures { result ≡ find (λ n. bit_of asked n) order }
{
    for number in ORDER {
        if (asked >> number) & 1 == 1 {
            return Some(number);
        }
    }
    None
}
