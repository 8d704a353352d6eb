ghost use Rattle.std.specs.Prelude.{◌≡◌, ◌≢◌, ℕ, ◌+◌, ◌<◌, ◌≤◌};
ghost use Rattle.ibx_isa.specs.Cost.{md_cost_of};
ghost use Rattle.ibx_isa.specs.Multiply.{md_value};
ghost use Rattle.ibx_muldiv.specs.Operands.{is_division};
ghost use Rattle.ibx_muldiv.specs.Unit.{begun, Finishes, idle_of, left_of, packed, result_of, seen, start_of, tick_of};

use crate::operands::{Operands, divides};
use crate::work::Work;
use ibx_isa::{MdOp, MulKind, md_cost};

/// The multiplier and divider. Every value of its fields is a state: it holds a calculation and the number of
/// cycles, 0 to 63, that are left until its result.
#[derive(Clone, Copy, Debug, PartialEq, Eq)]
pub struct MulDiv {
    /// The multiplicand. Of a division the low word alone counts: the dividend's rest, above the quotient's bits.
    pub md_a: u64,
    /// Bits 31:0 are the multiplier's rest or the divisor, 37:32 the cycles left, and 43:38 the multiplier's bits that
    /// a cycle takes. Bit 44 tells a division, bit 45 that the high word is the result, and bit 46 that it is negated.
    pub md_b: u64,
    /// The sum so far, or a division's remainder.
    pub md_acc: u64,
}

impl MulDiv {
    /// The unit without a calculation: no cycles are left, and the result is 0.
    #[tactic(auto, unfolding(crate::specs::Unit::idle_of))]
    pub fn idle() -> MulDiv
        ensures { result ≡ idle_of }
    {
        MulDiv {
            md_a: 0,
            md_b: 0,
            md_acc: 0,
        }
    }

    /// Begins to calculate `op` of the register values `a` and `b`. `fixed` is data-independent timing, and `mul`
    /// the multiplier. The values are those of the M extension (Unprivileged ISA, 7), the cycles this core's own.
    #[tactic(auto, unfolding(crate::specs::Unit::start_of))]
    pub fn start(&mut self, op: MdOp, a: u32, b: u32, fixed: bool, mul: MulKind)
        ensures fields { self.new ≡ start_of op a b fixed mul }
        ensures left { left_of self.new ≡ md_cost_of op b fixed mul }
        ensures promise { Finishes self.new (left_of self.new) (md_value op a b) }
    {
        let left = md_cost(op, b, fixed, mul);
        *self = pack(begin(op, a, b, left, mul));
    }

    /// One cycle; one has to be left.
    #[tactic(auto, unfolding(crate::specs::Unit::tick_of))]
    pub fn tick(&mut self)
        requires { left_of self.old ≢ 0 }
        ensures fields { self.new ≡ tick_of self.old }
        ensures left { left_of self.new + 1 ≡ left_of self.old }
        ensures promise { (value : ℕ) → Finishes self.old (left_of self.old) value
            → Finishes self.new (left_of self.new) value }
    {
        *self = pack(unpack(*self).step());
    }

    /// The cycles, 0 to 63, that are left until the result.
    pub fn left(&self) -> u8
        ensures value { result ≡ left_of self.now }
        ensures most { result < 64 }
    {
        ((self.md_b >> 32) % 64) as u8
    }

    /// The word that the fields hold as their result. It is the value of the calculation when no cycles are left.
    #[tactic(auto, unfolding(crate::specs::Unit::result_of, crate::specs::Unit::Finishes, crate::specs::Unit::ticks))]
    pub fn result(&self) -> u32
        ensures value { result ≡ result_of self.now }
        ensures promise { (value : ℕ) → Finishes self.now 0 value → result ≡ value }
    {
        unpack(*self).answer()
    }
}

fn begin(op: MdOp, a: u32, b: u32, left: u8, mul: MulKind) -> Work
    ensures { result ≡ begun (is_division op) op a b left mul }
{
    if divides(op) {
        Work::division(Operands::new(op, a, b), left)
    } else {
        Work::product(Operands::new(op, a, b), left, mul)
    }
}

#[tactic(auto, unfolding(crate::specs::Unit::seen))]
fn unpack(unit: MulDiv) -> Work
    ensures { result ≡ seen unit }
{
    let control = unit.md_b;
    Work {
        sum: unit.md_acc,
        multiplicand: unit.md_a,
        rest: (control % 0x1_0000_0000) as u32,
        left: ((control >> 32) % 64) as u8,
        pace: ((control >> 38) % 64) as u8,
        divides: (control >> 44) % 2 == 1,
        high: (control >> 45) % 2 == 1,
        negate: (control >> 46) % 2 == 1,
    }
}

#[tactic(auto, using(crate::proofs::Fields::flag_small), unfolding(crate::specs::Unit::packed))]
fn pack(work: Work) -> MulDiv
    requires left { work.left < 64 }
    requires pace { work.pace < 64 }
    ensures { result ≡ packed work }
{
    let numbers = work.rest as u64
        + work.left as u64 * 0x1_0000_0000
        + work.pace as u64 * 0x40_0000_0000;
    let flags = work.divides as u64 * 0x1000_0000_0000
        + work.high as u64 * 0x2000_0000_0000
        + work.negate as u64 * 0x4000_0000_0000;
    MulDiv {
        md_a: work.multiplicand,
        md_b: numbers + flags,
        md_acc: work.sum,
    }
}
