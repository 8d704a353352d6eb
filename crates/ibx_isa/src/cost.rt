ghost use Rattle.std.specs.Prelude.{◌≡◌, ◌≤◌};
ghost use Rattle.ibx_isa.specs.Cost.{md_cost_of, StopsAtWidth};

use crate::insn::{MdOp, MulKind};

/// The cycles, 0 to 37, that a multiplication or a division with the second operand `b` takes beyond the one in
/// which it enters. `fixed` is data-independent timing, and `mul` the multiplier (this core's own rule).
#[tactic(auto, using(crate::proofs::Width::width_of_word), unfolding(crate::specs::Cost::md_cost_of))]
pub fn md_cost(op: MdOp, b: u32, fixed: bool, mul: MulKind) -> u8
    ensures value { result ≡ md_cost_of op b fixed mul }
    ensures most { result ≤ 37 }
    ensures width { StopsAtWidth op b fixed mul result }
{
    match op {
        MdOp::Mul => match mul {
            MulKind::Single => 0,
            MulKind::Fast => 2,
            MulKind::Slow if fixed => 32,
            MulKind::Slow => (32 - b.leading_zeros()) as u8,
        },
        MdOp::Mulh | MdOp::Mulhsu | MdOp::Mulhu => match mul {
            MulKind::Single => 1,
            MulKind::Fast => 3,
            MulKind::Slow => 32,
        },
        MdOp::Div | MdOp::Divu | MdOp::Rem | MdOp::Remu => { if b == 0 && !fixed { 1 } else { 37 } }
    }
}
