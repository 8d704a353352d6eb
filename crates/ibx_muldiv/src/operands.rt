ghost use Rattle.std.specs.Prelude.{◌≡◌, false};
ghost use Rattle.ibx_muldiv.specs.Operands.{is_division, magnitude, operands_of, sign};

use ibx_isa::MdOp;

/// What the unit computes with. It multiplies and divides magnitudes; the answer is the high or the low word of
/// what it leaves, negated or not.
#[derive(Clone, Copy)]
pub struct Operands {
    pub first: u32,
    pub second: u32,
    pub high: bool,
    pub negate: bool,
}

pub fn divides(op: MdOp) -> bool
    ensures { result ≡ is_division op }
{
    match op {
        MdOp::Mul | MdOp::Mulh | MdOp::Mulhsu | MdOp::Mulhu => false,
        MdOp::Div | MdOp::Divu | MdOp::Rem | MdOp::Remu => true,
    }
}

impl Operands {
    #[tactic(auto, unfolding(crate::specs::Operands::operands_of))]
    pub fn new(op: MdOp, a: u32, b: u32) -> Operands
        ensures { result ≡ operands_of op a b }
    {
        let signs_differ = is_negative(a) != is_negative(b);
        match op {
            MdOp::Mul | MdOp::Divu => unsigned(a, b, false),
            MdOp::Mulhu | MdOp::Remu => unsigned(a, b, true),
            MdOp::Mulh => of_signed(a, b, true, signs_differ),
            MdOp::Mulhsu => Operands {
                first: magnitude_of(a),
                second: b,
                high: true,
                negate: is_negative(a),
            },
            MdOp::Div => of_signed(a, b, false, signs_differ && b != 0),
            MdOp::Rem => of_signed(a, b, true, is_negative(a)),
        }
    }
}

fn unsigned(first: u32, second: u32, high: bool) -> Operands
    ensures { result ≡ record { first = first; second = second; high = high; negate = false } }
{
    Operands {
        first,
        second,
        high,
        negate: false,
    }
}

fn of_signed(a: u32, b: u32, high: bool, negate: bool) -> Operands
    ensures { result ≡ record { first = magnitude a; second = magnitude b; high = high; negate = negate } }
{
    Operands {
        first: magnitude_of(a),
        second: magnitude_of(b),
        high,
        negate,
    }
}

fn magnitude_of(a: u32) -> u32
    ensures { result ≡ magnitude a }
{
    a.cast_signed().unsigned_abs()
}

fn is_negative(a: u32) -> bool
    ensures { result ≡ sign a }
{
    a.cast_signed().is_negative()
}
