ghost use Rattle.std.specs.Prelude.{◌≡◌, ◌<◌, ◌%◌, ◌^◌};
ghost use Rattle.ibx_muldiv.specs.Steps.{answer_of, begun_division, begun_product, divided, division_step, multiplied};
ghost use Rattle.ibx_muldiv.specs.Steps.{negated, step_of, word_of};

use crate::operands::Operands;
use ibx_isa::MulKind;

/// A calculation in progress.
#[derive(Clone, Copy)]
pub struct Work {
    /// The sum of a product so far, or the remainder of a division so far.
    pub sum: u64,
    /// The first factor, at the place of the multiplier's next bit. Of a division the low word alone counts: the
    /// dividend's bits that are still to be taken, above the quotient's bits.
    pub multiplicand: u64,
    /// The multiplier's bits that are still to be taken, or the divisor.
    pub rest: u32,
    /// Cycles until the result.
    pub left: u8,
    /// Bits of the multiplier that a cycle takes.
    pub pace: u8,
    pub divides: bool,
    pub high: bool,
    pub negate: bool,
}

impl Work {
    #[tactic(auto, unfolding(crate::specs::Steps::begun_product))]
    pub fn product(operands: Operands, left: u8, mul: MulKind) -> Work
        ensures { result ≡ begun_product operands left mul }
    {
        let work = Work {
            sum: 0,
            multiplicand: operands.first as u64,
            rest: operands.second,
            left,
            pace: match mul {
                MulKind::Single => 32,
                MulKind::Fast => 16,
                MulKind::Slow => 1,
            },
            divides: false,
            high: operands.high,
            negate: operands.negate,
        };
        if left == 0 { work.multiply(32) } else { work }
    }

    /// A division of one cycle is by 0, and has its answer at once.
    #[tactic(auto, unfolding(crate::specs::Steps::begun_division))]
    pub fn division(operands: Operands, left: u8) -> Work
        ensures { result ≡ begun_division operands left }
    {
        let dividend = operands.first as u64;
        let at_once = left == 1;
        Work {
            sum: if at_once { dividend } else { 0 },
            multiplicand: if at_once { 0xffff_ffff } else { dividend },
            rest: operands.second,
            left,
            pace: 0,
            divides: true,
            high: operands.high,
            negate: operands.negate,
        }
    }

    /// One cycle.
    #[tactic(auto, unfolding(crate::specs::Steps::step_of))]
    pub fn step(self) -> Work
        requires { 0 < self.left }
        ensures { result ≡ step_of self }
    {
        let next = if self.divides {
            self.divide()
        } else {
            self.multiply(self.pace)
        };
        Work {
            left: self.left - 1,
            ..next
        }
    }

    /// The word that the calculation holds as its answer.
    pub fn answer(self) -> u32
        ensures { result ≡ answer_of self.divides self.high self.negate self.sum self.multiplicand }
    {
        if self.divides {
            let word = low_word(if self.high {
                self.sum
            } else {
                self.multiplicand
            });
            if self.negate {
                word.wrapping_neg()
            } else {
                word
            }
        } else if self.negate {
            word(self.high, self.sum.wrapping_neg())
        } else {
            word(self.high, self.sum)
        }
    }

    // Takes so many of the multiplier's lowest bits.
    #[tactic(auto, using(crate::proofs::Products::taking))]
    fn multiply(self, bits: u8) -> Work
        ensures { result ≡ multiplied bits self }
    {
        let mut work = self;
        for _bit in 0..bits {
            work = work.multiply_bit();
        }
        work
    }

    // Adds the multiplicand where the multiplier's lowest bit is 1.
    #[tactic(auto, using(crate::proofs::Products::bits), unfolding(crate::specs::Steps::multiplied))]
    fn multiply_bit(self) -> Work
        ensures { result ≡ multiplied 1 self }
    {
        let multiplicand = self.multiplicand << 1;
        let rest = self.rest >> 1;
        if self.rest % 2 == 0 {
            return Work {
                multiplicand,
                rest,
                ..self
            };
        }
        Work {
            sum: self.sum.wrapping_add(self.multiplicand),
            multiplicand,
            rest,
            ..self
        }
    }

    // The first 32 of 37 cycles take a bit each.
    #[tactic(auto, unfolding(crate::specs::Steps::division_step))]
    fn divide(self) -> Work
        ensures { result ≡ division_step self }
    {
        if self.left > 5 {
            self.divide_bit()
        } else {
            self
        }
    }

    #[tactic(auto, unfolding(crate::specs::Steps::divided))]
    fn divide_bit(self) -> Work
        ensures { result ≡ divided self }
    {
        let partial = self.sum % 0x8000_0000_0000_0000 * 2 + (self.multiplicand >> 31) % 2;
        let low = self.multiplicand % 0x8000_0000 * 2;
        let divisor = self.rest as u64;
        if divisor <= partial {
            Work {
                sum: partial - divisor,
                multiplicand: low + 1,
                ..self
            }
        } else {
            Work {
                sum: partial,
                multiplicand: low,
                ..self
            }
        }
    }
}

fn word(high: bool, sum: u64) -> u32
    ensures { result ≡ word_of high sum }
{
    if high {
        (sum >> 32) as u32
    } else {
        low_word(sum)
    }
}

fn low_word(number: u64) -> u32
    ensures { result ≡ number % 2 ^ 32 }
{
    (number % 0x1_0000_0000) as u32
}
