ghost use Rattle.std.specs.Prelude.{◌≡◌};
ghost use Rattle.ibx_asm.specs.declared.fault.AsmFault.TheVariants.{Memory};

use std::alloc::AllocError;

/// Why a line is refused: the first of these that holds.
#[derive(Clone, Copy, Debug, PartialEq, Eq)]
pub enum AsmKind {
    /// The line is neither empty nor a label, and its tokens aren't a mnemonic with its operands.
    Word,
    /// An operand is out of its range, or the instruction can't have it.
    Range,
    /// A label that it uses is nowhere defined, or the label that it defines was defined before.
    Label,
}

/// Why a text is refused.
#[derive(Clone, Copy, Debug, PartialEq, Eq)]
pub enum AsmFault {
    /// The first line that doesn't fit, counted from 1.
    Line(u32, AsmKind),
    /// There was no memory for the labels or the code.
    Memory,
}

impl From<AllocError> for AsmFault {
    ghost from_gives = { λ _ fault. fault ≡ Memory };

    fn from(_: AllocError) -> AsmFault {
        AsmFault::Memory
    }
}
