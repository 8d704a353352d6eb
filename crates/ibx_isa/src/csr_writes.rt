ghost use Rattle.std.specs.Prelude.{◌≡◌};
ghost use Rattle.ibx_isa.specs.CsrWrites.{writes as writes_of, written as written_of};

use crate::insn::CsrOp;

/// Whether a CSR instruction with the source field `src` writes: CSRRS and CSRRC with a field of 0 don't
/// (Unprivileged ISA, 9.1).
pub fn writes(op: CsrOp, src: u8) -> bool
    ensures { result ≡ writes_of op src }
{
    match op {
        CsrOp::Write => true,
        CsrOp::Set | CsrOp::Clear => src != 0,
    }
}

/// What it hands to the write, from the CSR's old value and the source's value.
pub fn written(op: CsrOp, old: u32, source: u32) -> u32
    ensures { result ≡ written_of op old source }
{
    match op {
        CsrOp::Write => source,
        CsrOp::Set => old | source,
        CsrOp::Clear => old & !source,
    }
}
