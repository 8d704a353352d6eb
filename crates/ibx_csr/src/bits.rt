ghost use Rattle.std.specs.Prelude.{◌≡◌};
ghost use Rattle.ibx_csr.specs.Bits.{row as row_of, bits_of, legal as legal_word, is_control as controls};
ghost use Rattle.ibx_csr.specs.Bits.{is_control_at as controls_at};

use crate::name::{Csr, csr_at};
use ibx_bits::INTERRUPT_LINES;
use ibx_isa::control::{CY, IR, MIE, MML, MMWP, MPIE, MPP, MPRV, RLB, TW};

/// A row of the table of bits: a write changes the bits of `kept`. The bits of `value` among these are the
/// reset, and its other bits are what the register always reads there. `control` says whether the register
/// controls the core.
#[derive(Clone, Copy, Debug, PartialEq, Eq)]
pub struct CsrBits {
    pub kept: u32,
    pub value: u32,
    pub control: bool,
}

impl CsrBits {
    /// A word as a register with these bits holds it.
    pub fn legal(self, word: u32) -> u32
        ensures { result ≡ legal_word self word }
    {
        (word & self.kept) | (self.value & !self.kept)
    }
}

impl Csr {
    /// The register's row (Privileged ISA 1.12, 3.1 and 3.7; `cpuctrl`, `secureseed`, `mseccfg` and the choice of
    /// the registers that control the core are our own).
    pub fn bits(self) -> CsrBits
        ensures { result ≡ bits_of self }
    {
        match self {
            Csr::Mstatus => row(MIE | MPIE | MPP | MPRV | TW, MPIE, true),
            Csr::Misa => row(0, 0x4010_1104, false),
            Csr::Mie => row(INTERRUPT_LINES, 0, true),
            Csr::Mtvec => row(0xffff_ff00, 0x1, false),
            Csr::Mcountinhibit => row(CY | IR, 0, false),
            Csr::Mscratch | Csr::Mtval => row(0xffff_ffff, 0, false),
            Csr::Mepc => row(0xffff_fffe, 0, false),
            Csr::Mcause => row(0x8000_001f, 0, false),
            Csr::Pmpcfg(_) => row(0x9f9f_9f9f, 0, true),
            Csr::Pmpaddr(_) => row(0xffff_ffff, 0, true),
            Csr::Cpuctrl => row(0xff, 0, true),
            Csr::Secureseed => row(0, 0, true),
            Csr::Mcycle | Csr::Mcycleh => row(0xffff_ffff, 0, false),
            Csr::Minstret | Csr::Minstreth => row(0xffff_ffff, 0, false),
            Csr::Marchid => row(0, 0x16, false),
            Csr::Mseccfg => row(MML | MMWP | RLB, 0, true),
            Csr::Mip | Csr::Zero => row(0, 0, false),
        }
    }

    /// Whether the register controls the core.
    pub fn is_control(self) -> bool
        ensures { result ≡ controls self }
    {
        self.bits().control
    }
}

/// Whether the register at an address controls the core; false where the table has none.
pub fn is_control_at(addr: u16) -> bool
    ensures { result ≡ controls_at addr }
{
    match csr_at(addr) {
        Some(register) => register.is_control(),
        None => false,
    }
}

fn row(kept: u32, value: u32, control: bool) -> CsrBits
    ensures { result ≡ row_of kept value control }
{
    CsrBits {
        kept,
        value,
        control,
    }
}
