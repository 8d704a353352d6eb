ghost use Rattle.std.specs.Prelude.{◌≡◌};
ghost use Rattle.ibx_csr.specs.Table.{csr_of};

/// A register of the table. All are accessible from M mode alone (RISC-V Privileged ISA 1.12, 2.2).
#[derive(Clone, Copy, Debug, PartialEq, Eq)]
pub enum Csr {
    Mstatus,
    /// Reads 40101104, RV32IMC with U mode.
    Misa,
    Mie,
    Mtvec,
    Mcountinhibit,
    Mscratch,
    Mepc,
    Mcause,
    Mtval,
    /// Reads the interrupt lines of the cycle.
    Mip,
    /// The configuration of entries 4i to 4i + 3 of the protection unit, with i below 4.
    Pmpcfg(u8),
    /// The address of entry i, with i below 16.
    Pmpaddr(u8),
    /// The core's own controls.
    Cpuctrl,
    /// Reads 0; a write of it seeds the dummy instructions, and changes no register here.
    Secureseed,
    Mcycle,
    Mcycleh,
    Minstret,
    Minstreth,
    /// Reads 16 (hexadecimal).
    Marchid,
    /// How the protection unit reads its entries: MML, MMWP and RLB (our own profile after Smepmp 1.0).
    Mseccfg,
    /// One of the registers that read 0 and keep nothing.
    Zero,
}

/// The register at an address, where the table has one.
#[tactic(auto, unfolding(crate::specs::Table::csr_of))]
pub fn csr_at(addr: u16) -> Option<Csr>
    ensures { result ≡ csr_of addr }
{
    match addr {
        0x300 => Some(Csr::Mstatus),
        0x301 => Some(Csr::Misa),
        0x304 => Some(Csr::Mie),
        0x305 => Some(Csr::Mtvec),
        0x306 => Some(Csr::Zero),
        0x30a => Some(Csr::Zero),
        0x310 => Some(Csr::Zero),
        0x31a => Some(Csr::Zero),
        0x320 => Some(Csr::Mcountinhibit),
        0x323..=0x33f => Some(Csr::Zero),
        0x340 => Some(Csr::Mscratch),
        0x341 => Some(Csr::Mepc),
        0x342 => Some(Csr::Mcause),
        0x343 => Some(Csr::Mtval),
        0x344 => Some(Csr::Mip),
        0x3a0..=0x3a3 => Some(Csr::Pmpcfg((addr - 0x3a0) as u8)),
        0x3b0..=0x3bf => Some(Csr::Pmpaddr((addr - 0x3b0) as u8)),
        0x747 => Some(Csr::Mseccfg),
        0x757 => Some(Csr::Zero),
        0x7c0 => Some(Csr::Cpuctrl),
        0x7c1 => Some(Csr::Secureseed),
        0xb00 => Some(Csr::Mcycle),
        0xb80 => Some(Csr::Mcycleh),
        0xb02 => Some(Csr::Minstret),
        0xb82 => Some(Csr::Minstreth),
        0xb03..=0xb1f => Some(Csr::Zero),
        0xb83..=0xb9f => Some(Csr::Zero),
        0xf11 => Some(Csr::Zero),
        0xf12 => Some(Csr::Marchid),
        0xf13..=0xf15 => Some(Csr::Zero),
        _ => None,
    }
}
