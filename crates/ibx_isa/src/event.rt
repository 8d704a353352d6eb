/// A load or a store of `size` bytes (1, 2 or 4) at the byte address `addr`. The value is the low `size`
/// bytes of a store, zero-extended, and 0 for a load.
#[derive(Clone, Copy, Debug, PartialEq, Eq)]
pub struct Access {
    pub addr: u32,
    pub size: u8,
    pub store: bool,
    pub value: u32,
}

/// What the core did with one instruction, or an interrupt that it took. `cycle` is the clock cycle in
/// which it was done, and `pc` its byte address.
#[derive(Clone, Copy, Debug, PartialEq, Eq)]
pub enum Event {
    /// An instruction that retired.
    Retire {
        cycle: u64,
        pc: u32,
        /// The instruction as fetched; a halfword is zero-extended.
        word: u32,
        /// The register that was written, or 0 for none.
        rd: u8,
        /// What was written to `rd`, or 0.
        value: u32,
        mem: Option<Access>,
        /// The value handed to the write of a CSR that controls the core: `mstatus`, `mie`, `cpuctrl`,
        /// `secureseed`, `mseccfg`, `pmpcfg0` to `pmpcfg3` and `pmpaddr0` to `pmpaddr15`.
        ctl: Option<u32>,
        /// The values of rs1 and rs2, 0 for one that isn't read, where fixed timing was off.
        ops: Option<(u32, u32)>,
    },
    /// An instruction that trapped.
    Trap {
        cycle: u64,
        pc: u32,
        /// As for `Retire`, and 0 for cause 1.
        word: u32,
        cause: u8,
        tval: u32,
        /// The access's address for causes 5 and 7, else 0.
        addr: u32,
    },
    /// An interrupt; `pc` is the address of the instruction that it came before.
    Irq {
        cycle: u64,
        pc: u32,
        cause: u8,
    },
}

/// What of an event may decide the time that it takes: no cycle, and no loaded, stored or computed value.
#[derive(Clone, Copy, Debug, PartialEq, Eq)]
pub struct View {
    /// 0 for a retirement, 1 for a trap, 2 for an interrupt.
    pub kind: u8,
    pub pc: u32,
    pub word: u32,
    /// The access's address for loads and stores, also where they trap with cause 5 or 7.
    pub addr: Option<u32>,
    pub ctl: Option<u32>,
    pub ops: Option<(u32, u32)>,
    pub cause: u8,
    pub tval: u32,
}
