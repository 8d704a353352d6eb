//! The bits of the registers that control the core, as words.

/// mstatus: interrupts are enabled (Privileged ISA 1.12, 3.1.6).
pub const MIE: u32 = 0x8;

/// mstatus: MIE before the trap.
pub const MPIE: u32 = 0x80;

/// mstatus: the mode before the trap, 3 for M and 0 for U.
pub const MPP: u32 = 0x1800;

/// mstatus: loads and stores use the mode before the trap.
pub const MPRV: u32 = 0x2_0000;

/// mstatus: WFI is illegal in U mode.
pub const TW: u32 = 0x20_0000;

/// mcountinhibit: mcycle stands still (3.1.12).
pub const CY: u32 = 0x1;

/// mcountinhibit: minstret stands still.
pub const IR: u32 = 0x4;

/// cpuctrl (our own layout): the cache is on.
pub const ICACHE_ENABLE: u32 = 0x1;

/// cpuctrl: timing doesn't depend on operands.
pub const DATA_IND_TIMING: u32 = 0x2;

/// cpuctrl: dummy instructions come.
pub const DUMMY_INSTR_EN: u32 = 0x4;

/// cpuctrl: the mask of the distance between dummy instructions.
pub const DUMMY_INSTR_MASK: u32 = 0x38;

/// cpuctrl: an exception was taken since the last return.
pub const SYNC_EXC_SEEN: u32 = 0x40;

/// cpuctrl: another exception was taken in the handler of the first.
pub const DOUBLE_FAULT_SEEN: u32 = 0x80;

/// mseccfg (our own profile after Smepmp 1.0): entries say what each mode may do by the table of sixteen rows.
pub const MML: u32 = 0x1;

/// mseccfg: where no entry matches M mode is refused too.
pub const MMWP: u32 = 0x2;

/// mseccfg: the lock of an entry isn't looked at.
pub const RLB: u32 = 0x4;
