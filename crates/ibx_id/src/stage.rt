use ibx_isa::Insn;

/// The item in the stage. Every value of its fields is a state.
#[derive(Clone, Copy, Debug, PartialEq, Eq)]
pub struct IdState {
    /// Whether the stage holds an item. Where it is false, nothing else is looked at.
    pub valid: bool,
    /// 0 for a real instruction, 1 for a dummy, and 2 for an interrupt, of 2 bits. 3 acts as 2.
    pub kind: u8,
    /// The byte address of the instruction.
    pub pc: u32,
    /// The word as it was fetched, a halfword zero-extended, the dummy's word, or the interrupt's number.
    pub word: u32,
    /// 0, or the parcel, 1 or 2, that was unsound, of 2 bits.
    pub fault: u8,
    /// 0 in the item's first cycle, 1 in a later one, 2 where the first portion failed and 3 where the second did in
    /// the cycle before, and 4 in the second cycle of another trap, of 3 bits. 5 to 7 act as 4.
    pub phase: u8,
    /// The cycles since the item entered, up to 63, where it stays.
    pub count: u8,
}

/// What the stage's item meets in a cycle.
#[derive(Clone, Copy, Debug, PartialEq, Eq)]
pub struct IdIn {
    /// The row that the stage's word fits.
    pub insn: Option<Insn>,
    /// The value of rs1.
    pub a: u32,
    /// The value of rs2.
    pub b: u32,
    /// Whether timing is independent of data; for a dummy it is true.
    pub fixed: bool,
    /// The cycles that a multiplication or a division takes beyond its first, at most 37; for every other row 0.
    pub cost: u8,
    /// Whether an interrupt line that is high in this cycle is enabled in `mie`.
    pub wake: bool,
    /// The cause of the trap that the item takes for what was fetched and decoded, the same in each cycle of its stay.
    pub trap: Option<u8>,
    /// Whether this cycle's answer ends the access.
    pub ls_done: bool,
    /// The portion, 1 or 2, that is refused or that this cycle's answer failed in, else 0, of 2 bits. 3 acts as 0.
    pub ls_fault: u8,
}

/// What the stage does in a cycle.
#[derive(Clone, Copy, Debug, PartialEq, Eq)]
pub enum Turn {
    /// It holds no item.
    Idle,
    /// The item stays, and the next cycle begins with these fields.
    Hold(IdState),
    /// The instruction retires. `redirect` is whether the fetch side begins anew at the instruction's target.
    Retire { redirect: bool },
    /// The instruction traps: for the portion, 1 or 2, that failed, and 0 for another cause.
    Trap { portion: u8 },
    /// The interrupt is taken.
    Irq,
    /// The dummy ends, without an event.
    Dummy,
}
