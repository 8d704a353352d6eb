/// The portions that an item has on the bus: none, one or two, and whether no memory answers the last of them.
#[derive(Clone, Copy, Debug, PartialEq, Eq)]
pub enum Portions {
    Nothing,
    Single,
    SingleError,
    Double,
    DoubleError,
}

/// What of an event decides its own cycles (this core's own rule).
#[derive(Clone, Copy, Debug, PartialEq, Eq)]
pub struct ItemView {
    /// The halfwords, 0 to 2, that it takes as it enters.
    pub parcels: u8,
    pub portions: Portions,
    /// The cycles, 0 to 37, from its entry to its end, where it has no portion.
    pub cost: u8,
    /// It waits for an interrupt line instead.
    pub sleeps: bool,
    /// What comes after it is fetched anew.
    pub redirects: bool,
    /// It is a FENCE.I.
    pub fences: bool,
}

/// What an event does to the registers that control time: the mode, `mstatus`, `mie`, `cpuctrl`, those of the
/// protection unit, and the seed of the dummies.
#[derive(Clone, Copy, Debug, PartialEq, Eq)]
pub enum Change {
    /// An instruction retired, and wrote none of them.
    Unchanged,
    Trapped,
    Interrupted,
    /// MRET retired.
    Returned,
    /// A value was handed to the write of the register at this address. It is kept whole: two values that differ in
    /// bits that no register keeps are told apart.
    Wrote { addr: u16, value: u32 },
}

/// What of an event the core's time can depend on, seen with the registers that the events before it left.
#[derive(Clone, Copy, Debug, PartialEq, Eq)]
pub struct TimeView {
    /// The byte address of the instruction, for an interrupt of the one that it came before.
    pub pc: u32,
    pub item: ItemView,
    pub change: Change,
}

/// The parts of a time view, in the order in which they are compared.
#[derive(Clone, Copy, Debug, PartialEq, Eq)]
pub enum Part {
    /// The program counter, and whether an instruction retired or trapped or an interrupt was taken.
    Path,
    /// How many halfwords it takes.
    Length,
    /// The cost, whether it waits for a line, whether it redirects, and whether it is a FENCE.I.
    Cost,
    /// The portions on the bus.
    Access,
    /// What it does to the registers that control time.
    Control,
}
