/// What a step is taken with.
#[derive(Clone, Copy, Debug, PartialEq, Eq)]
pub enum Choice {
    /// The interrupt of this number, which is its cause.
    Interrupt(u8),
    /// The two parcels of 16 bits that were fetched at the program counter.
    Parcels(u16, u16),
}
