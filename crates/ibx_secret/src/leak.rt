/// Why the time of an event may depend on secret bytes (our own rules).
#[derive(Clone, Copy, Debug, PartialEq, Eq)]
pub enum Reason {
    /// A halfword of the instruction lies in bytes that are or were marked.
    Fetch,
    /// An operand of a branch is marked.
    Branch,
    /// The target of JALR is marked.
    Jump,
    /// The address of a load is marked.
    Load,
    /// The address of a store is marked.
    Store,
    /// The operand on which the cost of a product or quotient hangs is marked.
    Cost,
    /// The value written to a register that decides the path, protection or time is marked.
    Csr,
    /// The target of MRET is marked.
    Return,
    /// The value of a word store to the host's register, which ends the run or doesn't, is marked.
    Halt,
}

/// What is marked.
#[derive(Clone, Copy, Debug, PartialEq, Eq)]
pub enum What {
    /// A byte of the halfword at this byte address.
    Half(u32),
    /// The register of this number.
    Reg(u8),
    /// `mepc`.
    Mepc,
}

/// That the time of an event may depend on secret bytes, and by what.
#[derive(Clone, Copy, Debug, PartialEq, Eq)]
pub struct Leak {
    pub reason: Reason,
    pub what: What,
}
