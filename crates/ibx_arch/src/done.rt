use ibx_isa::Access;

/// What a retiring instruction leaves: the register that it writes (0 for none) and its value, the access
/// that it made, the value that it handed to the write of a CSR that controls the core, and the byte
/// address of the next instruction.
#[derive(Clone, Copy)]
pub struct Retirement {
    pub rd: u8,
    pub value: u32,
    pub mem: Option<Access>,
    pub ctl: Option<u32>,
    pub next_pc: u32,
}

/// How an instruction ends. A trap has its cause, what it puts into `mtval`, and the address of the access
/// for a load or a store that met an access fault, else 0.
#[derive(Clone, Copy)]
pub enum Done {
    Retires(Retirement),
    Traps { cause: u8, tval: u32, addr: u32 },
}
