/// The registers that a trap reads and writes; `machine` is the mode, true for M.
#[derive(Clone, Copy, Debug, PartialEq, Eq)]
pub struct TrapRegs {
    pub machine: bool,
    pub mstatus: u32,
    pub mtvec: u32,
    pub mepc: u32,
    pub mcause: u32,
    pub mtval: u32,
    pub cpuctrl: u32,
}
