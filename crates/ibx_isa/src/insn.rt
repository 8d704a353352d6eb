/// The comparison of a conditional branch (RISC-V Unprivileged ISA, 2.5).
#[derive(Clone, Copy, Debug, PartialEq, Eq)]
pub enum BranchOp {
    Eq,
    Ne,
    /// Signed less than.
    Lt,
    /// Signed greater than or equal.
    Ge,
    /// Unsigned less than.
    Ltu,
    /// Unsigned greater than or equal.
    Geu,
}

/// The width of a load, and how it is extended to 32 bits (Unprivileged ISA, 2.6).
#[derive(Clone, Copy, Debug, PartialEq, Eq)]
pub enum LoadOp {
    /// A byte, sign-extended.
    Lb,
    /// A halfword, sign-extended.
    Lh,
    Lw,
    /// A byte, zero-extended.
    Lbu,
    /// A halfword, zero-extended.
    Lhu,
}

/// The operation of an integer computation (Unprivileged ISA, 2.4).
#[derive(Clone, Copy, Debug, PartialEq, Eq)]
pub enum AluOp {
    Add,
    Sub,
    /// Shift left.
    Sll,
    /// Set if signed less than.
    Slt,
    /// Set if unsigned less than.
    Sltu,
    Xor,
    /// Shift right and fill with zeros.
    Srl,
    /// Shift right and fill with the sign.
    Sra,
    Or,
    And,
}

/// The operation of the M extension (Unprivileged ISA, 7).
#[derive(Clone, Copy, Debug, PartialEq, Eq)]
pub enum MdOp {
    /// The low half of the product.
    Mul,
    /// The high half, signed by signed.
    Mulh,
    /// The high half, rs1 signed and rs2 unsigned.
    Mulhsu,
    /// The high half, unsigned by unsigned.
    Mulhu,
    Div,
    Divu,
    Rem,
    Remu,
}

/// What a CSR instruction writes (Unprivileged ISA, 9.1).
#[derive(Clone, Copy, Debug, PartialEq, Eq)]
pub enum CsrOp {
    /// The source.
    Write,
    /// The old value OR the source.
    Set,
    /// The old value AND NOT the source.
    Clear,
}

/// Which multiplier the core has; it decides the cycles of a multiplication alone.
#[derive(Clone, Copy, Debug, PartialEq, Eq)]
pub enum MulKind {
    Single,
    Fast,
    Slow,
}

/// An instruction. Register numbers are below 32. Immediates are sign-extended to 32 bits; those of LUI
/// and AUIPC are already shifted, and a shift's amount is its immediate.
#[derive(Clone, Copy, Debug, PartialEq, Eq)]
pub enum Insn {
    Lui {
        rd: u8,
        imm: u32,
    },
    Auipc {
        rd: u8,
        imm: u32,
    },
    Jal {
        rd: u8,
        imm: u32,
    },
    Jalr {
        rd: u8,
        rs1: u8,
        imm: u32,
    },
    Branch {
        op: BranchOp,
        rs1: u8,
        rs2: u8,
        imm: u32,
    },
    Load {
        op: LoadOp,
        rd: u8,
        rs1: u8,
        imm: u32,
    },
    /// A store of the low `size` bytes of rs2; `size` is 1, 2 or 4.
    Store {
        size: u8,
        rs1: u8,
        rs2: u8,
        imm: u32,
    },
    AluImm {
        op: AluOp,
        rd: u8,
        rs1: u8,
        imm: u32,
    },
    Alu {
        op: AluOp,
        rd: u8,
        rs1: u8,
        rs2: u8,
    },
    MulDiv {
        op: MdOp,
        rd: u8,
        rs1: u8,
        rs2: u8,
    },
    /// `src` is the number of rs1, or where `imm` is true the immediate itself.
    Csr {
        op: CsrOp,
        rd: u8,
        src: u8,
        imm: bool,
        addr: u16,
    },
    Fence,
    FenceI,
    Ecall,
    Ebreak,
    Mret,
    Wfi,
}
