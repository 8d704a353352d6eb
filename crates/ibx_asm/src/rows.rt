ghost use Rattle.std.specs.Prelude.{◌≡◌, ◌≤◌, IfSome, map};
ghost use Rattle.ibx_asm.specs.Held.{row_meant};
ghost use Rattle.std.specs.List.{find};
ghost use Rattle.std.specs.Option.{option_map};
ghost use Rattle.std.specs.Str.{bytes_eq};
ghost use Rattle.ibx_asm.specs.Mnemonics.{encoding_of};

use crate::slot::Form;

/// An instruction with all its operands 0, or a directive.
#[derive(Clone, Copy)]
pub(crate) struct Encoding {
    pub(crate) word: u32,
    /// Its length in bytes.
    pub(crate) size: u8,
    pub(crate) form: Form,
}

/// A mnemonic, the length in bytes, the word with all operands 0, and the operands.
pub(crate) struct Row(
    pub(crate) &'static str,
    pub(crate) u8,
    pub(crate) u32,
    pub(crate) Form,
);

/// How many of the rows are instructions; the others are directives.
pub(crate) const INSTRUCTIONS: usize = 83;

/// The instructions, in the order of the decoder's rows, and the directives.
pub(crate) static ROWS: [Row; 86] = [
    // LUI, AUIPC, JAL, JALR
    Row("lui", 4, 0x0000_0037, Form::Upper),
    Row("auipc", 4, 0x0000_0017, Form::Upper),
    Row("jal", 4, 0x0000_006f, Form::Jump),
    Row("jalr", 4, 0x0000_0067, Form::Load),
    // branches
    Row("beq", 4, 0x0000_0063, Form::Branch),
    Row("bne", 4, 0x0000_1063, Form::Branch),
    Row("blt", 4, 0x0000_4063, Form::Branch),
    Row("bge", 4, 0x0000_5063, Form::Branch),
    Row("bltu", 4, 0x0000_6063, Form::Branch),
    Row("bgeu", 4, 0x0000_7063, Form::Branch),
    // loads and stores
    Row("lb", 4, 0x0000_0003, Form::Load),
    Row("lh", 4, 0x0000_1003, Form::Load),
    Row("lw", 4, 0x0000_2003, Form::Load),
    Row("lbu", 4, 0x0000_4003, Form::Load),
    Row("lhu", 4, 0x0000_5003, Form::Load),
    Row("sb", 4, 0x0000_0023, Form::Store),
    Row("sh", 4, 0x0000_1023, Form::Store),
    Row("sw", 4, 0x0000_2023, Form::Store),
    // operations with an immediate
    Row("addi", 4, 0x0000_0013, Form::Immediate),
    Row("slti", 4, 0x0000_2013, Form::Immediate),
    Row("sltiu", 4, 0x0000_3013, Form::Immediate),
    Row("xori", 4, 0x0000_4013, Form::Immediate),
    Row("ori", 4, 0x0000_6013, Form::Immediate),
    Row("andi", 4, 0x0000_7013, Form::Immediate),
    Row("slli", 4, 0x0000_1013, Form::Shift),
    Row("srli", 4, 0x0000_5013, Form::Shift),
    Row("srai", 4, 0x4000_5013, Form::Shift),
    // operations with registers
    Row("add", 4, 0x0000_0033, Form::Registers),
    Row("sub", 4, 0x4000_0033, Form::Registers),
    Row("sll", 4, 0x0000_1033, Form::Registers),
    Row("slt", 4, 0x0000_2033, Form::Registers),
    Row("sltu", 4, 0x0000_3033, Form::Registers),
    Row("xor", 4, 0x0000_4033, Form::Registers),
    Row("srl", 4, 0x0000_5033, Form::Registers),
    Row("sra", 4, 0x4000_5033, Form::Registers),
    Row("or", 4, 0x0000_6033, Form::Registers),
    Row("and", 4, 0x0000_7033, Form::Registers),
    // multiplications and divisions
    Row("mul", 4, 0x0200_0033, Form::Registers),
    Row("mulh", 4, 0x0200_1033, Form::Registers),
    Row("mulhsu", 4, 0x0200_2033, Form::Registers),
    Row("mulhu", 4, 0x0200_3033, Form::Registers),
    Row("div", 4, 0x0200_4033, Form::Registers),
    Row("divu", 4, 0x0200_5033, Form::Registers),
    Row("rem", 4, 0x0200_6033, Form::Registers),
    Row("remu", 4, 0x0200_7033, Form::Registers),
    // FENCE iorw, iorw and FENCE.I
    Row("fence", 4, 0x0ff0_000f, Form::Fence),
    Row("fence.i", 4, 0x0000_100f, Form::Fence),
    // CSR instructions
    Row("csrrw", 4, 0x0000_1073, Form::Csr),
    Row("csrrs", 4, 0x0000_2073, Form::Csr),
    Row("csrrc", 4, 0x0000_3073, Form::Csr),
    Row("csrrwi", 4, 0x0000_5073, Form::CsrNumber),
    Row("csrrsi", 4, 0x0000_6073, Form::CsrNumber),
    Row("csrrci", 4, 0x0000_7073, Form::CsrNumber),
    // ECALL, EBREAK, MRET, WFI
    Row("ecall", 4, 0x0000_0073, Form::Bare),
    Row("ebreak", 4, 0x0010_0073, Form::Bare),
    Row("mret", 4, 0x3020_0073, Form::Bare),
    Row("wfi", 4, 0x1050_0073, Form::Bare),
    // compressed instructions, in the order of their quadrants and numbers
    Row("c.addi4spn", 2, 0x0000, Form::StackAddress),
    Row("c.lw", 2, 0x4000, Form::ShortAccess),
    Row("c.sw", 2, 0xc000, Form::ShortAccess),
    Row("c.addi", 2, 0x0001, Form::Six),
    Row("c.jal", 2, 0x2001, Form::ShortJump),
    Row("c.li", 2, 0x4001, Form::Six),
    Row("c.addi16sp", 2, 0x6101, Form::StackAdjust),
    Row("c.lui", 2, 0x6001, Form::ShortUpper),
    Row("c.srli", 2, 0x8001, Form::HighShift),
    Row("c.srai", 2, 0x8401, Form::HighShift),
    Row("c.andi", 2, 0x8801, Form::HighSix),
    Row("c.sub", 2, 0x8c01, Form::HighLow),
    Row("c.xor", 2, 0x8c21, Form::HighLow),
    Row("c.or", 2, 0x8c41, Form::HighLow),
    Row("c.and", 2, 0x8c61, Form::HighLow),
    Row("c.j", 2, 0xa001, Form::ShortJump),
    Row("c.beqz", 2, 0xc001, Form::ShortBranch),
    Row("c.bnez", 2, 0xe001, Form::ShortBranch),
    Row("c.slli", 2, 0x0002, Form::WideShift),
    Row("c.lwsp", 2, 0x4002, Form::StackLoad),
    Row("c.jr", 2, 0x8002, Form::JumpRegister),
    Row("c.mv", 2, 0x8002, Form::Pair),
    Row("c.ebreak", 2, 0x9002, Form::ShortBare),
    Row("c.jalr", 2, 0x9002, Form::JumpRegister),
    Row("c.add", 2, 0x9002, Form::Pair),
    Row("c.swsp", 2, 0xc002, Form::StackStore),
    // words, halfwords and bytes of data
    Row(".word", 4, 0, Form::Word),
    Row(".half", 2, 0, Form::Half),
    Row(".byte", 1, 0, Form::Byte),
];

fn row_named<'a>(rows: &'a [Row], name: &[u8]) -> Option<&'a Row>
    ensures { option_map (λ row. row.now) result ≡ find (λ row. bytes_eq row.0.now name.now) rows.now }
{
    rows.iter().find(|row| row.0.as_bytes() == name)
}

fn encoding_in(rows: &[Row], name: &[u8]) -> Option<Encoding>
    ensures { result ≡ option_map (λ row. row.1) (find (λ row. bytes_eq row.0 name.now) (map row_meant rows.now)) }
{
    match row_named(rows, name) {
        Some(Row(_, size, word, form)) => Some(Encoding {
            word: *word,
            size: *size,
            form: *form,
        }),
        None => None,
    }
}

/// The instruction or directive of a mnemonic.
pub(crate) fn encoding_of(name: &[u8]) -> Option<Encoding>
    ensures value { result ≡ encoding_of name.now }
    ensures short { IfSome result (λ e. e.size ≤ 4) }
{
    encoding_in(&ROWS, name)
}
