use crate::{AsmFault, AsmKind, assemble, dis, wrap};
use arrayvec::ArrayString;
use std::alloc::Global;
use std::test::Fail;

// What a text assembles to, as its bytes or the refusal.
fn code(alloc: Global, text: &str) -> Result<Vec<u8>, AsmFault> {
    // no text of these tests is as long
    if text.len() > 4096 {
        return Err(AsmFault::Memory);
    }
    assemble(alloc, text.as_bytes())
}

// The text of a word, or of a short halfword.
fn shown(word: u32) -> ArrayString<40> {
    if word % 4 == 3 || word < 0x1_0000 {
        dis(word)
    } else {
        ArrayString::new()
    }
}

// Each mnemonic at its bounds, with the words that LLVM's assembler gives.
static WORDS: [(&str, u32); 63] = [
    ("lui x6, 0x00020", 0x0002_0337),
    ("lui x31, 0xfffff", 0xffff_ffb7),
    ("auipc x5, 0x12345", 0x1234_5297),
    ("jal x1, 2048", 0x0010_00ef),
    ("jal x0, -1048576", 0x8000_006f),
    ("jal x31, 1048574", 0x7fff_ffef),
    ("jalr x1, -2048(x2)", 0x8001_00e7),
    ("jalr x0, 2047(x31)", 0x7fff_8067),
    ("beq x1, x2, -4096", 0x8020_8063),
    ("bne x3, x4, 4094", 0x7e41_9fe3),
    ("blt x5, x6, 2", 0x0062_c163),
    ("bge x7, x8, -2", 0xfe83_dfe3),
    ("bltu x9, x10, 1366", 0x54a4_eb63),
    ("bgeu x30, x31, -1366", 0xabff_75e3),
    ("lb x1, -1(x2)", 0xfff1_0083),
    ("lh x3, 2047(x4)", 0x7ff2_1183),
    ("lw x5, -2048(x6)", 0x8003_2283),
    ("lbu x7, 0(x8)", 0x0004_4383),
    ("lhu x9, 1365(x10)", 0x5555_5483),
    ("sb x11, -1(x12)", 0xfeb6_0fa3),
    ("sh x13, 2047(x14)", 0x7ed7_1fa3),
    ("sw x15, -2048(x16)", 0x80f8_2023),
    ("sw x7, 8(x6)", 0x0073_2423),
    ("addi x7, x0, 1", 0x0010_0393),
    ("addi x1, x2, -2048", 0x8001_0093),
    ("slti x3, x4, 2047", 0x7ff2_2193),
    ("sltiu x5, x6, -1", 0xfff3_3293),
    ("xori x7, x8, 1365", 0x5554_4393),
    ("ori x9, x10, -1366", 0xaaa5_6493),
    ("andi x11, x12, 255", 0x0ff6_7593),
    ("slli x1, x2, 31", 0x01f1_1093),
    ("srli x3, x4, 1", 0x0012_5193),
    ("srai x5, x6, 31", 0x41f3_5293),
    ("add x1, x2, x3", 0x0031_00b3),
    ("sub x4, x5, x6", 0x4062_8233),
    ("sll x7, x8, x9", 0x0094_13b3),
    ("slt x10, x11, x12", 0x00c5_a533),
    ("sltu x13, x14, x15", 0x00f7_36b3),
    ("xor x16, x17, x18", 0x0128_c833),
    ("srl x19, x20, x21", 0x015a_59b3),
    ("sra x22, x23, x24", 0x418b_db33),
    ("or x25, x26, x27", 0x01bd_6cb3),
    ("and x28, x29, x30", 0x01ee_fe33),
    ("mul x1, x2, x3", 0x0231_00b3),
    ("mulh x4, x5, x6", 0x0262_9233),
    ("mulhsu x7, x8, x9", 0x0294_23b3),
    ("mulhu x10, x11, x12", 0x02c5_b533),
    ("div x13, x14, x15", 0x02f7_46b3),
    ("divu x16, x17, x18", 0x0328_d833),
    ("rem x19, x20, x21", 0x035a_69b3),
    ("remu x22, x23, x24", 0x038b_fb33),
    ("fence", 0x0ff0_000f),
    ("fence.i", 0x0000_100f),
    ("csrrw x1, 0x300, x2", 0x3001_10f3),
    ("csrrs x3, 0xf14, x0", 0xf140_21f3),
    ("csrrc x5, 0xfff, x31", 0xffff_b2f3),
    ("csrrwi x1, 0x000, 0", 0x0000_50f3),
    ("csrrsi x5, 0x300, 31", 0x300f_e2f3),
    ("csrrci x7, 0x344, 8", 0x3444_73f3),
    ("ecall", 0x0000_0073),
    ("ebreak", 0x0010_0073),
    ("mret", 0x3020_0073),
    ("wfi", 0x1050_0073),
];

static HALVES: [(&str, u16); 33] = [
    ("c.addi4spn x8, 4", 0x0040),
    ("c.addi4spn x15, 1020", 0x1ffc),
    ("c.lw x9, 68(x10)", 0x4164),
    ("c.sw x15, 124(x8)", 0xdc7c),
    ("c.addi x0, 0", 0x0001),
    ("c.addi x31, -32", 0x1f81),
    ("c.jal -2048", 0x3001),
    ("c.jal 2046", 0x2ffd),
    ("c.li x1, 31", 0x40fd),
    ("c.addi16sp -512", 0x7101),
    ("c.addi16sp 496", 0x617d),
    ("c.lui x1, 31", 0x60fd),
    ("c.lui x31, -32", 0x7f81),
    ("c.srli x8, 31", 0x807d),
    ("c.srai x15, 1", 0x8785),
    ("c.andi x9, -32", 0x9881),
    ("c.sub x8, x15", 0x8c1d),
    ("c.xor x9, x14", 0x8cb9),
    ("c.or x10, x13", 0x8d55),
    ("c.and x11, x12", 0x8df1),
    ("c.j 1366", 0xab99),
    ("c.j -2", 0xbffd),
    ("c.beqz x8, -256", 0xd001),
    ("c.bnez x15, 254", 0xeffd),
    ("c.slli x3, 31", 0x01fe),
    ("c.lwsp x31, 252", 0x5ffe),
    ("c.jr x1", 0x8082),
    ("c.mv x1, x2", 0x808a),
    ("c.ebreak", 0x9002),
    ("c.jalr x31", 0x9f82),
    ("c.add x6, x7", 0x931e),
    ("c.swsp x31, 252", 0xdffe),
    ("c.swsp x0, 84", 0xca82),
];

#[test]
fn gives_the_words_of_another_assembler(rt: HostRuntime) -> Result<(), Fail> {
    for (line, word) in &WORDS {
        match code(rt.alloc(), line) {
            Ok(code) => assert_eq!(rt; code.as_slice(), word.to_le_bytes().as_slice(), "at {line}"),
            Err(_) => assert!(rt; false, "refused: {line}"),
        }
        assert_eq!(rt; shown(*word).as_str(), *line);
    }
    Ok(())
}

#[test]
fn gives_the_halfwords_of_another_assembler(rt: HostRuntime) -> Result<(), Fail> {
    for (line, half) in &HALVES {
        match code(rt.alloc(), line) {
            Ok(code) => assert_eq!(rt; code.as_slice(), half.to_le_bytes().as_slice(), "at {line}"),
            Err(_) => assert!(rt; false, "refused: {line}"),
        }
        assert_eq!(rt; shown(u32::from(*half)).as_str(), *line);
    }
    Ok(())
}

#[test]
fn shows_what_is_no_instruction_as_data(rt: HostRuntime) -> Result<(), Fail> {
    for (word, text) in [
        (0xffff_ffff, ".word 0xffffffff"),
        // a FENCE of its own kind, and SLLI by 47
        (0x0210_000f, ".word 0x0210000f"),
        (0x02f0_9813, ".word 0x02f09813"),
        // reserved halfwords
        (0x0000, ".half 0x0000"),
        (0x6101, ".half 0x6101"),
        (0x9001, ".half 0x9001"),
    ] {
        assert_eq!(rt; shown(word).as_str(), text);
    }
    Ok(())
}

#[test]
fn assembles_texts(rt: HostRuntime) -> Result<(), Fail> {
    let rows: [(&str, &[u8]); 11] = [
        ("", &[]),
        (
            "lui x6, 0x00020\naddi x7, x0, 1\nsw x7, 8(x6)\n",
            &[
                0x37, 0x03, 0x02, 0, 0x93, 0x03, 0x10, 0, 0x23, 0x24, 0x73, 0,
            ],
        ),
        (
            "loop:\nc.addi x8, -1\nc.bnez x8, loop\n",
            &[0x7d, 0x14, 0x7d, 0xfc],
        ),
        // a label after its use, and one that a line feed doesn't end
        ("c.j end\nc.ebreak\nend:", &[0x11, 0xa0, 0x02, 0x90]),
        // tabs, no spaces, a carriage return, comments and empty lines
        (
            "\t.byte\t1#one\r\n#\n\n .half 2 # two\r\n.word 3\r\n",
            &[1, 2, 0, 3, 0, 0, 0],
        ),
        ("lw x1,8( x2 )", &[0x83, 0x20, 0x81, 0]),
        (".byte 0xfF\n.byte -0", &[0xff, 0]),
        // a mnemonic may be a label, and so may a register
        ("addi : \nx1:\nc.j addi\nc.j x1", &[0x01, 0xa0, 0xfd, 0xbf]),
        // names that begin alike, each at its own address
        (
            "a:\n.half 1\naa:\n.half 2\nab:\nc.j a\nc.j aa\nc.j ab",
            &[1, 0, 2, 0, 0xf5, 0xbf, 0xf5, 0xbf, 0xf5, 0xbf],
        ),
        // addresses may be odd
        (
            ".byte 1\na:\n.byte 2\nb:\n.byte 3\nc.j a",
            &[1, 2, 3, 0xfd, 0xbf],
        ),
        (
            ".half 65535\n.word 4294967295",
            &[0xff, 0xff, 0xff, 0xff, 0xff, 0xff],
        ),
    ];
    for (text, bytes) in rows {
        match code(rt.alloc(), text) {
            Ok(code) => assert_eq!(rt; code.as_slice(), bytes, "at {text}"),
            Err(_) => assert!(rt; false, "refused: {text}"),
        }
    }
    Ok(())
}

// The file of three instructions that write 1 to the host's register.
const FILE: [u8; 96] = [
    0x7f, 0x45, 0x4c, 0x46, 0x01, 0x01, 0x01, 0x00, 0x00, 0x00, 0x00, 0x00, 0x00, 0x00, 0x00, 0x00,
    0x02, 0x00, 0xf3, 0x00, 0x01, 0x00, 0x00, 0x00, 0x80, 0x00, 0x10, 0x00, 0x34, 0x00, 0x00, 0x00,
    0x00, 0x00, 0x00, 0x00, 0x00, 0x00, 0x00, 0x00, 0x34, 0x00, 0x20, 0x00, 0x01, 0x00, 0x00, 0x00,
    0x00, 0x00, 0x00, 0x00, 0x01, 0x00, 0x00, 0x00, 0x54, 0x00, 0x00, 0x00, 0x80, 0x00, 0x10, 0x00,
    0x80, 0x00, 0x10, 0x00, 0x0c, 0x00, 0x00, 0x00, 0x0c, 0x00, 0x00, 0x00, 0x07, 0x00, 0x00, 0x00,
    0x04, 0x00, 0x00, 0x00, 0x37, 0x03, 0x02, 0x00, 0x93, 0x03, 0x10, 0x00, 0x23, 0x24, 0x73, 0x00,
];

#[test]
fn wraps_code(rt: HostRuntime) -> Result<(), Fail> {
    assert_eq!(rt; wrap(rt.alloc(), &FILE[84..])?.as_slice(), FILE.as_slice());
    // without code, the sizes are 0
    let mut empty = FILE;
    empty[68] = 0;
    empty[72] = 0;
    assert_eq!(rt; wrap(rt.alloc(), &[])?.as_slice(), &empty[..84]);
    Ok(())
}

#[test]
fn refuses_lines(rt: HostRuntime) -> Result<(), Fail> {
    let rows = [
        ("addi x7, x0, 2048", 1, AsmKind::Range),
        ("c.j nowhere", 1, AsmKind::Label),
        ("mov x1, x2", 1, AsmKind::Word),
        ("wfi\nwfi x1", 2, AsmKind::Word),
        ("add x1, x2", 1, AsmKind::Word),
        ("add x1, x2, x32", 1, AsmKind::Word),
        ("add x1, x2, x01", 1, AsmKind::Word),
        ("addi x1, x2, 3,", 1, AsmKind::Word),
        ("addi x1 x2, 3", 1, AsmKind::Word),
        ("ADD x1, x2, x3", 1, AsmKind::Word),
        ("addi x1, x2, - 3", 1, AsmKind::Word),
        ("addi x1, x2, 00000000001", 1, AsmKind::Word),
        ("addi x1, x2, label", 1, AsmKind::Word),
        ("jal x1, 2x", 1, AsmKind::Word),
        ("1:", 1, AsmKind::Word),
        ("a: b:", 1, AsmKind::Word),
        ("a\r", 1, AsmKind::Word),
        ("lui x1, 0x100000", 1, AsmKind::Range),
        ("lui x1, -1", 1, AsmKind::Range),
        ("jal x1, 1", 1, AsmKind::Range),
        ("jal x1, 1048576", 1, AsmKind::Range),
        ("beq x1, x2, -4098", 1, AsmKind::Range),
        ("slli x1, x2, 32", 1, AsmKind::Range),
        ("csrrw x1, 4096, x2", 1, AsmKind::Range),
        ("csrrwi x1, 0, 32", 1, AsmKind::Range),
        ("c.addi4spn x8, 0", 1, AsmKind::Range),
        ("c.addi4spn x8, 1022", 1, AsmKind::Range),
        ("c.lw x7, 0(x8)", 1, AsmKind::Range),
        ("c.sw x8, 0(x16)", 1, AsmKind::Range),
        ("c.lui x2, 1", 1, AsmKind::Range),
        ("c.lui x3, 0", 1, AsmKind::Range),
        ("c.addi16sp 8", 1, AsmKind::Range),
        ("c.lwsp x0, 4", 1, AsmKind::Range),
        ("c.jr x0", 1, AsmKind::Range),
        ("c.add x1, x0", 1, AsmKind::Range),
        (".byte 256", 1, AsmKind::Range),
        (".half -1", 1, AsmKind::Range),
        // the first kind of a line, and the first line
        ("c.beqz x7, nowhere", 1, AsmKind::Range),
        ("a:\nb:\n\na:\nmov", 4, AsmKind::Label),
        ("c.j a\nmov\na:\na:", 2, AsmKind::Word),
        // a name is no definition of one that begins with it
        ("aa:\nab:\nc.j a", 3, AsmKind::Label),
        // the first definition counts: the branch reaches it, and not the last
        ("a:\nc.bnez x8, a\n.word 1\na:", 4, AsmKind::Label),
        // a line that is refused for its range has its length: the label is too far away by the second line's
        ("c.bnez x8, far\n.word -1\nfar:", 2, AsmKind::Range),
    ];
    for (text, line, kind) in rows {
        match code(rt.alloc(), text) {
            Ok(_) => assert!(rt; false, "not refused: {text}"),
            Err(fault) => assert_eq!(rt; fault, AsmFault::Line(line, kind), "at {text}"),
        }
    }
    Ok(())
}
