use crate::draws::next_draw;
use crate::generate;
use crate::words::body_word;
use std::test::Fail;

// A draw of each kind, and the word that LLVM's assembler gives for its instruction.
#[test]
fn gives_the_instruction_of_a_draw(rt: HostRuntime) {
    let rows = [
        (0xba8c_2458, 0xba86_0613, "addi x12, x12, -1112"),
        (0x5ec6_0c69, 0x0284_d633, "divu x12, x9, x8"),
        (0x8e1d_9142, 0x00e5_04b3, "add x9, x10, x14"),
        (0xfee0_503b, 0xfee0_5437, "lui x8, 1043973"),
        (0x6254_ea5c, 0x6252_a503, "lw x10, 1573(x5)"),
        (0x6f08_b4b5, 0x6ea2_a823, "sw x10, 1776(x5)"),
        (0x8878_fdf6, 0x00b7_9463, "bne x15, x11, 8"),
        (0x477d_20b7, 0x40c6_0433, "sub x8, x12, x12"),
    ];
    for (draw, word, text) in rows {
        assert_eq!(rt; body_word(draw), word, "{text}");
    }
}

/// The Adler-32 checksum of bytes (RFC 1950, 9).
fn checksum(bytes: &[u8]) -> u32 {
    let mut low = 1u32;
    let mut high = 0u32;
    for byte in bytes {
        low = low.wrapping_add(u32::from(*byte)) % 65_521;
        high = high.wrapping_add(low) % 65_521;
    }
    high << 16 | low
}

// A seed, its first draw, the words on both sides of the opening's end, and the checksum of the whole file, as a
// script of its own and zlib give them.
#[test]
fn gives_the_file_of_a_seed(rt: HostRuntime) -> Result<(), Fail> {
    let rows: [(u32, u32, [u32; 3], u32); 4] = [
        (0, 0, [0x0100_0213, 0x0004_0413, 0x0004_0413], 0xcbd6_bd3b),
        (
            1,
            0x0004_2021,
            [0x0100_0213, 0x0286_4433, 0x0284_0733],
            0x8051_a8c6,
        ),
        (
            0xdead_beef,
            0x477d_20b7,
            [0x0100_0213, 0x40c6_0433, 0x00e5_04b3],
            0x0386_7677,
        ),
        (
            0xffff_ffff,
            0x0003_e01f,
            [0x0100_0213, 0x40f6_0433, 0x40f7_86b3],
            0x6656_b0ef,
        ),
    ];
    for (seed, draw, words, sum) in rows {
        assert_eq!(rt; next_draw(seed), draw, "the first draw of {seed}");
        let file = generate(rt.alloc(), seed)?;
        assert_eq!(rt; file.len(), 16_504, "{seed}");
        for (index, word) in words.iter().enumerate() {
            let at = 88 + 4 * index;
            let bytes = word.to_le_bytes();
            assert_eq!(rt;
                file.get(at..at + 4),
                Some(bytes.as_slice()),
                "byte {at} of {seed}"
            );
        }
        assert_eq!(rt; checksum(&file), sum, "the file of {seed}");
    }
    Ok(())
}
