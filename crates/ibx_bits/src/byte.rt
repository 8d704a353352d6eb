ghost use Rattle.std.specs.Prelude.{◌≡◌, ◌<◌};
ghost use Rattle.ibx_bits.specs.Bytes.{word_byte};

/// Byte `index` of a word, 0 to 3, the least significant first (Unprivileged ISA, 1.4).
pub fn byte_at(word: u32, index: u32) -> u8
    requires { index < 4 }
    ensures { result ≡ word_byte word index }
{
    match index {
        0 => (word % 0x100) as u8,
        1 => (word / 0x100 % 0x100) as u8,
        2 => (word / 0x1_0000 % 0x100) as u8,
        _ => (word / 0x100_0000) as u8,
    }
}
