ghost use Rattle.std.specs.Prelude.{◌≡◌, ◌+◌, ◌<◌, ◌≤◌, ◌++◌, codes, drop, length, OnOk, OnErr};
ghost use Rattle.arrayvec.specs.ArrayString.{array_string_len};
ghost use Rattle.ibx_text.specs.Digits.{hex_digits};
ghost use Rattle.ibx_base.specs.Counts.{HasCause};
ghost use Rattle.ibx_base.specs.Sinks.{with_more, TookPrefix};
ghost use Rattle.ibx_dis.specs.Listing.{first_size, first_text, lines_of, segment_text, listing_of};

use arrayvec::ArrayString;
use ibx_asm::dis;
use ibx_base::{Failed, Sink, write_all};
use ibx_elf::Image;
use ibx_text::Digits;

// Writes a text of at most 40 bytes and a line feed.
fn print_line<K: Sink>(text: &str, out: &mut K) -> Result<(), Failed>
    requires { length text.now ≤ 40 }
    ensures whole { OnOk result (K.taken out.new ≡ with_more (K.taken out.old) (text.now ++ codes "\n")) }
    ensures prefix { OnErr result (TookPrefix (K.taken out.old) (text.now ++ codes "\n") (K.taken out.new)) }
    ensures cause { HasCause (K.faults out.old) (K.faults out.new) result }
{
    let mut line = ArrayString::<41>::new();
    line.push_str(text);
    line.push_str("\n");
    write_all(out, line.as_str().as_bytes())
}

// A text and the lowest `width` hexadecimal digits of a number.
fn labelled(text: &str, number: u32, width: u32) -> ArrayString<40>
    requires width { width ≤ 8 }
    requires room { length text.now ≤ 32 }
    ensures { result.bytes ≡ text.now ++ hex_digits width number }
{
    let mut line = ArrayString::new();
    line.push_str(text);
    line.push_str(Digits::hexadecimal(number, width).as_str());
    line
}

// The text of the first instruction of some code, and the code after it.
#[tactic(auto, unfolding(crate::specs::Listing::first_size, crate::specs::Listing::first_text))]
fn first_instruction(code: &[u8]) -> (ArrayString<40>, &[u8])
    requires { 0 < length code.now }
    ensures text { result.0.bytes ≡ first_text code.now }
    ensures rest { result.1.now ≡ drop (first_size code.now) code.now }
    ensures shorter { length result.1.now < length code.now }
{
    if code.len() < 2 {
        return (labelled(".byte 0x", u32::from(code[0]), 2), &code[1..]);
    }
    let half = u32::from(u16::from_le_bytes([code[0], code[1]]));
    if half % 4 != 3 {
        return (dis(half), &code[2..]);
    }
    if code.len() < 4 {
        return (labelled(".half 0x", half, 4), &code[2..]);
    }
    let word = u32::from_le_bytes([code[0], code[1], code[2], code[3]]);
    (dis(word), &code[4..])
}

// Writes a line for each instruction of some code.
fn print_code<K: Sink>(code: &[u8], out: &mut K) -> Result<(), Failed>
    ensures whole { OnOk result (K.taken out.new ≡ with_more (K.taken out.old) (lines_of code.now)) }
    ensures prefix { OnErr result (TookPrefix (K.taken out.old) (lines_of code.now) (K.taken out.new)) }
    ensures cause { HasCause (K.faults out.old) (K.faults out.new) result }
{
    let mut rest = code;
    while !rest.is_empty() {
        let (text, after) = first_instruction(rest);
        print_line(text.as_str(), out)?;
        rest = after;
    }
    Ok(())
}

// Writes the line of an address, and the lines of the code that stands there.
fn print_segment<K: Sink>(address: u32, code: &[u8], out: &mut K) -> Result<(), Failed>
    ensures whole { OnOk result (K.taken out.new ≡ with_more (K.taken out.old)
        (segment_text (record { addr = address; bytes = code.now }))) }
    ensures prefix { OnErr result (TookPrefix (K.taken out.old)
        (segment_text (record { addr = address; bytes = code.now })) (K.taken out.new)) }
    ensures cause { HasCause (K.faults out.old) (K.faults out.new) result }
{
    let text = labelled("# 0x", address, 8);
    print_line(text.as_str(), out)?;
    print_code(code, out)
}

/// Writes the code of a file as text: for each segment a line with its byte address, `# 0x` and 8 hexadecimal digits,
/// and then a line for each instruction of its bytes of the file.
///
/// An instruction is a word where the lowest two bits of its first halfword are both 1, and else a halfword; its line
/// is that of [`dis`](ibx_asm::dis). A halfword whose word is cut off by the end of the segment is `.half 0x` and 4
/// digits, and one last byte is `.byte 0x` and 2. Our own format.
///
/// `Failed` comes only where the sink counted a fault, and then a prefix of the text was taken. It takes no memory.
pub fn print_listing<K: Sink>(image: &Image<'_>, out: &mut K) -> Result<(), Failed>
    ensures whole { OnOk result (K.taken out.new ≡ with_more (K.taken out.old) (listing_of image.now)) }
    ensures prefix { OnErr result (TookPrefix (K.taken out.old) (listing_of image.now) (K.taken out.new)) }
    ensures cause { HasCause (K.faults out.old) (K.faults out.new) result }
{
    for i in 0..image.segments() {
        let (address, code) = image.segment(i);
        print_segment(address, code, out)?;
    }
    Ok(())
}
