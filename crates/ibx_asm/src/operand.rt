ghost use Rattle.std.specs.Prelude.{◌≡◌, ◌≤◌, [], length, map, slice_get, unwrap_or, true, false};
ghost use Rattle.ibx_asm.specs.Dis.{register_text};
ghost use Rattle.std.specs.List.{list_all, position};
ghost use Rattle.std.specs.Str.{bytes_eq};
ghost use Rattle.ibx_asm.specs.Operands.{register_of, signed_of, is_initial, is_name_byte, is_name, difference};

use ibx_text::number;

/// A number with its sign: minus `size` where `minus` is set.
#[derive(Clone, Copy)]
pub(crate) struct Signed {
    pub(crate) minus: bool,
    pub(crate) size: u64,
}

impl Signed {
    /// A number that isn't negative.
    pub(crate) fn plus(size: u64) -> Signed
        ensures { result ≡ record { minus = false; size = size } }
    {
        Signed { minus: false, size }
    }

    /// The number `-size`.
    pub(crate) fn minus(size: u64) -> Signed
        ensures { result ≡ record { minus = true; size = size } }
    {
        Signed { minus: true, size }
    }
}

// The registers by number.
static REGISTERS: [&str; 32] = [
    "x0", "x1", "x2", "x3", "x4", "x5", "x6", "x7", "x8", "x9", "x10", "x11", "x12", "x13", "x14",
    "x15", "x16", "x17", "x18", "x19", "x20", "x21", "x22", "x23", "x24", "x25", "x26", "x27",
    "x28", "x29", "x30", "x31",
];

fn name_at(names: &[&'static str], number: u32) -> &'static str
    ensures { result.now ≡ unwrap_or (slice_get (map (λ name. name.now) names.now) number) [] }
{
    match names.get(number as usize) {
        Some(name) => name,
        None => "",
    }
}

/// The name of a register, empty where there is none of this number.
pub(crate) fn register_name(number: u32) -> &'static str
    ensures value { result.now ≡ register_text number }
    ensures short { length result.now ≤ 3 }
{
    name_at(&REGISTERS, number)
}

fn index_of(names: &[&str], token: &[u8]) -> Option<usize>
    ensures { result ≡ position (λ name. bytes_eq name.now token.now) names.now }
{
    names.iter().position(|name| name.as_bytes() == token)
}

/// The number of a register, none where the token isn't one.
pub(crate) fn register(token: &[u8]) -> Option<u64>
    ensures { result ≡ register_of token.now }
{
    match index_of(&REGISTERS, token) {
        Some(index) => Some(index as u64),
        None => None,
    }
}

/// The number that a token writes, with or without a `-` right before it.
#[tactic(auto, unfolding(crate::specs::Operands::signed_of))]
pub(crate) fn signed_number(token: &[u8]) -> Option<Signed>
    ensures { result ≡ signed_of token.now }
{
    if token.starts_with(b"-") {
        number(&token[1..]).map(Signed::minus)
    } else {
        number(token).map(Signed::plus)
    }
}

// Whether a name may begin with this byte.
fn is_initial(byte: u8) -> bool
    ensures { result ≡ is_initial byte }
{
    matches!(byte, b'A'..=b'Z' | b'a'..=b'z' | b'.' | b'_')
}

// Whether a name may have this byte after its first.
fn is_name_byte(byte: u8) -> bool
    ensures { result ≡ is_name_byte byte }
{
    is_initial(byte) || matches!(byte, b'0'..=b'9')
}

fn are_name_bytes(bytes: &[u8]) -> bool
    ensures { result ≡ list_all is_name_byte bytes.now }
{
    bytes.iter().all(|byte| is_name_byte(*byte))
}

/// Whether a token is a name: a letter, `.` or `_`, and then letters, digits, `.` and `_`.
#[tactic(auto, unfolding(crate::specs::Operands::is_name))]
pub(crate) fn is_name(token: &[u8]) -> bool
    ensures { result ≡ is_name token.now }
{
    match token.split_first() {
        Some((first, more)) => is_initial(*first) && are_name_bytes(more),
        None => false,
    }
}

/// One byte address minus another.
#[tactic(auto, unfolding(crate::specs::Operands::difference))]
pub(crate) fn difference(to: u64, from: u64) -> Signed
    ensures { result ≡ difference to from }
{
    if to < from {
        Signed::minus(from - to)
    } else {
        Signed::plus(to - from)
    }
}
