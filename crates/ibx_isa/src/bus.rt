ghost use Rattle.std.specs.Prelude.{⊤, ◌≡◌, [], ◌∷◌, codes};

use bitflags::{Flag, Flags, bitflag_items};

/// The wires of a request. The address is aligned to 4, `be` has a bit for each byte enable, and `word`
/// is a codeword of 39 bits, 0 for a load. With `valid` false all other wires are 0.
#[derive(Clone, Copy, Debug, PartialEq, Eq)]
pub struct Req {
    pub valid: bool,
    pub write: bool,
    pub be: u8,
    pub addr: u32,
    pub word: u64,
}

impl Req {
    /// The wires of no request.
    pub const NONE: Req = Req {
        valid: false,
        write: false,
        be: 0,
        addr: 0,
        word: 0,
    };
}

/// The wires of an answer; `word` is a word of 39 bits. With `valid` false all other wires are 0.
#[derive(Clone, Copy, Debug, PartialEq, Eq)]
pub struct Rsp {
    pub valid: bool,
    pub err: bool,
    pub word: u64,
}

/// A set of alerts.
#[derive(Clone, Copy, Debug, PartialEq, Eq)]
pub struct Alerts(pub u8);

bitflag_items! {
    impl Alerts: u8 {
        const MINOR = 1;
        const INTERNAL = 2;
        const BUS = 4;
    }
}

impl Flags for Alerts {
    type Bits = u8;

    ghost exact = { ⊤ };

    ghost table = { (codes "MINOR", 1) ∷ (codes "INTERNAL", 2) ∷ (codes "BUS", 4) ∷ [] };

    ghost set_of = { λ a. a.0 };

    fn flags<'a>() -> &'a [Flag<Alerts>] {
        Alerts::FLAGS
    }

    fn bits(&self) -> u8 {
        self.0
    }

    fn from_bits_retain(bits: u8) -> Alerts {
        Alerts(bits)
    }
}
