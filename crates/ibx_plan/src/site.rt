use crate::names::{field_width, output_width, wire_width};

/// The waits of one bus transaction, in cycles: `grant` cycles from its first request to its grant, and
/// `answer` further cycles from the cycle after the grant to its answer. Each is from 0 to 255.
#[derive(Clone, Copy, Debug, PartialEq, Eq)]
pub struct Wait {
    pub grant: u8,
    pub answer: u8,
}

/// One bit of the machine's state or wires; `bit` is counted from the lowest.
#[derive(Clone, Copy, PartialEq, Eq)]
pub enum Site {
    /// A field of the main core, by its number below `FIELDS`.
    Main { field: u8, bit: u8 },
    /// The same field of the shadow core.
    Shadow { field: u8, bit: u8 },
    /// A delayed wire between the two cores: slot 0 is the oldest one. Wire 36, the age of the delayed
    /// pairs, and wire 37, whether the cycle before found a difference, have slot 0 alone.
    Delay { slot: u8, wire: u8, bit: u8 },
    /// The stored word of register x`n`, `n` from 1 to 31.
    Reg { n: u8, bit: u8 },
    /// A tag word of the instruction cache, by set and way.
    Tag { set: u8, way: u8, bit: u8 },
    /// A data word of the instruction cache: `half` 0 is the word of the lower address.
    Line { set: u8, way: u8, half: u8, bit: u8 },
    /// A word that the memories hand to the core: `rega`, `regb`, `tag0`, `tag1`, `data0`, `data1`, by
    /// number from 0.
    Output { wire: u8, bit: u8 },
    /// The answer word that a port keeps: port 0 is that of instructions, port 1 that of data.
    Answer { port: u8, bit: u8 },
    /// A stored word of RAM, by word index from its base.
    Mem { word: u32, bit: u8 },
}

// How many bits a stored word has.
const WORD_BITS: u8 = 39;

// How many bits a tag word has.
const TAG_BITS: u8 = 28;

// The age of the delayed pairs, which has slot 0 alone, and so has the wire behind it.
const AGE: u8 = 36;

impl Site {
    ghost use Rattle.std.specs.Prelude.{◌≡◌};
    ghost use Rattle.ibx_plan.specs.Sites.{site_fits};

    /// Whether there is such a bit in a machine with so many words of RAM and this delay. The set of a tag
    /// word or a data word is from 0 to 255, as its type says.
    #[tactic(auto, unfolding(crate::specs::Sites::site_fits, crate::specs::Sites::ranges))]
    pub fn fits(self, ram_words: u32, delay: u8) -> bool
        ensures { result ≡ site_fits ram_words delay self }
    {
        match self {
            Site::Main { field, bit } | Site::Shadow { field, bit } => bit < field_width(field),
            Site::Delay { slot, wire, bit } => {
                let slots = if wire >= AGE { 1 } else { delay };
                slot < slots && bit < wire_width(wire)
            }
            Site::Reg { n, bit } => 1 <= n && n < 32 && bit < WORD_BITS,
            Site::Tag { way, bit, .. } => way < 2 && bit < TAG_BITS,
            Site::Line { way, half, bit, .. } => way < 2 && half < 2 && bit < WORD_BITS,
            Site::Output { wire, bit } => bit < output_width(wire),
            Site::Answer { port, bit } => port < 2 && bit < WORD_BITS,
            Site::Mem { word, bit } => word < ram_words && bit < WORD_BITS,
        }
    }
}

/// A change of one bit at the start of a clock cycle.
#[derive(Clone, Copy, PartialEq, Eq)]
pub struct Flip {
    pub cycle: u64,
    pub site: Site,
}
