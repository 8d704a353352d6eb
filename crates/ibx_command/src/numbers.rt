ghost use Rattle.std.specs.Prelude.{◌≡◌, ◌≤◌, map, string_bytes, IfSome};
ghost use Rattle.ibx_command.specs.Parts.{pieces_of, values_of};
ghost use Rattle.ibx_command.specs.Numbers.{number_set};
ghost use Rattle.ibx_command.specs.Found.{rule_of};

use crate::parts::{Found, Wanted, find};
use ibx_text::number;

/// An option that takes a number.
#[derive(Drop)]
pub(crate) struct NumberOption {
    pub name: &'static str,
    /// The number where the option isn't given.
    pub default: u64,
    /// The least number that it takes.
    pub least: u64,
    /// The most that it takes.
    pub most: u64,
}

/// How long a run lasts at most, in cycles.
pub(crate) const CYCLES: NumberOption = NumberOption {
    name: "--cycles",
    default: 1_000_000,
    least: 1,
    most: 1_000_000_000,
};

/// By how many cycles the shadow is behind main.
pub(crate) const DELAY: NumberOption = NumberOption {
    name: "--delay",
    default: 2,
    least: 1,
    most: 4,
};

/// The first byte address of the RAM.
pub(crate) const RAM_BASE: NumberOption = NumberOption {
    name: "--ram-base",
    default: 0x0010_0000,
    least: 0,
    most: 0xFFFF_FFFF,
};

/// How many bytes the RAM has.
pub(crate) const RAM_SIZE: NumberOption = NumberOption {
    name: "--ram-size",
    default: 1_048_576,
    least: 0,
    most: 0xFFFF_FFFF,
};

/// The number that an option stands at. None where it is given twice, or with a value that is no number that it
/// takes.
#[tactic(auto, unfolding(crate::specs::Numbers::number_set))]
pub(crate) fn number_in(words: &[String], option: NumberOption) -> Option<u64>
    requires above { option.least ≤ option.default }
    requires below { option.default ≤ option.most }
    ensures value { result
        ≡ number_set (rule_of option) (values_of option.name.now (pieces_of (map string_bytes words.now))) }
    ensures in_range { IfSome result (λ n. (option.least ≤ n) × (n ≤ option.most)) }
{
    match find(words, Wanted::ValueOf(option.name)) {
        Found::Nothing => Some(option.default),
        Found::One(text) => number(text.as_bytes()).filter(|n| option.least <= *n
            && *n <= option.most),
        Found::Several => None,
    }
}
