ghost use Rattle.std.specs.Prelude.{◌≡◌, ◌<◌, SomeIff, unwrap_or, is_some};
ghost use Rattle.ibx_text.specs.Number.{number_of};
ghost use Rattle.ibx_plan.specs.Text.{word};
ghost use Rattle.ibx_plan.specs.Line.{number_at};

use crate::text::Words;
use ibx_text::number;

/// Whether the word at an index is a number.
pub(crate) fn is_number(words: &Words, index: usize) -> bool
    ensures { result ≡ is_some (number_of (word words.now index)) }
{
    number(words.at(index)).is_some()
}

/// The number at an index, 0 where the word is none.
pub(crate) fn number_at(words: &Words, index: usize) -> u64
    ensures { result ≡ number_at words.now index }
{
    number(words.at(index)).unwrap_or(0)
}

/// The number at an index, if it has at most 8 bits.
pub(crate) fn u8_at(words: &Words, index: usize) -> Option<u8>
    ensures { SomeIff result (number_at words.now index < 256) (number_at words.now index) }
{
    u8::try_from(number_at(words, index)).ok()
}

/// The number at an index, if it has at most 32 bits.
pub(crate) fn u32_at(words: &Words, index: usize) -> Option<u32>
    ensures { SomeIff result (number_at words.now index < 4294967296) (number_at words.now index) }
{
    u32::try_from(number_at(words, index)).ok()
}
