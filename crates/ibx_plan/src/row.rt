ghost use Rattle.std.specs.Prelude.{◌≡◌, length};
ghost use Rattle.ibx_plan.specs.Line.{flip_row, named, target_of, row_of, is_skipped, are_numbers, site_places};
ghost use Rattle.ibx_plan.specs.Line.{number_places};

use crate::names::{field_number, output_number, wire_number};
use crate::number::is_number;
use crate::text::Words;

/// What kind of site a flip's line names.
#[derive(Clone, Copy)]
pub enum Kind {
    Main,
    Shadow,
    Delay,
    Reg,
    Tag,
    Line,
    Output,
    Answer,
    Mem,
}

/// The site that a flip's line names, but for the numbers in it.
#[derive(Clone, Copy)]
pub enum Target {
    Main(u8),
    Shadow(u8),
    Delay(u8),
    Reg,
    Tag,
    Line,
    Output(u8),
    Answer,
    Mem,
}

/// What the words and names of a line say.
#[derive(Clone, Copy)]
pub enum Row {
    Iwait,
    Dwait,
    Irq,
    Flip(Target),
}

/// Whether a line says nothing: it is empty, or a comment.
pub(crate) fn is_skipped(words: &Words) -> bool
    ensures { result ≡ is_skipped words.now }
{
    words.len() == 0 || words.at(0).starts_with(b"#")
}

// The kind of site that a word names, and how many words such a line has.
#[tactic(auto, unfolding(crate::specs::Line::flip_rows))]
fn flip_row(name: &[u8]) -> Option<(Kind, usize)>
    ensures { result ≡ flip_row name.now }
{
    if name == b"main".as_slice() {
        Some((Kind::Main, 5))
    } else if name == b"shadow".as_slice() {
        Some((Kind::Shadow, 5))
    } else if name == b"delay".as_slice() {
        Some((Kind::Delay, 6))
    } else if name == b"reg".as_slice() {
        Some((Kind::Reg, 5))
    } else if name == b"tag".as_slice() {
        Some((Kind::Tag, 6))
    } else if name == b"data".as_slice() {
        Some((Kind::Line, 7))
    } else if name == b"out".as_slice() {
        Some((Kind::Output, 5))
    } else if name == b"answer".as_slice() {
        Some((Kind::Answer, 5))
    } else if name == b"mem".as_slice() {
        Some((Kind::Mem, 5))
    } else {
        None
    }
}

#[tactic(auto, unfolding(crate::specs::Line::named))]
fn named(kind: Kind, words: &Words) -> Option<Target>
    ensures { result ≡ named kind words.now }
{
    match kind {
        Kind::Main => field_number(words.at(3)).map(Target::Main),
        Kind::Shadow => field_number(words.at(3)).map(Target::Shadow),
        Kind::Delay => wire_number(words.at(4)).map(Target::Delay),
        Kind::Reg => Some(Target::Reg),
        Kind::Tag => Some(Target::Tag),
        Kind::Line => Some(Target::Line),
        Kind::Output => output_number(words.at(3)).map(Target::Output),
        Kind::Answer => Some(Target::Answer),
        Kind::Mem => Some(Target::Mem),
    }
}

#[tactic(auto, unfolding(crate::specs::Line::target_of))]
fn target_of(words: &Words) -> Option<Target>
    ensures { result ≡ target_of words.now }
{
    match flip_row(words.at(2)) {
        Some((kind, count)) if words.len() == count => named(kind, words),
        _ => None,
    }
}

/// What the words and names of a line say, `None` where they fit no row.
#[tactic(auto, unfolding(crate::specs::Line::row_of, crate::specs::Line::short_rows))]
pub(crate) fn row_of(words: &Words) -> Option<Row>
    ensures { result ≡ row_of words.now }
{
    let first = words.at(0);
    if first == b"flip".as_slice() {
        target_of(words).map(Row::Flip)
    } else if words.len() != 3 {
        None
    } else if first == b"iwait".as_slice() {
        Some(Row::Iwait)
    } else if first == b"dwait".as_slice() {
        Some(Row::Dwait)
    } else if first == b"irq".as_slice() {
        Some(Row::Irq)
    } else {
        None
    }
}

#[tactic(auto, unfolding(crate::specs::Line::site_places))]
fn are_site_numbers(words: &Words, target: Target) -> bool
    ensures { result ≡ are_numbers words.now (site_places target) }
{
    match target {
        Target::Main(_) | Target::Shadow(_) | Target::Output(_) => is_number(words, 4),
        Target::Delay(_) => is_number(words, 3) && is_number(words, 5),
        Target::Reg | Target::Answer | Target::Mem => is_number(words, 3) && is_number(words, 4),
        Target::Tag => is_number(words, 3) && is_number(words, 4) && is_number(words, 5),
        Target::Line => {
            is_number(words, 3) && is_number(words, 4) && is_number(words, 5) && is_number(words, 6)
        }
    }
}

/// Whether each word in a number's place is a number.
#[tactic(auto, unfolding(crate::specs::Line::number_places))]
pub(crate) fn are_numbers(words: &Words, row: Row) -> bool
    ensures { result ≡ are_numbers words.now (number_places row) }
{
    match row {
        Row::Iwait | Row::Dwait | Row::Irq => is_number(words, 1) && is_number(words, 2),
        Row::Flip(target) => is_number(words, 1) && are_site_numbers(words, target),
    }
}
