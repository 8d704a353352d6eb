ghost use Rattle.std.specs.Prelude.{◌≡◌, ◌<◌, ◌^◌, ℕ, Some, None, IfSome, IfNone, false, nat_le, bit_and, ◌==◌, ◌&&◌};
ghost use Rattle.std.specs.Prelude.{if◌then◌else◌};
ghost use Rattle.ibx_bits.specs.Platform.{interrupt_lines};
ghost use Rattle.ibx_plan.specs.Sites.{fitting, site_fits};
ghost use Rattle.ibx_plan.specs.Line.{number_at, site_of, entry_of, entry_fits, in_range, line_entry};

use crate::bounds::{Bounds, LineKind};
use crate::number::{number_at, u8_at, u32_at};
use crate::row::{Row, Target, are_numbers, row_of};
use crate::site::{Flip, Site, Wait};
use crate::text::Words;
use ibx_bits::INTERRUPT_LINES;

/// From `cycle` on the interrupt lines are `mask`.
#[derive(Clone, Copy)]
pub struct Change {
    pub cycle: u64,
    pub mask: u32,
}

/// What a line adds to a plan.
#[derive(Clone, Copy)]
pub enum Entry {
    Iwait(Wait),
    Dwait(Wait),
    Irq(Change),
    Flip(Flip),
}

// The greatest cycle of an `irq` line.
const LAST_CHANGE: u64 = 1_000_000_000;

// The site of a line whose words name this target, none where a number is past its type and so past its range.
#[tactic(auto, using(crate::proofs::Narrow::narrow_field, crate::proofs::Narrow::narrow_wire, crate::proofs::Narrow::narrow_output), unfolding(crate::specs::Line::site_of, crate::specs::Sites::site_fits, crate::specs::Sites::ranges))]
fn site_at(words: &Words, target: Target) -> Option<Site>
    ensures some { IfSome result (λ site. site ≡ site_of target (number_at words.now)) }
    ensures none { IfNone result ((ram_words delay : ℕ) → ram_words < 2 ^ 32 → delay < 2 ^ 8
        → site_fits ram_words delay (site_of target (number_at words.now)) ≡ false) }
{
    Some(match target {
        Target::Main(field) => Site::Main {
            field,
            bit: u8_at(words, 4)?,
        },
        Target::Shadow(field) => Site::Shadow {
            field,
            bit: u8_at(words, 4)?,
        },
        Target::Delay(wire) => Site::Delay {
            slot: u8_at(words, 3)?,
            wire,
            bit: u8_at(words, 5)?,
        },
        Target::Reg => Site::Reg {
            n: u8_at(words, 3)?,
            bit: u8_at(words, 4)?,
        },
        Target::Tag => Site::Tag {
            set: u8_at(words, 3)?,
            way: u8_at(words, 4)?,
            bit: u8_at(words, 5)?,
        },
        Target::Line => Site::Line {
            set: u8_at(words, 3)?,
            way: u8_at(words, 4)?,
            half: u8_at(words, 5)?,
            bit: u8_at(words, 6)?,
        },
        Target::Output(wire) => Site::Output {
            wire,
            bit: u8_at(words, 4)?,
        },
        Target::Answer => Site::Answer {
            port: u8_at(words, 3)?,
            bit: u8_at(words, 4)?,
        },
        Target::Mem => Site::Mem {
            word: u32_at(words, 3)?,
            bit: u8_at(words, 4)?,
        },
    })
}

fn site_of(words: &Words, target: Target, ram_words: u32, delay: u8) -> Option<Site>
    ensures { result ≡ fitting ram_words delay (site_of target (number_at words.now)) }
{
    match site_at(words, target) {
        Some(site) if site.fits(ram_words, delay) => Some(site),
        _ => None,
    }
}

fn wait_of(grant: u64, answer: u64) -> Option<Wait>
    ensures { result ≡ (if nat_le grant 255 && nat_le answer 255
        then Some (record { grant = grant; answer = answer }) else None) }
{
    if grant <= 255 && answer <= 255 {
        Some(Wait {
            grant: grant as u8,
            answer: answer as u8,
        })
    } else {
        None
    }
}

fn change_of(cycle: u64, mask: u64) -> Option<Change>
    ensures { result ≡ (if nat_le cycle 1000000000 && (bit_and mask interrupt_lines == mask)
        then Some (record { cycle = cycle; mask = mask }) else None) }
{
    if cycle <= LAST_CHANGE && mask & INTERRUPT_LINES as u64 == mask {
        Some(Change {
            cycle,
            mask: mask as u32,
        })
    } else {
        None
    }
}

#[tactic(auto, unfolding(crate::specs::Line::entry_of, crate::specs::Line::entry_fits))]
fn entry_of(words: &Words, row: Row, bounds: &Bounds) -> Result<Entry, LineKind>
    ensures { result ≡ in_range bounds.now (entry_of row (number_at words.now)) }
{
    let cycle = number_at(words, 1);
    let entry = match row {
        Row::Iwait => wait_of(cycle, number_at(words, 2)).map(Entry::Iwait),
        Row::Dwait => wait_of(cycle, number_at(words, 2)).map(Entry::Dwait),
        Row::Irq => change_of(cycle, number_at(words, 2)).map(Entry::Irq),
        Row::Flip(target) => match site_of(words, target, bounds.ram_words, bounds.delay) {
            Some(site) if cycle < bounds.cycles => Some(Entry::Flip(Flip { cycle, site })),
            _ => None,
        },
    };
    entry.ok_or(LineKind::Range)
}

/// The entry of a line that isn't skipped, or the first fault that it has.
#[tactic(auto, unfolding(crate::specs::Line::row_entry))]
pub(crate) fn line_entry(words: &Words, bounds: &Bounds) -> Result<Entry, LineKind>
    ensures { result ≡ line_entry bounds.now words.now }
{
    match row_of(words) {
        None => Err(LineKind::Word),
        Some(row) if are_numbers(words, row) => entry_of(words, row, bounds),
        Some(_) => Err(LineKind::Number),
    }
}
