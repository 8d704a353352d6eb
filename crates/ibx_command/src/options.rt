ghost use Rattle.std.specs.Prelude.{◌≡◌, map, string_bytes, IfSome};
ghost use Rattle.std.specs.Option.{option_map};
ghost use Rattle.ibx_elf.specs.Ram.{IsRamRange};
ghost use Rattle.ibx_command.specs.Parts.{pieces_of};
ghost use Rattle.ibx_command.specs.Options.{IsInRange, mul_named, mul_in, plan_choice_in, plan_in, checked_ram};
ghost use Rattle.ibx_command.specs.Options.{delay_in, ram_in, options_in};

use crate::numbers::{CYCLES, DELAY, RAM_BASE, RAM_SIZE, number_in};
use crate::parts::{Found, Wanted, find};
use ibx_elf::Ram;
use ibx_isa::MulKind;
use ibx_lockstep::Delay;

/// The file that has the plan.
pub(crate) const PLAN: &str = "--plan";

/// How long a multiplication takes.
pub(crate) const MUL: &str = "--mul";

/// What a command that runs a machine may be told beside its files. What the command doesn't take stands at its
/// default.
#[derive(Clone, Copy, Debug, PartialEq, Eq)]
pub struct Options {
    /// The most cycles that the run lasts: 1 to 1,000,000,000, by default 1,000,000.
    pub cycles: u64,
    /// The memory, by default 1 MiB from 0x0010_0000 on.
    pub ram: Ram,
    /// The multiplier, by default `MulKind::Fast`.
    pub mul: MulKind,
    /// By how many cycles the shadow core is behind main, by default `Delay::Two`.
    pub delay: Delay,
}

fn mul_named(word: &str) -> Option<MulKind>
    ensures { result ≡ mul_named word.now }
{
    match word {
        "single" => Some(MulKind::Single),
        "fast" => Some(MulKind::Fast),
        "slow" => Some(MulKind::Slow),
        _ => None,
    }
}

#[tactic(auto, unfolding(crate::specs::Options::mul_set))]
fn mul_in(words: &[String]) -> Option<MulKind>
    ensures { result ≡ mul_in (pieces_of (map string_bytes words.now)) }
{
    match find(words, Wanted::ValueOf(MUL)) {
        Found::Nothing => Some(MulKind::Fast),
        Found::One(word) => mul_named(word),
        Found::Several => None,
    }
}

fn delay_in(words: &[String]) -> Option<Delay>
    ensures { result ≡ delay_in (pieces_of (map string_bytes words.now)) }
{
    let cycles = number_in(words, DELAY)?;
    Some(match cycles {
        1 => Delay::One,
        2 => Delay::Two,
        3 => Delay::Three,
        _ => Delay::Four,
    })
}

/// The name of the plan. None where it isn't given once, or is empty.
pub(crate) fn plan_in(words: &[String]) -> Option<&str>
    ensures { option_map (λ name. name.now) result ≡ plan_in (pieces_of (map string_bytes words.now)) }
{
    match find(words, Wanted::ValueOf(PLAN)) {
        Found::One(name) if !name.is_empty() => Some(name),
        _ => None,
    }
}

/// The name of the plan, if it is given. None where it is given twice, or is empty.
#[tactic(auto, unfolding(crate::specs::Options::plan_choice))]
pub(crate) fn plan_choice_in(words: &[String]) -> Option<Option<&str>>
    ensures { option_map (λ plan. option_map (λ name. name.now) plan) result
        ≡ plan_choice_in (pieces_of (map string_bytes words.now)) }
{
    match find(words, Wanted::ValueOf(PLAN)) {
        Found::Nothing => Some(None),
        Found::One(name) if !name.is_empty() => Some(Some(name)),
        _ => None,
    }
}

#[tactic(auto, unfolding(crate::specs::Options::checked_ram), using(ibx_elf::proofs::Rams::tested_alike))]
fn checked_ram(ram: Ram) -> Option<Ram>
    ensures value { result ≡ checked_ram ram }
    ensures valid { IfSome result IsRamRange }
{
    if ram.is_valid() { Some(ram) } else { None }
}

/// The RAM that the options give. None where it can't be one.
#[tactic(auto, unfolding(crate::specs::Options::ram_in))]
pub(crate) fn ram_in(words: &[String]) -> Option<Ram>
    ensures value { result ≡ ram_in (pieces_of (map string_bytes words.now)) }
    ensures valid { IfSome result IsRamRange }
{
    let base = number_in(words, RAM_BASE)? as u32;
    let size = number_in(words, RAM_SIZE)? as u32;
    checked_ram(Ram { base, size })
}

/// The options among the words of a command.
#[tactic(auto, unfolding(crate::specs::Options::options_in))]
pub(crate) fn options_in(words: &[String]) -> Option<Options>
    ensures value { result ≡ options_in (pieces_of (map string_bytes words.now)) }
    ensures valid { IfSome result IsInRange }
{
    let cycles = number_in(words, CYCLES)?;
    let ram = ram_in(words)?;
    let mul = mul_in(words)?;
    let delay = delay_in(words)?;
    Some(Options {
        cycles,
        ram,
        mul,
        delay,
    })
}
