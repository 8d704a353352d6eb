ghost use Rattle.std.specs.Prelude.{◌≡◌, map, string_bytes, IfSome};
ghost use Rattle.std.specs.Option.{option_map};
ghost use Rattle.ibx_command.specs.Parts.{only, both, files_of, pieces_of};
ghost use Rattle.ibx_command.specs.Command.{meaning_of, IsPossible, seed_named, run_of, inject_of, twin_of, gen_of};
ghost use Rattle.ibx_command.specs.Command.{asm_of, dis_of, command_of};

use crate::numbers::{CYCLES, DELAY, RAM_BASE, RAM_SIZE};
use crate::options::{MUL, Options, PLAN, options_in, plan_choice_in, plan_in, ram_in};
use crate::parts::{Found, Wanted, all_fit, find, two_files};
use ibx_elf::Ram;
use ibx_text::number;

/// The words of the command `run FILE`.
#[derive(Clone, Copy, Debug, PartialEq, Eq)]
pub struct Run<'w> {
    /// The name of the file that is run.
    pub file: &'w str,
    /// The name of the plan, if there is one.
    pub plan: Option<&'w str>,
    pub options: Options,
}

/// The words of the command `inject FILE --plan PLAN`.
#[derive(Clone, Copy, Debug, PartialEq, Eq)]
pub struct Inject<'w> {
    /// The name of the file that is run.
    pub file: &'w str,
    /// The name of the plan, which has the flip.
    pub plan: &'w str,
    pub options: Options,
}

/// The words of the command `twin FILE FILE`.
#[derive(Clone, Copy, Debug, PartialEq, Eq)]
pub struct Twin<'w> {
    /// The name of the file that is read first.
    pub first: &'w str,
    /// The name of the file that it is compared with.
    pub second: &'w str,
    /// The name of the plan, if there is one.
    pub plan: Option<&'w str>,
    pub options: Options,
}

/// The words of the command `gen SEED`.
#[derive(Clone, Copy, Debug, PartialEq, Eq)]
pub struct Generate {
    /// The number that the program is drawn from.
    pub seed: u32,
    pub options: Options,
}

/// The words of the command `asm FILE`.
#[derive(Clone, Copy, Debug, PartialEq, Eq)]
pub struct Assemble<'w> {
    /// The name of the text.
    pub file: &'w str,
}

/// The words of the command `dis FILE`.
#[derive(Clone, Copy, Debug, PartialEq, Eq)]
pub struct Disassemble<'w> {
    /// The name of the file whose code is printed.
    pub file: &'w str,
    /// The memory that the file has to fit.
    pub ram: Ram,
}

/// What the words of a command line say.
#[derive(Clone, Copy, Debug, PartialEq, Eq)]
pub enum Command<'w> {
    /// Run one file.
    Run(Run<'w>),
    /// Run one file twice, with and without the flip of a plan.
    Inject(Inject<'w>),
    /// Run two files, and compare what can be seen of them.
    Twin(Twin<'w>),
    /// Run the program that a number gives.
    Generate(Generate),
    /// Turn a text into a file.
    Assemble(Assemble<'w>),
    /// Print the code of a file as text.
    Disassemble(Disassemble<'w>),
}

// The one file among the words of a command.
fn file_in(words: &[String]) -> Option<&str>
    ensures { option_map (λ file. file.now) result ≡ only (files_of (pieces_of (map string_bytes words.now))) }
{
    match find(words, Wanted::AnyFile) {
        Found::One(file) => Some(file),
        _ => None,
    }
}

#[tactic(auto, unfolding(crate::specs::Command::run_of))]
fn read_run(words: &[String]) -> Option<Command<'_>>
    ensures meaning { option_map meaning_of result ≡ run_of (pieces_of (map string_bytes words.now)) }
    ensures valid { IfSome result IsPossible }
{
    if !all_fit(
        words,
        &[
            CYCLES.name,
            PLAN,
            MUL,
            DELAY.name,
            RAM_BASE.name,
            RAM_SIZE.name,
        ],
    ) {
        return None;
    }
    let file = file_in(words)?;
    let plan = plan_choice_in(words)?;
    let options = options_in(words)?;
    Some(Command::Run(Run {
        file,
        plan,
        options,
    }))
}

#[tactic(auto, unfolding(crate::specs::Command::inject_of))]
fn read_inject(words: &[String]) -> Option<Command<'_>>
    ensures meaning { option_map meaning_of result ≡ inject_of (pieces_of (map string_bytes words.now)) }
    ensures valid { IfSome result IsPossible }
{
    if !all_fit(
        words,
        &[
            CYCLES.name,
            PLAN,
            MUL,
            DELAY.name,
            RAM_BASE.name,
            RAM_SIZE.name,
        ],
    ) {
        return None;
    }
    let file = file_in(words)?;
    let plan = plan_in(words)?;
    let options = options_in(words)?;
    Some(Command::Inject(Inject {
        file,
        plan,
        options,
    }))
}

#[tactic(auto, unfolding(crate::specs::Command::twin_of))]
fn read_twin(words: &[String]) -> Option<Command<'_>>
    ensures meaning { option_map meaning_of result ≡ twin_of (pieces_of (map string_bytes words.now)) }
    ensures valid { IfSome result IsPossible }
{
    if !all_fit(
        words,
        &[
            CYCLES.name,
            PLAN,
            MUL,
            DELAY.name,
            RAM_BASE.name,
            RAM_SIZE.name,
        ],
    ) {
        return None;
    }
    let (first, second) = two_files(words)?;
    let plan = plan_choice_in(words)?;
    let options = options_in(words)?;
    Some(Command::Twin(Twin {
        first,
        second,
        plan,
        options,
    }))
}

// The seed that a word gives, a number of at most 32 bits.
fn seed_named(word: &str) -> Option<u32>
    ensures { result ≡ seed_named word.now }
{
    let seed = number(word.as_bytes())?;
    if seed > 0xFFFF_FFFF {
        return None;
    }
    Some(seed as u32)
}

#[tactic(auto, unfolding(crate::specs::Command::gen_of))]
fn read_gen(words: &[String]) -> Option<Command<'_>>
    ensures meaning { option_map meaning_of result ≡ gen_of (pieces_of (map string_bytes words.now)) }
    ensures valid { IfSome result IsPossible }
{
    if !all_fit(words, &[CYCLES.name, MUL]) {
        return None;
    }
    let seed = seed_named(file_in(words)?)?;
    let options = options_in(words)?;
    Some(Command::Generate(Generate { seed, options }))
}

#[tactic(auto, unfolding(crate::specs::Command::asm_of))]
fn read_asm(words: &[String]) -> Option<Command<'_>>
    ensures meaning { option_map meaning_of result ≡ asm_of (pieces_of (map string_bytes words.now)) }
    ensures valid { IfSome result IsPossible }
{
    if !all_fit(words, &[]) {
        return None;
    }
    let file = file_in(words)?;
    Some(Command::Assemble(Assemble { file }))
}

#[tactic(auto, unfolding(crate::specs::Command::dis_of))]
fn read_dis(words: &[String]) -> Option<Command<'_>>
    ensures meaning { option_map meaning_of result ≡ dis_of (pieces_of (map string_bytes words.now)) }
    ensures valid { IfSome result IsPossible }
{
    if !all_fit(words, &[RAM_BASE.name, RAM_SIZE.name]) {
        return None;
    }
    let file = file_in(words)?;
    let ram = ram_in(words)?;
    Some(Command::Disassemble(Disassemble { file, ram }))
}

/// Reads the words of a command line, without the program's name. None where they don't fit the grammar.
///
/// The first word is a command. After it come files and options in any order. An option is two words, `--name
/// value`, each at most once. A file is a word that isn't empty and doesn't begin with `-`, and a value doesn't
/// begin with `-`. A number is 1 to 10 decimal digits, or `0x` and 1 to 8 hexadecimal digits.
///
/// | command | options |
/// |---|---|
/// | `run FILE` | all of them |
/// | `inject FILE` | all of them; `--plan` has to be given |
/// | `twin FILE FILE` | all of them |
/// | `gen SEED` | `--cycles` and `--mul`; in the place of the file stands a number of at most 4,294,967,295 |
/// | `asm FILE` | none |
/// | `dis FILE` | `--ram-base` and `--ram-size` |
///
/// | option | value |
/// |---|---|
/// | `--cycles` | 1 to 1,000,000,000 |
/// | `--plan` | the name of a file, which isn't empty |
/// | `--mul` | `single`, `fast` or `slow` |
/// | `--delay` | 1 to 4: by how many cycles the shadow core is behind main |
/// | `--ram-base` | a multiple of 4,096 |
/// | `--ram-size` | a multiple of 4,096 from 4,096 to 16,777,216 |
///
/// The RAM ends at or below 2^32 and doesn't meet the host page, the bytes from 0x0002_0000 to 0x0002_0FFF. (All of
/// this is our own rule.)
#[tactic(auto, unfolding(crate::specs::Command::command_of))]
pub fn read_words(words: &[String]) -> Option<Command<'_>>
    ensures meaning { option_map meaning_of result ≡ command_of (map string_bytes words.now) }
    ensures valid { IfSome result IsPossible }
{
    let (name, rest) = words.split_first()?;
    match name.as_str() {
        "run" => read_run(rest),
        "inject" => read_inject(rest),
        "twin" => read_twin(rest),
        "gen" => read_gen(rest),
        "asm" => read_asm(rest),
        "dis" => read_dis(rest),
        _ => None,
    }
}
