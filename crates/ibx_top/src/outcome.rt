//! How a call ends, and its report: the status, and the line on the error output.
ghost use Rattle.std.specs.Prelude.{◌≡◌, ◌++◌, OnOk, OnErr};
ghost use Rattle.ibx_base.specs.Counts.{HasCause};
ghost use Rattle.ibx_base.specs.Sinks.{with_more, TookPrefix};
ghost use Rattle.ibx_top.specs.Answers.{IsOneOf, Says, run_codes};
ghost use Rattle.ibx_top.specs.Answers.{finish_code as finish_code_lem, refusal_code as refusal_code_lem};
ghost use Rattle.ibx_top.specs.Answers.{finish_seal, refusal_line};
ghost use Rattle.ibx_top.specs.Outcomes.{code_of as code_of_lem, end_of as end_of_lem, err_line_of, seal_in};

use crate::faults::{asm_fault_text, fault_text, plan_fault_text};
use ibx_asm::AsmFault;
use ibx_base::{Failed, NoMemory, Sink, Status, write_all};
use ibx_elf::ElfFault;
use ibx_plan::PlanFault;

/// What a command came to whose whole text was written.
#[derive(Clone, Copy)]
pub(crate) enum Finish {
    /// The cores ran: whether a halting store ended the run, and the sum of main's fields.
    Ran { halted: bool, seal: u64 },
    /// The cores ran with and without a flip, and whether there was an alert.
    Injected(bool),
    /// Two runs were compared: whether they differ, and the sum of the fields of both.
    Compared { differ: bool, seal: u64 },
    /// The file of a text, or the text of a file.
    Written,
}

/// Why a file isn't run, a plan isn't followed, or a text isn't turned into a file.
#[derive(Clone, Copy)]
pub(crate) enum Refusal {
    /// The file has too many bytes.
    FileTooLong,
    /// The file isn't a program for the machine.
    File(ElfFault),
    /// The plan has too many bytes.
    PlanTooLong,
    /// The plan can't be followed.
    Plan(PlanFault),
    /// The text has too many bytes.
    TextTooLong,
    /// A line of the text is refused.
    Text(AsmFault),
}

/// How a call ends. Names are those of files.
#[derive(Clone, Copy)]
pub(crate) enum Outcome<'w> {
    /// The command was done, and its text written.
    Finished(Finish),
    /// The words don't fit the grammar.
    BadWords,
    /// This file can't be read.
    CannotRead(&'w str),
    /// The output can't be written.
    CannotWrite,
    /// This file, plan or text is refused.
    Refused(&'w str, Refusal),
    /// There was no memory.
    OutOfMemory,
}

impl<'w> From<Failed> for Outcome<'w> {
    ghost use Rattle.std.specs.Prelude.{◌≡◌};
    ghost use Rattle.ibx_top.specs.declared.outcome.Outcome.TheVariants.{CannotWrite};

    ghost from_gives = { λ _ e. e ≡ CannotWrite };

    fn from(_: Failed) -> Outcome<'w> {
        Outcome::CannotWrite
    }
}

impl<'w> From<NoMemory> for Outcome<'w> {
    ghost use Rattle.std.specs.Prelude.{◌≡◌};
    ghost use Rattle.ibx_top.specs.declared.outcome.Outcome.TheVariants.{OutOfMemory};

    ghost from_gives = { λ _ e. e ≡ OutOfMemory };

    fn from(_: NoMemory) -> Outcome<'w> {
        Outcome::OutOfMemory
    }
}

/// How the call of a command ends.
pub(crate) fn end_of(done: Result<Finish, Outcome<'_>>) -> Outcome<'_>
    ensures { result ≡ end_of_lem done.entry }
{
    match done {
        Ok(finish) => Outcome::Finished(finish),
        Err(outcome) => outcome,
    }
}

// Writes a line of three parts. After `Failed`, which comes only where the sink counted a fault, a prefix of it was
// taken.
fn write_parts<E: Sink>(err: &mut E, front: &str, middle: &str, back: &str) -> Result<(), Failed>
    ensures whole { OnOk result
        (E.taken err.new ≡ with_more (E.taken err.old) (front.now ++ middle.now ++ back.now)) }
    ensures prefix { OnErr result
        (TookPrefix (E.taken err.old) (front.now ++ middle.now ++ back.now) (E.taken err.new)) }
    ensures cause { HasCause (E.faults err.old) (E.faults err.new) result }
{
    write_all(err, front.as_bytes())?;
    write_all(err, middle.as_bytes())?;
    write_all(err, back.as_bytes())
}

// Writes the line of a refusal.
#[tactic(auto, unfolding(crate::specs::Answers::refusal_line))]
fn write_refusal<E: Sink>(err: &mut E, name: &str, refusal: Refusal) -> Result<(), Failed>
    ensures whole { OnOk result
        (E.taken err.new ≡ with_more (E.taken err.old) (refusal_line name.now refusal)) }
    ensures prefix { OnErr result (TookPrefix (E.taken err.old) (refusal_line name.now refusal) (E.taken err.new)) }
    ensures cause { HasCause (E.faults err.old) (E.faults err.new) result }
{
    match refusal {
        Refusal::FileTooLong | Refusal::PlanTooLong => {
            write_parts(err, "ibex: ", name, ": too long\n")
        }
        Refusal::TextTooLong => write_parts(err, "ibex: ", name, ": text too long\n"),
        Refusal::File(fault) => {
            let text = fault_text(fault);
            write_parts(err, "ibex: ", name, text.as_str())
        }
        Refusal::Plan(fault) => {
            let text = plan_fault_text(fault);
            write_parts(err, "ibex: ", name, text.as_str())
        }
        Refusal::Text(fault) => {
            let text = asm_fault_text(fault);
            write_parts(err, "ibex: ", name, text.as_str())
        }
    }
}

// Writes the line of an outcome.
fn write_line<E: Sink>(err: &mut E, outcome: Outcome<'_>) -> Result<(), Failed>
    ensures whole { OnOk result (E.taken err.new ≡ with_more (E.taken err.old) (err_line_of outcome.entry)) }
    ensures prefix { OnErr result (TookPrefix (E.taken err.old) (err_line_of outcome.entry) (E.taken err.new)) }
    ensures cause { HasCause (E.faults err.old) (E.faults err.new) result }
    ensures quiet { IsOneOf run_codes (code_of_lem outcome.entry) → err.new ≡ err.old }
{
    match outcome {
        Outcome::Finished(_) => Ok(()),
        Outcome::BadWords => write_all(err, b"ibex: bad words\n"),
        Outcome::CannotRead(name) => write_parts(err, "ibex: cannot read ", name, "\n"),
        Outcome::CannotWrite => write_all(err, b"ibex: cannot write\n"),
        Outcome::Refused(name, refusal) => write_refusal(err, name, refusal),
        Outcome::OutOfMemory => write_all(err, b"ibex: out of memory\n"),
    }
}

// The status of what a command came to.
fn finish_code(finish: Finish) -> u8
    ensures { result ≡ finish_code_lem finish }
{
    match finish {
        Finish::Ran { halted: true, .. } | Finish::Injected(false) | Finish::Written => 0,
        Finish::Ran { halted: false, .. } => 1,
        Finish::Injected(true) => 8,
        Finish::Compared { differ, .. } => { if differ { 9 } else { 0 } }
    }
}

// The status of a refusal.
fn refusal_code(refusal: Refusal) -> u8
    ensures { result ≡ refusal_code_lem refusal }
{
    match refusal {
        Refusal::FileTooLong | Refusal::File(_) => 5,
        Refusal::PlanTooLong | Refusal::Plan(_) => 6,
        Refusal::TextTooLong | Refusal::Text(_) => 12,
    }
}

// The status of an outcome.
fn code_of(outcome: Outcome<'_>) -> u8
    ensures { result ≡ code_of_lem outcome.entry }
{
    match outcome {
        Outcome::Finished(finish) => finish_code(finish),
        Outcome::BadWords => 2,
        Outcome::CannotRead(_) => 3,
        Outcome::CannotWrite => 4,
        Outcome::Refused(_, refusal) => refusal_code(refusal),
        Outcome::OutOfMemory => 7,
    }
}

// The seal of an outcome: that of a run or a comparison, and else 0.
fn seal_of(outcome: Outcome<'_>) -> u64
    ensures { result ≡ seal_in outcome.entry }
{
    match outcome {
        Outcome::Finished(Finish::Ran { seal, .. } | Finish::Compared { seal, .. }) => seal,
        _ => 0,
    }
}

/// Reports an outcome. A fault of the error output changes nothing else.
pub(crate) fn report<E: Sink>(err: &mut E, outcome: Outcome<'_>) -> Status
    ensures code { result.code ≡ code_of_lem outcome.entry }
    ensures seal { result.seal ≡ seal_in outcome.entry }
    ensures line { Says (E.taken err.old) (E.taken err.new) (E.faults err.old) (E.faults err.new)
        (err_line_of outcome.entry) }
    ensures quiet { IsOneOf run_codes (code_of_lem outcome.entry) → err.new ≡ err.old }
{
    let _ = write_line(err, outcome);
    Status {
        code: code_of(outcome),
        seal: seal_of(outcome),
    }
}
