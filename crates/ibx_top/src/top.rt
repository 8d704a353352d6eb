//! The whole program as one call.
ghost use Rattle.std.specs.Prelude.{◌≡◌, ◌↔◌, ◌⊎◌, ℕ, List, Some, None, IsSome, map, string_bytes};
ghost use Rattle.ibx_base.specs.Counts.{Rose};
ghost use Rattle.ibx_base.specs.Files.{IsBegunAs};
ghost use Rattle.ibx_command.specs.Command.{IsPossible, command_of, meaning_of};
ghost use Rattle.ibx_lockstep.specs.Delays.{cycles_of};
ghost use Rattle.ibx_top.specs.ErrLines.{bad_words_line, cannot_read_line, cannot_write_line, out_of_memory_line};
ghost use Rattle.ibx_top.specs.Answers.{Answer, IsAnswer, IfInject, names_of, codes_of, Gives, IsCutShort, Notices};
ghost use Rattle.ibx_top.specs.Answers.{IsOneOf, IsAmong, AreThere, Says};
ghost use Rattle.ibx_top.specs.Answers.{answer_codes, run_codes, silent_codes, unsealed_codes};
ghost use Rattle.ibx_top.specs.Answers.{IfTwin, TellsTime};
ghost use Rattle.ibx_top.specs.Outcomes.{EndsNoticed, Fits, Leaves, Prints, Reads, end_of as end_of_lem};

use crate::asm_command::assemble;
use crate::dis_command::disassemble;
use crate::gen_command::generate;
use crate::inject_command::inject;
use crate::outcome::{Finish, Outcome, end_of, report};
use crate::run_command::run;
use crate::twin_command::twin;
use ibx_base::{Files, Sink, Status};
use ibx_command::{Command, read_words};
use std::alloc::Global;

// Does a command.
fn obey<'w, F: Files, K: Sink>(
    alloc: Global,
    command: Command<'w>,
    files: &mut F,
    out: &mut K,
) -> Result<Finish, Outcome<'w>>
    requires { IsPossible command }
    ensures leaves { Leaves F.contents F.begun F.faults F.misses K.taken K.faults
        (names_of (Some (meaning_of command.entry)))
        (IsAnswer (F.contents files.old) (Some (meaning_of command.entry)))
        (end_of_lem result) files.old files.new out.old out.new }
    ensures noticed { IfInject (Some (meaning_of command.entry)) (λ options.
        EndsNoticed (cycles_of options.delay) (end_of_lem result) (K.taken out.old) (K.taken out.new)) }
{
    match command {
        Command::Run(asked) => run(alloc, asked, files, out),
        Command::Inject(asked) => inject(alloc, asked, files, out),
        Command::Twin(asked) => twin(alloc, asked, files, out),
        Command::Generate(asked) => generate(alloc, asked, out),
        Command::Assemble(asked) => assemble(alloc, asked, files, out),
        Command::Disassemble(asked) => disassemble(alloc, asked, files, out),
    }
}

// Does what the words say.
fn perform<'w, F: Files, K: Sink>(
    alloc: Global,
    words: &'w [String],
    files: &mut F,
    out: &mut K,
) -> Outcome<'w>
    ensures fits { Fits (command_of (map string_bytes words.now)) result files.old files.new }
    ensures reads { Reads F.contents F.begun F.faults F.misses (names_of (command_of (map string_bytes words.now)))
        result
        files.old files.new }
    ensures prints { Prints K.taken K.faults (IsAnswer (F.contents files.old) (command_of (map string_bytes words.now)))
        result out.old out.new }
    ensures noticed { IfInject (command_of (map string_bytes words.now)) (λ options.
        EndsNoticed (cycles_of options.delay) result (K.taken out.old) (K.taken out.new)) }
{
    match read_words(words) {
        None => Outcome::BadWords,
        Some(command) => end_of(obey(alloc, command, files, out)),
    }
}

/// The whole program: reads the words after its name, reads and checks the files that they name, runs them, and writes
/// to `out` what they come to. It answers the exit status and a seal.
///
/// `run FILE` runs the file on the two-stage core with its second core in lockstep, and writes the line of each event,
/// with its clock cycle, then the last line. `inject FILE --plan PLAN` runs it twice, with and without the flip of the
/// plan, and writes the first cycle in which the wires of the bus differ, and the first cycle with an alert. The plan's
/// waits and interrupt lines hold for both. `twin FILE FILE` runs two files, and writes whether the views of their
/// events are the same, or the first index at which they differ, with both views; a view has all of an event that time
/// may depend on.
///
/// `asm FILE` reads a text of at most 4,194,304 bytes, and writes the file around the code that it stands for. `dis
/// FILE` writes the code of a file as text.
///
/// `gen SEED` runs the program that the number gives, in the memory of a run without options and without a plan, and
/// writes three lines: `gen SEED 4105`, with the count of the program's words; `sum HHHHHHHH`, the sum modulo 2^32 of
/// the values that were written to registers; and the last line of the run.
///
/// | status | of | meaning | line on `err` |
/// |---|---|---|---|
/// | 0 | `run`, `gen` | a halting store ended the run | none |
/// | 0 | `inject` | there was no alert | none |
/// | 0 | `twin` | the views are the same, and so are the cycles of all events | none |
/// | 0 | `asm`, `dis` | the file or the text was written | none |
/// | 1 | `run`, `gen` | the budget of cycles ended the run | none |
/// | 2 | | the words don't fit the grammar | `ibex: bad words` |
/// | 3 | all but `gen` | the files counted a fault | `ibex: cannot read NAME` |
/// | 4 | all | `out` counted a fault, and holds a prefix of the text | `ibex: cannot write` |
/// | 5 | `run`, `inject`, `twin`, `dis` | the file is refused | `ibex: NAME: elf fault K` and the indices of the program headers, or `ibex: NAME: too long` |
/// | 6 | `run`, `inject`, `twin` | the plan is refused | `ibex: NAME: plan line N KIND`, `ibex: NAME: plan line N too many`, `ibex: NAME: no flip` (`inject`), or `ibex: NAME: too long` |
/// | 7 | all | there was no memory | `ibex: out of memory` |
/// | 8 | `inject` | there was an alert | none |
/// | 9 | `twin` | the views differ, and the cycles are the same before that | none |
/// | 12 | `asm` | the text is refused | `ibex: NAME: asm line N KIND` or `ibex: NAME: text too long` |
///
/// The plan is read and followed before a file is read, and the first file is read and checked before the second. A
/// fault of `err` leaves a prefix of the line there and changes nothing else. All memory is taken before the first
/// step. The seal of a run is the sum over main's fields in the state that its steps leave, modulo 2^64; that of a
/// comparison is this of both runs, added; else it is 0. (Statuses, lines and formats are our own rules.)
pub fn ibex<F: Files, K: Sink, E: Sink>(
    alloc: Global,
    words: &[String],
    files: &mut F,
    out: &mut K,
    err: &mut E,
) -> Status
    // The statuses that the command has.
    ensures codes { IsOneOf (codes_of (command_of (map string_bytes words.now))) result.code }
    // The seal is 0 but for a run and a comparison.
    ensures unsealed { IsOneOf unsealed_codes result.code → result.seal ≡ 0 }

    // Status 2 comes exactly where the words don't fit, and then the files aren't touched.
    ensures bad_words { (result.code ≡ 2) ↔ (command_of (map string_bytes words.now) ≡ None) }
    ensures untouched { result.code ≡ 2 → files.new ≡ files.old }
    ensures bad_words_line { result.code ≡ 2
        → Says (E.taken err.old) (E.taken err.new) (E.faults err.old) (E.faults err.new) bad_words_line }

    // Status 3 comes only where the files counted a fault, and 4 only where `out` did.
    ensures read_fault { result.code ≡ 3 → Rose (F.faults files.old) (F.faults files.new) }
    ensures write_fault { result.code ≡ 4 → Rose (K.faults out.old) (K.faults out.new) }
    ensures cannot_write_line { result.code ≡ 4
        → Says (E.taken err.old) (E.taken err.new) (E.faults err.old) (E.faults err.new) cannot_write_line }
    ensures out_of_memory_line { result.code ≡ 7
        → Says (E.taken err.old) (E.taken err.new) (E.faults err.old) (E.faults err.new) out_of_memory_line }

    // What is left alone. Where the names are told and each name in the words is there, none is missed.
    ensures silent { IsOneOf silent_codes result.code → out.new ≡ out.old }
    ensures quiet { IsOneOf run_codes result.code → err.new ≡ err.old }
    ensures kept { F.contents files.new ≡ F.contents files.old }
    ensures misses { AreThere (F.contents files.old) (names_of (command_of (map string_bytes words.now)))
        → F.misses files.new ≡ F.misses files.old }

    // Statuses 0, 1, 5, 6, 8, 9 and 12 are those of the answer to the bytes of the files, with its whole text and line.
    // Where the bytes aren't told, it is that to some bytes.
    ensures answered { IsOneOf answer_codes result.code → (answer : Answer)
        × (IsAnswer (F.contents files.old) (command_of (map string_bytes words.now)) answer
        × (Gives answer result.code result.seal (K.taken out.old) (K.taken out.new)
        × Says (E.taken err.old) (E.taken err.new) (E.faults err.old) (E.faults err.new) answer.line)) }

    // Of `inject`: the bus doesn't differ without an alert, which comes at most the delay plus one cycles after the
    // first difference.
    ensures noticed { IfInject (command_of (map string_bytes words.now)) (λ options.
        IsOneOf run_codes result.code
        → Notices (cycles_of options.delay) result.code (K.taken out.old) (K.taken out.new)) }

    // Of `twin`: the cycles of both stories are the same as far as the answer says that the views are.
    ensures in_time { IfTwin (command_of (map string_bytes words.now)) (λ first second plan options.
        IsOneOf run_codes result.code → TellsTime (F.contents files.old) first second plan options result.code
        (K.taken out.old) (K.taken out.new)) }

    // Where the bytes are told, and neither files nor `out` count a fault, nothing but want of memory comes in place of
    // the answer.
    ensures complete { (Rose (F.faults files.old) (F.faults files.new) → ⊥)
        → (Rose (K.faults out.old) (K.faults out.new) → ⊥)
        → IsSome (F.contents files.old)
        → (answer : Answer) → IsAnswer (F.contents files.old) (command_of (map string_bytes words.now)) answer
        → (result.code ≡ 7) ⊎ Gives answer result.code result.seal (K.taken out.old) (K.taken out.new) }

    // The name on `err` at status 3 is one in the words, and that of the begun file where one is begun.
    ensures unread { result.code ≡ 3 → (name : List ℕ)
        × ((IsAmong (names_of (command_of (map string_bytes words.now))) name × IsBegunAs name (F.begun files.new))
        × Says (E.taken err.old) (E.taken err.new) (E.faults err.old) (E.faults err.new) (cannot_read_line name)) }

    // At status 4 `out` took a prefix of the text of an answer whose status is that of a run.
    ensures cut_short { result.code ≡ 4 → (answer : Answer)
        × (IsAnswer (F.contents files.old) (command_of (map string_bytes words.now)) answer
        × IsCutShort answer (K.taken out.old) (K.taken out.new)) }
{
    let outcome = perform(alloc, words, files, out);
    report(err, outcome)
}
