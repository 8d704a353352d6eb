//! The program that a number gives, run in memory, and what is printed of its run.
ghost use Rattle.std.specs.Prelude.{◌≡◌, ◌++◌, OnOk, OnErr};
ghost use Rattle.ibx_base.specs.Counts.{HasCause};
ghost use Rattle.ibx_base.specs.Sinks.{with_more, TookPrefix};
ghost use Rattle.ibx_command.specs.Options.{IsInRange};
ghost use Rattle.ibx_trace.specs.Lines.{end_line_of};
ghost use Rattle.ibx_top.specs.Answers.{generated_by};
ghost use Rattle.ibx_top.specs.Generated.{sum_lines as sum_lines_lem};
ghost use Rattle.ibx_top.specs.Outcomes.{IfBadWords, IfUnread, Prints, end_of};

use crate::bytes::are_bytes;
use crate::driving::print_end;
use crate::outcome::{Finish, Outcome};
use crate::seal::field_sum;
use crate::steps::open_system;
use crate::totals::{Total, run_total};
use arrayvec::ArrayString;
use ibx_base::{Failed, Sink, write_all};
use ibx_command::Generate;
use ibx_elf::{Ram, load};
use ibx_plan::Plan;
use ibx_text::Digits;
use std::alloc::Global;

// The memory of the run, that of a run without options: 1 MiB from 0x0010_0000 on.
const RAM: Ram = Ram {
    base: 0x0010_0000,
    size: 0x0010_0000,
};

// Two lines, which have at most 33 bytes.
type Lines = ArrayString<48>;

// The line of the number with the count of its program's words, and the line of the sum.
#[tactic(auto, unfolding(crate::specs::Generated::sum_lines))]
fn sum_lines(seed: u32, sum: u32) -> Lines
    ensures { result.bytes ≡ sum_lines_lem seed sum }
{
    let mut text = Lines::new();
    text.push_str("gen ");
    text.push_str(Digits::decimal(u64::from(seed)).as_str());
    text.push_str(" 4105\nsum ");
    text.push_str(Digits::hexadecimal(sum, 8).as_str());
    text.push_str("\n");
    text
}

// Writes the first two lines.
fn print_sum<K: Sink>(seed: u32, sum: u32, out: &mut K) -> Result<(), Failed>
    ensures whole { OnOk result (K.taken out.new ≡ with_more (K.taken out.old) (sum_lines_lem seed sum)) }
    ensures prefix { OnErr result (TookPrefix (K.taken out.old) (sum_lines_lem seed sum) (K.taken out.new)) }
    ensures cause { HasCause (K.faults out.old) (K.faults out.new) result }
{
    let text = sum_lines(seed, sum);
    write_all(out, text.as_str().as_bytes())
}

// Writes all three lines of a run that made so many cycles. `Failed` comes only where the sink counted a fault, and
// then a prefix of them was taken.
fn print_total<K: Sink>(seed: u32, total: &Total, cycles: u64, out: &mut K) -> Result<(), Failed>
    ensures whole { OnOk result (K.taken out.new ≡ with_more (K.taken out.old)
        (sum_lines_lem seed total.now.sum ++ end_line_of total.now.halted cycles total.now.events)) }
    ensures prefix { OnErr result (TookPrefix (K.taken out.old)
        (sum_lines_lem seed total.now.sum ++ end_line_of total.now.halted cycles total.now.events) (K.taken out.new)) }
    ensures cause { HasCause (K.faults out.old) (K.faults out.new) result }
{
    print_sum(seed, total.sum, out)?;
    print_end(total.halted, cycles, total.events, out)
}

/// Makes the file that a number gives, runs it in the memory of a run without options and without a plan, and writes
/// what the run comes to. The file is never refused.
pub(crate) fn generate<'w, K: Sink>(
    alloc: Global,
    asked: Generate,
    out: &mut K,
) -> Result<Finish, Outcome<'w>>
    requires { IsInRange asked.options }
    ensures words { IfBadWords (end_of result) ⊥ }
    ensures read { IfUnread (end_of result) (λ _. ⊥) }
    ensures prints { Prints K.taken K.faults (λ answer. answer ≡ generated_by asked.seed asked.options)
        (end_of result) out.old out.new }
{
    let plan = Plan::empty(alloc);
    let file = ibx_gen::generate(alloc, asked.seed)?;
    are_bytes(&file);
    let Ok(image) = load(&file, RAM) else {
        unreachable!()
    };
    let mut soc = open_system(alloc, &image, asked.options, &plan)?;
    let total = run_total(&mut soc, asked.options.cycles);
    print_total(asked.seed, &total, soc.cycle(), out)?;
    Ok(Finish::Ran {
        halted: total.halted,
        seal: field_sum(soc.main()),
    })
}
