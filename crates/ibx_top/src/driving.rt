//! A run of the two-stage core in its system, one cycle after the other.
ghost use Rattle.std.specs.Prelude.{◌≡◌, ◌≤◌, OnOk, OnErr, IfOk, None};
ghost use Rattle.ibx_base.specs.Counts.{HasCause};
ghost use Rattle.ibx_base.specs.Sinks.{with_more, TookPrefix};
ghost use Rattle.ibx_trace.specs.Lines.{line_of, end_line_of};
ghost use Rattle.ibx_isa.specs.Events.{IsPrintable};
ghost use Rattle.ibx_system.specs.Core.{core_parts};
ghost use Rattle.ibx_system.specs.Runs.{run};
ghost use Rattle.ibx_soc.specs.First.{IsAsNew};
ghost use Rattle.ibx_compare.specs.Drives.{drive_from};
ghost use Rattle.ibx_top.specs.Drives.{drive_text};

use ibx_base::{Failed, Sink, write_all};
use ibx_isa::Event;
use ibx_soc::Soc;
use ibx_story::halts;
use ibx_trace::{end_line, line};

// Writes the line of an event.
fn print_event<K: Sink>(event: &Event, out: &mut K) -> Result<(), Failed>
    requires { IsPrintable event.now }
    ensures whole { OnOk result (K.taken out.new ≡ with_more (K.taken out.old) (line_of event.now)) }
    ensures prefix { OnErr result (TookPrefix (K.taken out.old) (line_of event.now) (K.taken out.new)) }
    ensures cause { HasCause (K.faults out.old) (K.faults out.new) result }
{
    let text = line(event);
    write_all(out, text.as_str().as_bytes())
}

/// Writes the last line: whether a halting store ended the run, and the counts of cycles and of events.
pub(crate) fn print_end<K: Sink>(
    halted: bool,
    cycles: u64,
    events: u64,
    out: &mut K,
) -> Result<(), Failed>
    ensures whole { OnOk result
        (K.taken out.new ≡ with_more (K.taken out.old) (end_line_of halted cycles events)) }
    ensures prefix { OnErr result
        (TookPrefix (K.taken out.old) (end_line_of halted cycles events) (K.taken out.new)) }
    ensures cause { HasCause (K.faults out.old) (K.faults out.new) result }
{
    let text = end_line(halted, cycles, events);
    write_all(out, text.as_str().as_bytes())
}

/// Steps a system that is as `Soc::new` left it for at most `cycles` cycles, 1 to 1,000,000,000, and writes the line of
/// each event, then the last line. True where a halting store ended the run, and false where the budget did. `Failed`
/// comes only where the sink counted a fault, and then a prefix of the text was taken. It takes no memory.
pub fn drive<K: Sink>(soc: &mut Soc<'_>, cycles: u64, out: &mut K) -> Result<bool, Failed>
    requires new { IsAsNew soc.old }
    requires least { 1 ≤ cycles }
    requires most { cycles ≤ 1000000000 }
    ensures whole { OnOk result
        (K.taken out.new ≡ with_more (K.taken out.old) (drive_text (drive_from cycles soc.old))) }
    ensures halted { IfOk result (λ halted. halted ≡ (drive_from cycles soc.old).halted) }
    ensures state { OnOk result (soc.new ≡ (drive_from cycles soc.old).left) }
    ensures prefix { OnErr result
        (TookPrefix (K.taken out.old) (drive_text (drive_from cycles soc.old)) (K.taken out.new)) }
    ensures cause { HasCause (K.faults out.old) (K.faults out.new) result }

    // However it ends, the system is left in the state after its steps without a flip.
    ensures left { soc.new ≡ run core_parts soc.old None soc.new.place.cycle }
{
    let mut events = 0;
    for made in 0..cycles {
        let cycle = soc.step();
        if let Some(event) = cycle.event {
            print_event(&event, out)?;
            events += 1;
            if halts(&event) {
                print_end(true, made + 1, events, out)?;
                return Ok(true);
            }
        }
    }
    print_end(false, cycles, events, out)?;
    Ok(false)
}
