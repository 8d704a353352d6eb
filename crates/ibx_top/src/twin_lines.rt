//! What a comparison prints.
ghost use Rattle.std.specs.Prelude.{◌≡◌, ◌≤◌, length, IfSome, OnOk, OnErr};
ghost use Rattle.ibx_base.specs.Counts.{HasCause};
ghost use Rattle.ibx_base.specs.Sinks.{with_more, TookPrefix};
ghost use Rattle.ibx_compare.specs.Twins.{HasLine, HaveLines};
ghost use Rattle.ibx_top.specs.Twins.{difference_text, differ_line as differ_line_lem, same_line as same_line_lem};
ghost use Rattle.ibx_top.specs.Twins.{side_line as side_line_lem, twin_text};

use arrayvec::ArrayString;
use ibx_base::{Failed, Sink, write_all};
use ibx_compare::Twin;
use ibx_isa::View;
use ibx_text::Digits;
use ibx_trace::view_line;

// The line of a count or an index, which has at most 28 bytes.
type CountLine = ArrayString<28>;

// The line of a side, whose view has at most 96 bytes.
type SideLine = ArrayString<98>;

// The line of a number of events.
#[tactic(auto, unfolding(crate::specs::Twins::same_line))]
fn same_line(events: u64) -> CountLine
    ensures { result.bytes ≡ same_line_lem events }
{
    let mut text = CountLine::new();
    text.push_str("same ");
    text.push_str(Digits::decimal(events).as_str());
    text.push_str("\n");
    text
}

// The line of an index.
#[tactic(auto, unfolding(crate::specs::Twins::differ_line))]
fn differ_line(index: u64) -> CountLine
    ensures { result.bytes ≡ differ_line_lem index }
{
    let mut text = CountLine::new();
    text.push_str("differ ");
    text.push_str(Digits::decimal(index).as_str());
    text.push_str("\n");
    text
}

// The line of a side: its view, or that its story has ended.
#[tactic(auto, unfolding(crate::specs::Twins::side_line))]
fn side_line(name: &str, view: Option<View>) -> SideLine
    requires name { length name.now ≤ 2 }
    requires line { IfSome view HasLine }
    ensures { result.bytes ≡ side_line_lem name.now view }
{
    let mut text = SideLine::new();
    text.push_str(name);
    match view {
        None => text.push_str("end\n"),
        Some(view) => text.push_str(view_line(&view).as_str()),
    }
    text
}

// Writes the line of a number of events.
fn print_same<K: Sink>(events: u64, out: &mut K) -> Result<(), Failed>
    ensures whole { OnOk result (K.taken out.new ≡ with_more (K.taken out.old) (same_line_lem events)) }
    ensures prefix { OnErr result (TookPrefix (K.taken out.old) (same_line_lem events) (K.taken out.new)) }
    ensures cause { HasCause (K.faults out.old) (K.faults out.new) result }
{
    let text = same_line(events);
    write_all(out, text.as_str().as_bytes())
}

// Writes the line of an index.
fn print_index<K: Sink>(index: u64, out: &mut K) -> Result<(), Failed>
    ensures whole { OnOk result (K.taken out.new ≡ with_more (K.taken out.old) (differ_line_lem index)) }
    ensures prefix { OnErr result (TookPrefix (K.taken out.old) (differ_line_lem index) (K.taken out.new)) }
    ensures cause { HasCause (K.faults out.old) (K.faults out.new) result }
{
    let text = differ_line(index);
    write_all(out, text.as_str().as_bytes())
}

// Writes the line of a side.
fn print_side<K: Sink>(name: &str, view: Option<View>, out: &mut K) -> Result<(), Failed>
    requires name { length name.now ≤ 2 }
    requires line { IfSome view HasLine }
    ensures whole { OnOk result (K.taken out.new ≡ with_more (K.taken out.old) (side_line_lem name.now view)) }
    ensures prefix { OnErr result (TookPrefix (K.taken out.old) (side_line_lem name.now view) (K.taken out.new)) }
    ensures cause { HasCause (K.faults out.old) (K.faults out.new) result }
{
    let text = side_line(name, view);
    write_all(out, text.as_str().as_bytes())
}

// Writes the three lines of a difference.
fn print_difference<K: Sink>(
    at: u64,
    a: Option<View>,
    b: Option<View>,
    out: &mut K,
) -> Result<(), Failed>
    requires a_line { IfSome a HasLine }
    requires b_line { IfSome b HasLine }
    ensures whole { OnOk result (K.taken out.new ≡ with_more (K.taken out.old) (difference_text at a b)) }
    ensures prefix { OnErr result (TookPrefix (K.taken out.old) (difference_text at a b) (K.taken out.new)) }
    ensures cause { HasCause (K.faults out.old) (K.faults out.new) result }
{
    print_index(at, out)?;
    print_side("a ", a, out)?;
    print_side("b ", b, out)
}

/// Writes the text of a comparison, whose views have lines, line by line. `Failed` comes only where the sink counted a
/// fault, and then a prefix of the text was taken.
#[tactic(auto, unfolding(crate::specs::Twins::twin_text))]
pub(crate) fn print_twin<K: Sink>(twin: &Twin, out: &mut K) -> Result<(), Failed>
    requires { HaveLines twin.now }
    ensures whole { OnOk result (K.taken out.new ≡ with_more (K.taken out.old) (twin_text twin.now)) }
    ensures prefix { OnErr result (TookPrefix (K.taken out.old) (twin_text twin.now) (K.taken out.new)) }
    ensures cause { HasCause (K.faults out.old) (K.faults out.new) result }
{
    match *twin {
        Twin::Same(events) => print_same(events, out),
        Twin::Differ { at, a, b } => print_difference(at, a, b, out),
    }
}
