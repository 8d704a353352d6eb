//! What an injection prints.
ghost use Rattle.std.specs.Prelude.{◌≡◌, ◌+◌, ◌≤◌, ◌++◌, length, OnOk, OnErr};
ghost use Rattle.arrayvec.specs.ArrayString.{array_string_len};
ghost use Rattle.ibx_base.specs.Counts.{HasCause};
ghost use Rattle.ibx_base.specs.Sinks.{with_more, TookPrefix};
ghost use Rattle.ibx_top.specs.Verdicts.{kinds_text as kinds_text_lem, diff_line as diff_line_lem};
ghost use Rattle.ibx_top.specs.Verdicts.{alert_line as alert_line_lem, verdict_text};

use arrayvec::ArrayString;
use bitflags::Flags;
use ibx_base::{Failed, Sink, write_all};
use ibx_compare::Verdict;
use ibx_isa::Alerts;
use ibx_text::Digits;

// A line, which has at most 46 bytes.
type Line = ArrayString<48>;

// The names of the alerts of a set.
#[tactic(auto, unfolding(crate::specs::Verdicts::kinds_text))]
fn kinds_text(alerts: Alerts) -> &'static str
    ensures text { result.now ≡ kinds_text_lem alerts }
    ensures len { length result.now ≤ 18 }
{
    let minor = alerts.contains(Alerts::MINOR);
    let internal = alerts.contains(Alerts::INTERNAL);
    let bus = alerts.contains(Alerts::BUS);
    match (minor, internal, bus) {
        (false, false, false) => "",
        (true, false, false) => "minor",
        (false, true, false) => "internal",
        (true, true, false) => "minor+internal",
        (false, false, true) => "bus",
        (true, false, true) => "minor+bus",
        (false, true, true) => "internal+bus",
        (true, true, true) => "minor+internal+bus",
    }
}

// The line of the first cycle in which the bus differs.
#[tactic(auto, unfolding(crate::specs::Verdicts::diff_line))]
fn diff_line(first: Option<u64>) -> Line
    ensures { result.bytes ≡ diff_line_lem first }
{
    let mut text = Line::new();
    match first {
        None => text.push_str("diff none\n"),
        Some(cycle) => {
            text.push_str("diff ");
            text.push_str(Digits::decimal(cycle).as_str());
            text.push_str("\n");
        }
    }
    text
}

// The line of the first cycle with an alert.
#[tactic(auto, unfolding(crate::specs::Verdicts::alert_line))]
fn alert_line(first: Option<(u64, Alerts)>) -> Line
    ensures { result.bytes ≡ alert_line_lem first }
{
    let mut text = Line::new();
    match first {
        None => text.push_str("alert none\n"),
        Some((cycle, alerts)) => {
            text.push_str("alert ");
            text.push_str(Digits::decimal(cycle).as_str());
            text.push_str(" ");
            text.push_str(kinds_text(alerts));
            text.push_str("\n");
        }
    }
    text
}

// Writes the line of the first difference.
fn print_diff<K: Sink>(verdict: &Verdict, out: &mut K) -> Result<(), Failed>
    ensures whole { OnOk result
        (K.taken out.new ≡ with_more (K.taken out.old) (diff_line_lem verdict.now.first_diff)) }
    ensures prefix { OnErr result
        (TookPrefix (K.taken out.old) (diff_line_lem verdict.now.first_diff) (K.taken out.new)) }
    ensures cause { HasCause (K.faults out.old) (K.faults out.new) result }
{
    let text = diff_line(verdict.first_diff);
    write_all(out, text.as_str().as_bytes())
}

// Writes the line of the first alert.
fn print_alert<K: Sink>(verdict: &Verdict, out: &mut K) -> Result<(), Failed>
    ensures whole { OnOk result
        (K.taken out.new ≡ with_more (K.taken out.old) (alert_line_lem verdict.now.first_alert)) }
    ensures prefix { OnErr result
        (TookPrefix (K.taken out.old) (alert_line_lem verdict.now.first_alert) (K.taken out.new)) }
    ensures cause { HasCause (K.faults out.old) (K.faults out.new) result }
{
    let text = alert_line(verdict.first_alert);
    write_all(out, text.as_str().as_bytes())
}

/// Writes both lines of a verdict. `Failed` comes only where the sink counted a fault, and then a prefix of them was
/// taken.
#[tactic(auto, using(crate::proofs::Gains::cut_back))]
pub(crate) fn print_verdict<K: Sink>(verdict: &Verdict, out: &mut K) -> Result<(), Failed>
    ensures whole { OnOk result
        (K.taken out.new ≡ with_more (K.taken out.old) (verdict_text verdict.now)) }
    ensures prefix { OnErr result
        (TookPrefix (K.taken out.old) (verdict_text verdict.now) (K.taken out.new)) }
    ensures cause { HasCause (K.faults out.old) (K.faults out.new) result }
{
    print_diff(verdict, out)?;
    print_alert(verdict, out)
}
