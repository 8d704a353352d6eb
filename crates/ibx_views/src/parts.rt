ghost use Rattle.std.specs.Prelude.{◌≡◌, ◌==◌};
ghost use Rattle.ibx_views.specs.Parts.{part_of as part_between, portions_number, same_change, same_cost, same_path};
ghost use Rattle.ibx_views.specs.Parts.{way_number, way_of};

use crate::time_view::{Change, Part, Portions, TimeView};

/// The first part that differs in two time views, or None where they are the same.
#[tactic(auto, unfolding(crate::specs::Parts::part_of))]
pub fn part_of(a: &TimeView, b: &TimeView) -> Option<Part>
    ensures { result ≡ part_between a.now b.now }
{
    if !same_path(a, b) {
        Some(Part::Path)
    } else if a.item.parcels != b.item.parcels {
        Some(Part::Length)
    } else if !same_cost(a, b) {
        Some(Part::Cost)
    } else if !same_portions(a.item.portions, b.item.portions) {
        Some(Part::Access)
    } else if !same_change(a.change, b.change) {
        Some(Part::Control)
    } else {
        None
    }
}

// The program counter, and whether an instruction retired or trapped or an interrupt was taken.
fn same_path(a: &TimeView, b: &TimeView) -> bool
    ensures { result ≡ same_path a.now b.now }
{
    a.pc == b.pc && same_way(a.change, b.change)
}

// Both retired, both trapped or both were interrupts.
fn same_way(a: Change, b: Change) -> bool
    ensures { result ≡ (way_number (way_of a) == way_number (way_of b)) }
{
    match (a, b) {
        (Change::Trapped, Change::Trapped) | (Change::Interrupted, Change::Interrupted) => true,
        (Change::Trapped | Change::Interrupted, _) | (_, Change::Trapped | Change::Interrupted) =>
            false,
        _ => true,
    }
}

fn same_cost(a: &TimeView, b: &TimeView) -> bool
    ensures { result ≡ same_cost a.now b.now }
{
    a.item.cost == b.item.cost
        && a.item.sleeps == b.item.sleeps
        && a.item.redirects == b.item.redirects
        && a.item.fences == b.item.fences
}

fn same_portions(a: Portions, b: Portions) -> bool
    ensures { result ≡ (portions_number a == portions_number b) }
{
    match (a, b) {
        (Portions::Nothing, Portions::Nothing)
        | (Portions::Single, Portions::Single)
        | (Portions::SingleError, Portions::SingleError)
        | (Portions::Double, Portions::Double)
        | (Portions::DoubleError, Portions::DoubleError) => true,
        _ => false,
    }
}

fn same_change(a: Change, b: Change) -> bool
    ensures { result ≡ same_change a b }
{
    match (a, b) {
        (Change::Unchanged, Change::Unchanged)
        | (Change::Trapped, Change::Trapped)
        | (Change::Interrupted, Change::Interrupted)
        | (Change::Returned, Change::Returned) => true,
        (
            Change::Wrote { addr, value },
            Change::Wrote {
                addr: other,
                value: second,
            },
        ) => addr == other && value == second,
        _ => false,
    }
}
