ghost use Rattle.std.specs.Prelude.{◌≡◌, ℕ, false, if◌then◌else◌};
ghost use Rattle.ibx_id.specs.declared.stage.IdState.{IdState};
ghost use Rattle.ibx_id.specs.declared.stage.Turn.TheVariants.{Hold, Retire};
ghost use Rattle.ibx_id.specs.Stays.{IsEntering, KeepsCosts, Wires};
ghost use Rattle.ibx_id.specs.Turns.{IsWithinWidths, ends_at, held, real_turn, turn_of, worked};

use crate::stage::{IdIn, IdState, Turn};
use ibx_isa::{Insn, branch};

/// What the stage does in this cycle (our own rule). An item is done as many cycles after the one in which it entered
/// as the table of costs gives: a load or store at the answer of its last part, a WFI in the first cycle in which it
/// is woken, and a trap one cycle after it was found. Where `st` is an item that enters, `stay` says this of all its
/// cycles, whatever `wake`, `ls_done` and `ls_fault` are in each.
#[tactic(auto, using(crate::proofs::Held::held_fits, crate::proofs::Stays::keeps_costs), unfolding(crate::specs::Turns::turn_of))]
pub fn turn(st: &IdState, i: &IdIn) -> Turn
    ensures turn { result ≡ turn_of st.now i.now }
    ensures widths { (next : IdState) → result ≡ Hold next → IsWithinWidths st.now → IsWithinWidths next }
    ensures stay { (wires : Wires) → IsEntering st.now → KeepsCosts st.now i.now wires }
{
    if !st.valid {
        return Turn::Idle;
    }
    match st.kind {
        0 => real(st, i),
        1 if i.cost <= st.count || st.phase >= 2 => Turn::Dummy,
        1 => Turn::Hold(hold(st, 1)),
        _ => Turn::Irq,
    }
}

// A real item: what failed in the cycle before, then what fails in this one, then its row.
#[tactic(auto, unfolding(crate::specs::Turns::real_turn))]
fn real(st: &IdState, i: &IdIn) -> Turn
    ensures { result ≡ real_turn st.now i.now }
{
    match (st.phase, i.ls_fault) {
        (2, _) => Turn::Trap { portion: 1 },
        (3, _) => Turn::Trap { portion: 2 },
        (4.., _) => Turn::Trap { portion: 0 },
        (_, 1) => Turn::Hold(hold(st, 2)),
        (_, 2) => Turn::Hold(hold(st, 3)),
        _ if i.trap.is_some() => Turn::Hold(hold(st, 4)),
        _ => work(st, i),
    }
}

#[tactic(auto, unfolding(crate::specs::Turns::worked))]
fn work(st: &IdState, i: &IdIn) -> Turn
    ensures { result ≡ worked i.now.insn st.now i.now }
{
    match i.insn {
        Some(Insn::Load { .. } | Insn::Store { .. }) => wait(st, i.ls_done),
        Some(Insn::Wfi) => wait(st, i.wake),
        Some(Insn::Branch { op, .. }) if i.fixed || branch(op, i.a, i.b) => end(st, 1, true),
        Some(Insn::Branch { .. }) => end(st, 0, false),
        Some(Insn::Mret) => end(st, 1, true),
        Some(Insn::Jal { .. } | Insn::Jalr { .. } | Insn::FenceI) => Turn::Retire {
            redirect: true,
        },
        _ => end(st, i.cost, false),
    }
}

// Done in this cycle or held.
fn wait(st: &IdState, done: bool) -> Turn
    ensures { result ≡ (if done then Retire false else Hold (held 1 st.now)) }
{
    if done {
        Turn::Retire { redirect: false }
    } else {
        Turn::Hold(hold(st, 1))
    }
}

// Done `cost` cycles after the item entered.
fn end(st: &IdState, cost: u8, redirect: bool) -> Turn
    ensures { result ≡ ends_at cost redirect st.now }
{
    if cost <= st.count {
        Turn::Retire { redirect }
    } else {
        Turn::Hold(hold(st, 1))
    }
}

// One cycle more in the stage, in this phase.
fn hold(st: &IdState, phase: u8) -> IdState
    ensures { result ≡ held phase st.now }
{
    IdState {
        phase,
        count: if st.count < 63 { st.count + 1 } else { 63 },
        ..*st
    }
}
