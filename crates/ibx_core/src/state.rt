ghost use Rattle.std.specs.Prelude.{◌≡◌};
ghost use Rattle.ibx_core.specs.Fields.{Fits, reset_of};

use ibx_csr::Csrs;
use ibx_dummy::Dummy;
use ibx_icache::WordPort;
use ibx_id::IdState;
use ibx_lsu::Lsu;
use ibx_muldiv::MulDiv;
use ibx_prefetch::Prefetch;

/// The fields of the core by unit.
#[derive(Clone, Copy, Debug, PartialEq, Eq)]
pub struct State {
    pub fetch: Prefetch,
    pub words: WordPort,
    pub id: IdState,
    pub md: MulDiv,
    pub ls: Lsu,
    pub dummies: Dummy,
    /// The address of the next real instruction, as the last event left it.
    pub next_pc: u32,
    pub csrs: Csrs,
}

/// The stage without an item.
pub const EMPTY_STAGE: IdState = IdState {
    valid: false,
    kind: 0,
    pc: 0,
    word: 0,
    fault: 0,
    phase: 0,
    count: 0,
};

impl State {
    /// The fields at reset, which is a redirect to the byte address `entry`.
    #[tactic(auto, unfolding(crate::specs::Fields::reset_of))]
    pub fn reset(entry: u32) -> State
        ensures fields { result ≡ reset_of entry }
        ensures fits { Fits result }
    {
        State {
            fetch: Prefetch::reset(entry),
            words: WordPort::reset(),
            id: EMPTY_STAGE,
            md: MulDiv::idle(),
            ls: Lsu::idle(),
            dummies: Dummy::reset(),
            next_pc: entry,
            csrs: Csrs::reset(entry),
        }
    }
}
