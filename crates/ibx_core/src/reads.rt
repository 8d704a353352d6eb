ghost use Rattle.std.specs.Prelude.{◌≡◌, ◌<◌, IfSome, nat_lt};
ghost use Rattle.ibx_isa.specs.Lengths.{IsWordOrHalf};
ghost use Rattle.ibx_isa.specs.Sources.{source1, source2};
ghost use Rattle.ibx_isa.specs.WellFormed.{IsWellFormed};
ghost use Rattle.ibx_core.specs.Core.{reads_of};
ghost use Rattle.ibx_core.specs.Sights.{ra_of, rb_of, read_by, row_of, stage_word as stage_word_of};

use crate::state::State;
use ibx_decoder::instruction;
use ibx_id::IdState;
use ibx_isa::{Insn, is_long, sources};

/// What the core reads in a cycle.
#[derive(Clone, Copy, Debug, PartialEq, Eq)]
pub struct Reads {
    /// The registers, below 32, that the stage's row reads as rs1 and rs2; 0 where it reads none.
    pub ra: u8,
    pub rb: u8,
    /// The byte address that is looked up in the cache, else 0.
    pub line: u32,
}

/// The stage's word as an instruction: a halfword is the low half alone.
pub fn stage_word(st: &IdState) -> u32
    ensures value { result ≡ stage_word_of st.now }
    ensures fits { IsWordOrHalf result }
{
    if is_long(st.word) {
        st.word
    } else {
        st.word % 0x1_0000
    }
}

/// The row of a real item or a dummy that was fetched soundly.
#[tactic(auto, unfolding(crate::specs::Sights::row_of))]
pub fn row(st: &IdState) -> Option<Insn>
    ensures value { result ≡ row_of st.now }
    ensures sound { IfSome result IsWellFormed }
{
    if st.valid && st.kind < 2 && st.fault == 0 {
        instruction(stage_word(st))
    } else {
        None
    }
}

// The registers that a row reads, until a trap is found.
fn registers(row: Option<Insn>, phase: u8) -> (u8, u8)
    requires { IfSome row IsWellFormed }
    ensures first { result.0 ≡ read_by source1 (nat_lt phase 4) row }
    ensures second { result.1 ≡ read_by source2 (nat_lt phase 4) row }
    ensures first_fits { result.0 < 32 }
    ensures second_fits { result.1 < 32 }
{
    match row {
        Some(insn) if phase < 4 => sources(&insn),
        _ => (0, 0),
    }
}

impl State {
    pub fn reads(&self) -> Reads
        ensures value { result ≡ reads_of self.now }
        ensures first_fits { result.ra < 32 }
        ensures second_fits { result.rb < 32 }
    {
        self.reads_by(row(&self.id))
    }

    /// What is read, by the row of the stage's word.
    #[tactic(auto, unfolding(crate::specs::Core::reads_of, crate::specs::Sights::ra_of, crate::specs::Sights::rb_of))]
    pub fn reads_by(&self, row: Option<Insn>) -> Reads
        requires row { row ≡ row_of self.now.id }
        requires sound { IfSome row IsWellFormed }
        ensures value { result ≡ reads_of self.now }
        ensures first_fits { result.ra < 32 }
        ensures second_fits { result.rb < 32 }
    {
        let (ra, rb) = registers(row, self.id.phase);
        Reads {
            ra,
            rb,
            line: self.words.looked(),
        }
    }
}
