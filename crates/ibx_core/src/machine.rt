ghost use Rattle.std.specs.Prelude.{◌≡◌, ◌^◌, ◌<◌, ◌%◌, ◌/◌, ◌==◌, ◌&&◌, Bool, IfSome, slice_index, slice_set};
ghost use Rattle.ibx_isa.specs.Events.{IsPrintable};
ghost use Rattle.ibx_core.specs.Core.{IsBegun, IsSameUsed, core_next, core_out, granted, is_bus, is_internal};
ghost use Rattle.ibx_core.specs.Core.{is_minor, reads_in, reads_of};
ghost use Rattle.ibx_core.specs.Fields.{fields, reset_of};
ghost use Rattle.ibx_core.specs.Wires.{InWires};
ghost use Rattle.ibx_plan.specs.Names.{fields as field_table, width_in};
ghost use Rattle.ibx_core.specs.declared.state.State.{State};

use crate::reads::Reads;
use crate::state::State;
use crate::wires::{In, Out};
use std::marker::Model;

/// The core. Its 89 fields are within their widths, and it has no other state.
#[derive(Clone, Copy, Debug, PartialEq, Eq)]
pub struct Core {
    state: State,
}

impl Model for Core {
    ghost use Rattle.ibx_core.specs.declared.state.State.{State};

    ghost Value = { State };

    ghost use Rattle.ibx_core.specs.Fields.{Fits};

    ghost view = { λ c. c.state };

    ghost invariant = { λ c. Fits c.state };

    ghost inverse = { λ s. record { state = s } };
}

impl Core {
    /// The core at reset, which is a redirect to the byte address `entry`.
    pub fn reset(entry: u32) -> Core
        ensures { result ≡ reset_of entry }
    {
        Core {
            state: State::reset(entry),
        }
    }

    /// The field of a number, below 89.
    #[tactic(auto, using(crate::proofs::EqualFields::fields_injective, crate::proofs::Widths::width_is))]
    pub fn get(&self, field: u8) -> u64
        requires { field < 89 }
        ensures value { result ≡ slice_index (fields self.now) field }
        ensures fits { result < 2 ^ width_in field_table field }
        // The fields are all that there is.
        ensures whole { (other : State) → fields other ≡ fields self.now → other ≡ self.now }
    {
        self.state.get(field)
    }

    /// Sets the field of a number, below 89. The others stay.
    #[tactic(auto, using(crate::proofs::Widths::width_is))]
    pub fn set(&mut self, field: u8, value: u64)
        requires inside { field < 89 }
        requires fits { value < 2 ^ width_in field_table field }
        ensures { fields self.new ≡ slice_set (fields self.old) field value }
    {
        self.state.set(field, value);
    }

    /// What is read in a cycle. It depends on the fields alone.
    pub fn reads(&self) -> Reads
        ensures value { result ≡ reads_of self.now }
        ensures first { result.ra < 32 }
        ensures second { result.rb < 32 }
    {
        self.state.reads()
    }

    /// What the core puts out in a cycle with the wires `i`.
    #[tactic(auto, using(crate::proofs::Laws::ungranted, crate::proofs::Laws::unused_out, crate::proofs::Laws::reading, crate::proofs::Laws::minor_alert, crate::proofs::Laws::internal_alert, crate::proofs::Laws::bus_alert))]
    pub fn out(&self, i: &In) -> Out
        ensures value { result ≡ core_out self.now i.now }
        // It doesn't depend on the grants and on unused words, and what is read is put out.
        ensures grants { (igrant dgrant : Bool)
            → core_out self.now (record i.now { igrant = igrant; dgrant = dgrant }) ≡ result }
        ensures unused { (other : InWires) → IsSameUsed self.now other i.now → core_out self.now other ≡ result }
        ensures reads { reads_in result ≡ reads_of self.now }

        // Both addresses on the bus are those of words.
        ensures fetched { result.iaddr % 4 ≡ 0 }
        ensures accessed { result.daddr % 4 ≡ 0 }

        // What is done has a printed line.
        ensures printable { IfSome result.event IsPrintable }

        // Each alert exactly where it has its cause.
        ensures minor { (result.alerts % 2 == 1) ≡ is_minor self.now i.now }
        ensures internal { (result.alerts / 2 % 2 == 1) ≡ is_internal self.now i.now }
        ensures bus { (result.alerts / 4 == 1) ≡ is_bus i.now }
    {
        self.state.out(i)
    }

    /// Ends a cycle with the wires `i`.
    #[tactic(auto, using(crate::proofs::Laws::unused_next))]
    pub fn advance(&mut self, i: &In)
        ensures value { self.new ≡ core_next self.old i.now }
        // It doesn't depend on unused words.
        ensures unused { (other : InWires) → IsSameUsed self.old other i.now → core_next self.old other ≡ self.new }
    {
        self.state.advance(i);
    }

    /// Begins a cycle with the wires `i`: puts the output, as `out` gives it, into `o`, and moves the fields as if
    /// nothing were granted.
    #[tactic(auto, using(crate::proofs::Laws::ungranted))]
    pub fn begin(&mut self, i: &In, o: &mut Out)
        ensures value { o.new ≡ core_out self.old i.now }
        ensures begun { IsBegun self.old i.now self.new }
        // The output doesn't depend on the grants.
        ensures grants { (igrant dgrant : Bool)
            → core_out self.old (record i.now { igrant = igrant; dgrant = dgrant }) ≡ o.new }

        // Both addresses on the bus are those of words, and what is done has a printed line.
        ensures fetched { o.new.iaddr % 4 ≡ 0 }
        ensures accessed { o.new.daddr % 4 ≡ 0 }
        ensures printable { IfSome o.new.event IsPrintable }
    {
        self.state.begin(i, o);
    }

    /// Ends a cycle that has begun with the wires `i` but for the grants, and that put `o` out, as `advance` does.
    #[inline(always)]
    #[tactic(auto, using(crate::proofs::Laws::grants_last))]
    pub fn finish(&mut self, i: &In, o: &Out)
        ensures value { self.new ≡ granted i.now.igrant (i.now.dgrant && o.now.dreq) self.old }
        ensures ended { (x : State) → IsBegun x i.now self.old → o.now ≡ core_out x i.now
            → self.new ≡ core_next x i.now }
    {
        self.state.finish(i, o);
    }
}
