ghost use Rattle.std.specs.Prelude.{◌≡◌, ◌<◌, ℕ};
ghost use Rattle.ibx_core.specs.declared.state.State.{State};
ghost use Rattle.ibx_core.specs.Fields.{fields};
ghost use Rattle.ibx_core.specs.Flipped.{field_flip, number_flip, wire_flip, wire_numbers};
ghost use Rattle.ibx_core.specs.Wires.{InWires, OutWires};
ghost use Rattle.ibx_plan.specs.Names.{fields as field_table, width_in, wires as wire_table};
ghost use Rattle.ibx_system.specs.Core.{CoreLaws, core_parts};

/// What one cycle of the core keeps to, for every value of its fields and of the wires.
pub fn cycle_laws()
    ensures { CoreLaws core_parts }
{}

/// A flip changes one bit of one field, or of one of the 36 wires of a delayed pair, and leaves all other fields, all
/// other wires, and the event.
pub fn one_bit()
    ensures field { (core : State) (field bit : ℕ) → field < 89 → bit < width_in field_table field
        → fields (field_flip field bit core) ≡ number_flip field bit (fields core) }
    ensures wire { (pair : InWires × OutWires) (wire bit : ℕ) → wire < 36 → bit < width_in wire_table wire
        → wire_numbers (wire_flip wire bit pair) ≡ number_flip wire bit (wire_numbers pair) }
    ensures event { (pair : InWires × OutWires) (wire bit : ℕ) → (wire_flip wire bit pair).1.event ≡ pair.1.event }
{}
