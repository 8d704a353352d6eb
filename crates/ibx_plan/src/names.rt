ghost use Rattle.std.specs.Prelude.{◌≡◌, ◌<◌, ◌≤◌, IfSome, length, map, slice_index};
ghost use Rattle.std.specs.List.{position};
ghost use Rattle.std.specs.Str.{bytes_eq};
ghost use Rattle.ibx_plan.specs.Names.{fields, wires, outputs, number_named, width_in};

/// How many fields the core has.
pub const FIELDS: u8 = 89;

// The name of a part of the machine, and its width in bits.
type Part = (&'static str, u8);

// The fields of the core, by number.
static FIELD_TABLE: [Part; 89] = [
    ("f_busy", 1),
    ("f_fresh", 1),
    ("f_drop", 1),
    ("f_addr", 32),
    ("buf0", 33),
    ("buf1", 33),
    ("buf2", 33),
    ("buf_count", 2),
    ("head_pc", 32),
    ("c_state", 4),
    ("c_addr", 32),
    ("c_word0", 33),
    ("c_word1", 33),
    ("c_way", 1),
    ("c_alt", 1),
    ("c_walk", 9),
    ("c_nostore", 1),
    ("id_valid", 1),
    ("id_kind", 2),
    ("id_pc", 32),
    ("id_word", 32),
    ("id_fault", 2),
    ("id_phase", 3),
    ("id_count", 6),
    ("md_a", 64),
    ("md_b", 64),
    ("md_acc", 64),
    ("ls_state", 3),
    ("ls_first", 32),
    ("lfsr", 32),
    ("dcount", 5),
    ("next_pc", 32),
    ("priv", 1),
    ("mstatus", 32),
    ("mie", 32),
    ("mtvec", 32),
    ("mscratch", 32),
    ("mepc", 32),
    ("mcause", 32),
    ("mtval", 32),
    ("cpuctrl", 32),
    ("mcountinhibit", 32),
    ("mcycle", 64),
    ("minstret", 64),
    ("pmpcfg0", 32),
    ("pmpcfg1", 32),
    ("pmpcfg2", 32),
    ("pmpcfg3", 32),
    ("pmpaddr0", 32),
    ("pmpaddr1", 32),
    ("pmpaddr2", 32),
    ("pmpaddr3", 32),
    ("pmpaddr4", 32),
    ("pmpaddr5", 32),
    ("pmpaddr6", 32),
    ("pmpaddr7", 32),
    ("pmpaddr8", 32),
    ("pmpaddr9", 32),
    ("pmpaddr10", 32),
    ("pmpaddr11", 32),
    ("pmpaddr12", 32),
    ("pmpaddr13", 32),
    ("pmpaddr14", 32),
    ("pmpaddr15", 32),
    ("mstatus_n", 32),
    ("mtvec_n", 32),
    ("cpuctrl_n", 32),
    ("pmpcfg0_n", 32),
    ("pmpcfg1_n", 32),
    ("pmpcfg2_n", 32),
    ("pmpcfg3_n", 32),
    ("pmpaddr0_n", 32),
    ("pmpaddr1_n", 32),
    ("pmpaddr2_n", 32),
    ("pmpaddr3_n", 32),
    ("pmpaddr4_n", 32),
    ("pmpaddr5_n", 32),
    ("pmpaddr6_n", 32),
    ("pmpaddr7_n", 32),
    ("pmpaddr8_n", 32),
    ("pmpaddr9_n", 32),
    ("pmpaddr10_n", 32),
    ("pmpaddr11_n", 32),
    ("pmpaddr12_n", 32),
    ("pmpaddr13_n", 32),
    ("pmpaddr14_n", 32),
    ("pmpaddr15_n", 32),
    ("mseccfg", 32),
    ("mseccfg_n", 32),
];

// The core's inputs, its outputs, the age of the delayed pairs, and whether the cycle before found a difference, by
// number.
static WIRE_TABLE: [Part; 38] = [
    ("irsp_valid", 1),
    ("irsp_err", 1),
    ("irsp_word", 39),
    ("drsp_valid", 1),
    ("drsp_err", 1),
    ("drsp_word", 39),
    ("igrant", 1),
    ("dgrant", 1),
    ("rega", 39),
    ("regb", 39),
    ("tag0", 28),
    ("tag1", 28),
    ("data0", 39),
    ("data1", 39),
    ("lines", 32),
    ("mul", 2),
    ("ireq", 1),
    ("iaddr", 32),
    ("dreq", 1),
    ("dwe", 1),
    ("dbe", 4),
    ("daddr", 32),
    ("dword", 39),
    ("ra", 5),
    ("rb", 5),
    ("rw", 1),
    ("rwn", 5),
    ("rwword", 39),
    ("line", 32),
    ("tways", 2),
    ("tset", 8),
    ("tword", 28),
    ("dways", 2),
    ("dw0", 39),
    ("dw1", 39),
    ("alerts", 3),
    ("age", 3),
    ("told", 1),
];

// The words that the memories hand to the core, by number.
static OUTPUT_TABLE: [Part; 6] = [
    ("rega", 39),
    ("regb", 39),
    ("tag0", 28),
    ("tag1", 28),
    ("data0", 39),
    ("data1", 39),
];

fn index_of(table: &[Part], name: &[u8]) -> Option<usize>
    ensures { result ≡ position (λ part. bytes_eq part.0.now name.now) table.now }
{
    table.iter().position(|part| part.0.as_bytes() == name)
}

fn place(table: &[Part], name: &[u8]) -> Option<u8>
    requires { length table.now ≤ 256 }
    ensures value { result ≡ position (λ part. bytes_eq part.0.now name.now) table.now }
    ensures below { IfSome result (λ number. number < length table.now) }
{
    match index_of(table, name) {
        Some(index) => Some(index as u8),
        None => None,
    }
}

// The width of a part in bits, 0 past the table.
fn width_at(table: &[Part], number: u8) -> u8
    ensures { result ≡ slice_index (map (λ part. part.1) table.now) number }
{
    match table.get(number as usize) {
        Some(part) => part.1,
        None => 0,
    }
}

pub(crate) fn field_number(name: &[u8]) -> Option<u8>
    ensures value { result ≡ number_named fields name.now }
    ensures below { IfSome result (λ field. field < FIELDS) }
{
    place(&FIELD_TABLE, name)
}

/// The number of the core's field of this name.
pub fn field_named(name: &str) -> Option<u8>
    ensures value { result ≡ number_named fields name.now }
    ensures below { IfSome result (λ field. field < FIELDS) }
{
    field_number(name.as_bytes())
}

/// The width of a field in bits, 0 where there is no such field.
#[tactic(auto, unfolding(crate::specs::Names::fields))]
pub(crate) fn field_width(field: u8) -> u8
    ensures { result ≡ width_in fields field }
{
    width_at(&FIELD_TABLE, field)
}

/// The width of a field in bits.
pub fn width(field: u8) -> u8
    requires { field < FIELDS }
    ensures { result ≡ width_in fields field }
{
    field_width(field)
}

pub(crate) fn wire_number(name: &[u8]) -> Option<u8>
    ensures { result ≡ number_named wires name.now }
{
    place(&WIRE_TABLE, name)
}

/// The width of a delayed wire in bits, 0 where there is no such wire.
#[tactic(auto, unfolding(crate::specs::Names::wires))]
pub(crate) fn wire_width(wire: u8) -> u8
    ensures { result ≡ width_in wires wire }
{
    width_at(&WIRE_TABLE, wire)
}

pub(crate) fn output_number(name: &[u8]) -> Option<u8>
    ensures { result ≡ number_named outputs name.now }
{
    place(&OUTPUT_TABLE, name)
}

/// The width of a word that the memories hand to the core, 0 where there is no such word.
#[tactic(auto, unfolding(crate::specs::Names::outputs))]
pub(crate) fn output_width(wire: u8) -> u8
    ensures { result ≡ width_in outputs wire }
{
    width_at(&OUTPUT_TABLE, wire)
}
