ghost use Rattle.std.specs.Prelude.{◌≡◌, ◌<◌, ◌^◌, ◌+◌, ℕ, bit_xor, slice_index, slice_set};
ghost use Rattle.ibx_plan.specs.Names.{fields as field_table, width_in, wires};
ghost use Rattle.ibx_core.specs.Flipped.{field_flip, in_numbers, out_numbers, wire_flip};
ghost use Rattle.ibx_soc.specs.Widths.{wire_width};

use ibx_core::{Core, In, Out};

// How many wires the input of a delayed pair has; those of its output come after them.
const INPUTS: u8 = 16;

// A number by value, whose range is known.
fn whole(value: u64) -> u64
    ensures value { result ≡ value }
    ensures fits { result < 2 ^ 64 }
{
    value
}

// A number with one bit changed.
#[tactic(auto, using(crate::proofs::Bits::changed_bit, crate::proofs::Bits::changed_fits))]
fn flipped(value: u64, bit: u8) -> u64
    requires { bit < 64 }
    ensures value { result ≡ bit_xor value (2 ^ bit) }
    ensures fits { (width : ℕ) → bit < width → value < 2 ^ width → result < 2 ^ width }
{
    value ^ (1 << bit)
}

// The wire of the input of this number.
#[tactic(auto, unfolding(ibx_core::specs::Flipped::in_numbers))]
fn input(i: &In, wire: u8) -> u64
    requires { wire < 16 }
    ensures value { result ≡ slice_index (in_numbers i.now) wire }
    ensures fits { result < 2 ^ wire_width wire }
{
    match wire {
        0 => u64::from(i.irsp_valid),
        1 => u64::from(i.irsp_err),
        2 => whole(i.irsp_word),
        3 => u64::from(i.drsp_valid),
        4 => u64::from(i.drsp_err),
        5 => whole(i.drsp_word),
        6 => u64::from(i.igrant),
        7 => u64::from(i.dgrant),
        8 => whole(i.rega),
        9 => whole(i.regb),
        10 => u64::from(i.tag0),
        11 => u64::from(i.tag1),
        12 => whole(i.data0),
        13 => whole(i.data1),
        14 => u64::from(i.lines),
        15 => u64::from(i.mul),
        _ => 0,
    }
}

// The input with another value of the wire of this number.
#[tactic(auto, unfolding(ibx_core::specs::Flipped::in_numbers), using(ibx_core::proofs::Bits::bit_of_test))]
fn with_input(i: &In, wire: u8, value: u64) -> In
    requires inside { wire < 16 }
    requires fits { value < 2 ^ wire_width wire }
    ensures { in_numbers result ≡ slice_set (in_numbers i.now) wire value }
{
    match wire {
        0 => In {
            irsp_valid: value != 0,
            ..*i
        },
        1 => In {
            irsp_err: value != 0,
            ..*i
        },
        2 => In {
            irsp_word: value,
            ..*i
        },
        3 => In {
            drsp_valid: value != 0,
            ..*i
        },
        4 => In {
            drsp_err: value != 0,
            ..*i
        },
        5 => In {
            drsp_word: value,
            ..*i
        },
        6 => In {
            igrant: value != 0,
            ..*i
        },
        7 => In {
            dgrant: value != 0,
            ..*i
        },
        8 => In { rega: value, ..*i },
        9 => In { regb: value, ..*i },
        10 => In {
            tag0: value as u32,
            ..*i
        },
        11 => In {
            tag1: value as u32,
            ..*i
        },
        12 => In { data0: value, ..*i },
        13 => In { data1: value, ..*i },
        14 => In {
            lines: value as u32,
            ..*i
        },
        15 => In {
            mul: value as u8,
            ..*i
        },
        _ => *i,
    }
}

// The wire of the output of this number, counted from the first of the output.
#[tactic(auto, unfolding(ibx_core::specs::Flipped::out_numbers))]
fn output(o: &Out, wire: u8) -> u64
    requires { wire < 20 }
    ensures value { result ≡ slice_index (out_numbers o.now) wire }
    ensures fits { result < 2 ^ wire_width (16 + wire) }
{
    match wire {
        0 => u64::from(o.ireq),
        1 => u64::from(o.iaddr),
        2 => u64::from(o.dreq),
        3 => u64::from(o.dwe),
        4 => u64::from(o.dbe),
        5 => u64::from(o.daddr),
        6 => whole(o.dword),
        7 => u64::from(o.ra),
        8 => u64::from(o.rb),
        9 => u64::from(o.rw),
        10 => u64::from(o.rwn),
        11 => whole(o.rwword),
        12 => u64::from(o.line),
        13 => u64::from(o.tways),
        14 => u64::from(o.tset),
        15 => u64::from(o.tword),
        16 => u64::from(o.dways),
        17 => whole(o.dw0),
        18 => whole(o.dw1),
        19 => u64::from(o.alerts),
        _ => 0,
    }
}

// The output with another value of the wire of this number.
#[tactic(auto, unfolding(ibx_core::specs::Flipped::out_numbers), using(ibx_core::proofs::Bits::bit_of_test))]
fn with_output(o: &Out, wire: u8, value: u64) -> Out
    requires inside { wire < 20 }
    requires fits { value < 2 ^ wire_width (16 + wire) }
    ensures numbers { out_numbers result ≡ slice_set (out_numbers o.now) wire value }
    ensures event { result.event ≡ o.now.event }
{
    match wire {
        0 => Out {
            ireq: value != 0,
            ..*o
        },
        1 => Out {
            iaddr: value as u32,
            ..*o
        },
        2 => Out {
            dreq: value != 0,
            ..*o
        },
        3 => Out {
            dwe: value != 0,
            ..*o
        },
        4 => Out {
            dbe: value as u8,
            ..*o
        },
        5 => Out {
            daddr: value as u32,
            ..*o
        },
        6 => Out { dword: value, ..*o },
        7 => Out {
            ra: value as u8,
            ..*o
        },
        8 => Out {
            rb: value as u8,
            ..*o
        },
        9 => Out {
            rw: value != 0,
            ..*o
        },
        10 => Out {
            rwn: value as u8,
            ..*o
        },
        11 => Out {
            rwword: value,
            ..*o
        },
        12 => Out {
            line: value as u32,
            ..*o
        },
        13 => Out {
            tways: value as u8,
            ..*o
        },
        14 => Out {
            tset: value as u8,
            ..*o
        },
        15 => Out {
            tword: value as u32,
            ..*o
        },
        16 => Out {
            dways: value as u8,
            ..*o
        },
        17 => Out { dw0: value, ..*o },
        18 => Out { dw1: value, ..*o },
        19 => Out {
            alerts: value as u8,
            ..*o
        },
        _ => *o,
    }
}

/// A delayed pair with bit `bit` of a wire changed.
#[tactic(auto, using(crate::proofs::Bits::input_flip, crate::proofs::Bits::output_flip, crate::proofs::Bits::width_is, crate::proofs::Bits::bit_small))]
pub(crate) fn with_wire_flip(i: &In, o: &Out, wire: u8, bit: u8) -> (In, Out)
    requires wire { wire < 36 }
    requires bit { bit < width_in wires wire }
    ensures { result ≡ wire_flip wire bit (i.now, o.now) }
{
    if wire < INPUTS {
        let value = flipped(input(i, wire), bit);
        (with_input(i, wire, value), *o)
    } else {
        let value = flipped(output(o, wire - INPUTS), bit);
        (*i, with_output(o, wire - INPUTS, value))
    }
}

/// Changes bit `bit` of a field of a core.
#[tactic(auto, using(crate::proofs::Bits::field_flip_is, crate::proofs::Bits::field_small))]
pub(crate) fn flip_field(core: &mut Core, field: u8, bit: u8)
    requires field { field < 89 }
    requires bit { bit < width_in field_table field }
    ensures { core.new ≡ field_flip field bit core.old }
{
    core.set(field, flipped(core.get(field), bit));
}
