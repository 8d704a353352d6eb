ghost use Rattle.std.specs.Prelude.{◌≡◌};
ghost use Rattle.ibx_core.specs.Wires.{agree, agree_bus, agree_cache, agree_registers, quiet_in, quiet_out};

use ibx_isa::Event;
use std::marker::Model;

/// The wires into the core in a cycle. Those of an answer that isn't valid are 0.
#[derive(Clone, Copy, Debug)]
pub struct In {
    /// The instruction port answers in this cycle.
    pub irsp_valid: bool,
    pub irsp_err: bool,
    /// Its word, of 39 bits.
    pub irsp_word: u64,
    /// The data port answers in this cycle.
    pub drsp_valid: bool,
    pub drsp_err: bool,
    /// Its word, of 39 bits.
    pub drsp_word: u64,
    /// The request of this cycle on the instruction port is granted.
    pub igrant: bool,
    /// The request of this cycle on the data port is granted.
    pub dgrant: bool,
    /// The register word, of 39 bits, at `ra`.
    pub rega: u64,
    /// The register word, of 39 bits, at `rb`.
    pub regb: u64,
    /// The tag words, of 28 bits, of both ways at `line`.
    pub tag0: u32,
    pub tag1: u32,
    /// The data words, of 39 bits, of both ways at `line`.
    pub data0: u64,
    pub data1: u64,
    /// The interrupt lines; bit n is interrupt n.
    pub lines: u32,
    /// The multiplier, of 2 bits: 0 single, 1 fast, 2 slow. 3 acts as 2.
    pub mul: u8,
}

impl Model for In {
    ghost use Rattle.ibx_core.specs.Wires.{InWires};

    ghost Value = { InWires };

    ghost use Rattle.ibx_core.specs.WireView.{in_wires, wires_in, InFits};

    ghost view = { in_wires };

    ghost invariant = { InFits };

    ghost inverse = { wires_in };
}

impl In {
    /// No wire is driven.
    pub fn quiet() -> In
        ensures { result ≡ quiet_in }
    {
        In {
            irsp_valid: false,
            irsp_err: false,
            irsp_word: 0,
            drsp_valid: false,
            drsp_err: false,
            drsp_word: 0,
            igrant: false,
            dgrant: false,
            rega: 0,
            regb: 0,
            tag0: 0,
            tag1: 0,
            data0: 0,
            data1: 0,
            lines: 0,
            mul: 0,
        }
    }
}

/// The wires out of the core in a cycle. With no request, no write of a register and no write of the cache its wires
/// are 0.
#[derive(Clone, Copy, Debug)]
pub struct Out {
    /// A word is fetched, at `iaddr`, which is aligned to 4.
    pub ireq: bool,
    pub iaddr: u32,
    /// A word is loaded, or stored where `dwe` is true, at `daddr`, which is aligned to 4.
    pub dreq: bool,
    pub dwe: bool,
    /// The byte enables, of 4 bits.
    pub dbe: u8,
    pub daddr: u32,
    /// The word that is stored, of 39 bits.
    pub dword: u64,
    /// The registers, below 32, that are read.
    pub ra: u8,
    pub rb: u8,
    /// Register `rwn`, below 32, is written with `rwword`, of 39 bits.
    pub rw: bool,
    pub rwn: u8,
    pub rwword: u64,
    /// The byte address that is looked up in the cache, else 0.
    pub line: u32,
    /// Bit w: the tag word of way w in the set `tset` is written with `tword`, of 28 bits.
    pub tways: u8,
    pub tset: u8,
    pub tword: u32,
    /// Bit w: the data words of way w in this set are written with `dw0` and `dw1`, of 39 bits each.
    pub dways: u8,
    pub dw0: u64,
    pub dw1: u64,
    /// The set of alerts, of 3 bits: MINOR 1, INTERNAL 2, BUS 4.
    pub alerts: u8,
    /// What is done in this cycle, with the cycle 0. It is no wire, and isn't compared.
    pub event: Option<Event>,
}

impl Model for Out {
    ghost use Rattle.ibx_core.specs.Wires.{OutWires};

    ghost Value = { OutWires };

    ghost use Rattle.ibx_core.specs.WireView.{out_wires, wires_out, OutFits};

    ghost view = { out_wires };

    ghost invariant = { OutFits };

    ghost inverse = { wires_out };
}

impl Out {
    /// No wire is driven, and there is no event.
    pub fn quiet() -> Out
        ensures { result ≡ quiet_out }
    {
        Out {
            ireq: false,
            iaddr: 0,
            dreq: false,
            dwe: false,
            dbe: 0,
            daddr: 0,
            dword: 0,
            ra: 0,
            rb: 0,
            rw: false,
            rwn: 0,
            rwword: 0,
            line: 0,
            tways: 0,
            tset: 0,
            tword: 0,
            dways: 0,
            dw0: 0,
            dw1: 0,
            alerts: 0,
            event: None,
        }
    }

    /// Whether all wires are equal; the event isn't compared.
    #[tactic(auto, unfolding(crate::specs::Wires::agree))]
    pub fn same(&self, other: &Out) -> bool
        ensures { result ≡ agree self.now other.now }
    {
        self.same_bus(other)
            && self.same_registers(other)
            && self.same_cache(other)
            && self.alerts == other.alerts
    }

    fn same_bus(&self, other: &Out) -> bool
        ensures { result ≡ agree_bus self.now other.now }
    {
        self.ireq == other.ireq
            && self.iaddr == other.iaddr
            && self.dreq == other.dreq
            && self.dwe == other.dwe
            && self.dbe == other.dbe
            && self.daddr == other.daddr
            && self.dword == other.dword
    }

    fn same_registers(&self, other: &Out) -> bool
        ensures { result ≡ agree_registers self.now other.now }
    {
        self.ra == other.ra
            && self.rb == other.rb
            && self.rw == other.rw
            && self.rwn == other.rwn
            && self.rwword == other.rwword
    }

    fn same_cache(&self, other: &Out) -> bool
        ensures { result ≡ agree_cache self.now other.now }
    {
        self.line == other.line
            && self.tways == other.tways
            && self.tset == other.tset
            && self.tword == other.tword
            && self.dways == other.dways
            && self.dw0 == other.dw0
            && self.dw1 == other.dw1
    }
}
