ghost use Rattle.std.specs.Prelude.{◌≡◌, ℕ, ◌+◌, ◌^◌, ◌<◌, ◌↔◌, None, is_some, slice_index, false};
ghost use Rattle.ibx_csr.specs.Bits.{at_reset as reset_value};
ghost use Rattle.ibx_csr.specs.Kept.{is_addr_held};
ghost use Rattle.ibx_csr.specs.Values.{CsrValues, csr_reset, value_of, csr_read, csr_can_write, csr_write, OthersStay};
ghost use Rattle.ibx_csr.specs.Values.{csr_tick, counters_after, counted as count_after, cfg_bytes, trap_regs};
ghost use Rattle.ibx_csr.specs.Values.{sec_of};
ghost use Rattle.ibx_csr.specs.Values.{kept_regs, with_trap_regs};
ghost use Rattle.ibx_csr.specs.Fields.{values, Complemented, reset_of, put_of, write_of, tick_of, passed, with_regs};
ghost use Rattle.ibx_csr.specs.Fields.{glitch_of};
ghost use Rattle.ibx_csr.specs.Modes.{access_machine, may_wait};

use crate::kept::{
    is_held, is_held_top, stored_cfg, stored_mstatus, stored_sec, with_high, with_low,
};
use crate::name::{Csr, csr_at};
use ibx_bits::byte_at;
use ibx_isa::TrapRegs;
use ibx_isa::control::{CY, IR, MPP, MPRV, TW};

/// The registers, with the complements of those that protect the core. Each value of each field has a
/// meaning, also where a complement isn't one.
///
/// The mode `priv_` is true for M. `mcycle` counts cycles and `minstret` retired instructions. Entry i of
/// the protection unit has byte i modulo 4 of `pmpcfg` i / 4, and `pmpaddr` i, which holds bits 33:2 of a
/// byte address. A name with `_n` is the complement of its register.
#[derive(Clone, Copy, Debug, PartialEq, Eq)]
pub struct Csrs {
    pub priv_: bool,
    pub mstatus: u32,
    pub mie: u32,
    pub mtvec: u32,
    pub mscratch: u32,
    pub mepc: u32,
    pub mcause: u32,
    pub mtval: u32,
    pub cpuctrl: u32,
    pub mcountinhibit: u32,
    pub mcycle: u64,
    pub minstret: u64,
    pub pmpcfg0: u32,
    pub pmpcfg1: u32,
    pub pmpcfg2: u32,
    pub pmpcfg3: u32,
    pub pmpaddr0: u32,
    pub pmpaddr1: u32,
    pub pmpaddr2: u32,
    pub pmpaddr3: u32,
    pub pmpaddr4: u32,
    pub pmpaddr5: u32,
    pub pmpaddr6: u32,
    pub pmpaddr7: u32,
    pub pmpaddr8: u32,
    pub pmpaddr9: u32,
    pub pmpaddr10: u32,
    pub pmpaddr11: u32,
    pub pmpaddr12: u32,
    pub pmpaddr13: u32,
    pub pmpaddr14: u32,
    pub pmpaddr15: u32,
    pub mstatus_n: u32,
    pub mtvec_n: u32,
    pub cpuctrl_n: u32,
    pub pmpcfg0_n: u32,
    pub pmpcfg1_n: u32,
    pub pmpcfg2_n: u32,
    pub pmpcfg3_n: u32,
    pub pmpaddr0_n: u32,
    pub pmpaddr1_n: u32,
    pub pmpaddr2_n: u32,
    pub pmpaddr3_n: u32,
    pub pmpaddr4_n: u32,
    pub pmpaddr5_n: u32,
    pub pmpaddr6_n: u32,
    pub pmpaddr7_n: u32,
    pub pmpaddr8_n: u32,
    pub pmpaddr9_n: u32,
    pub pmpaddr10_n: u32,
    pub pmpaddr11_n: u32,
    pub pmpaddr12_n: u32,
    pub pmpaddr13_n: u32,
    pub pmpaddr14_n: u32,
    pub pmpaddr15_n: u32,
    pub mseccfg: u32,
    pub mseccfg_n: u32,
}

/// The entries of the protection unit: entry i has the configuration byte `cfg[i]` and the address `addr[i]`.
/// `sec` is MML in bit 0, MMWP in bit 1 and RLB in bit 2.
#[derive(Clone, Copy, Debug, PartialEq, Eq)]
pub struct PmpView {
    pub cfg: [u8; 16],
    pub addr: [u32; 16],
    pub sec: u8,
}

impl Csrs {
    /// The registers at reset, for a program that is entered at the byte address `entry`: M mode, all 0 but
    /// MPIE, and handlers at `entry` with bits 7:0 cleared (our own reset values).
    #[tactic(auto, unfolding(crate::specs::Fields::values, crate::specs::Fields::reset_of, crate::specs::Values::csr_reset))]
    pub fn reset(entry: u32) -> Csrs
        ensures fields { result ≡ reset_of entry }
        ensures values { values result ≡ csr_reset entry }
        ensures sound { Complemented result }
    {
        let mstatus = at_reset(Csr::Mstatus);
        let mtvec = Csr::Mtvec.bits().legal(entry);
        let cpuctrl = at_reset(Csr::Cpuctrl);
        let cfg = at_reset(Csr::Pmpcfg(0));
        let addr = at_reset(Csr::Pmpaddr(0));
        let mseccfg = at_reset(Csr::Mseccfg);
        Csrs {
            priv_: true,
            mstatus,
            mie: at_reset(Csr::Mie),
            mtvec,
            mscratch: at_reset(Csr::Mscratch),
            mepc: at_reset(Csr::Mepc),
            mcause: at_reset(Csr::Mcause),
            mtval: at_reset(Csr::Mtval),
            cpuctrl,
            mcountinhibit: at_reset(Csr::Mcountinhibit),
            mcycle: 0,
            minstret: 0,
            pmpcfg0: cfg,
            pmpcfg1: cfg,
            pmpcfg2: cfg,
            pmpcfg3: cfg,
            pmpaddr0: addr,
            pmpaddr1: addr,
            pmpaddr2: addr,
            pmpaddr3: addr,
            pmpaddr4: addr,
            pmpaddr5: addr,
            pmpaddr6: addr,
            pmpaddr7: addr,
            pmpaddr8: addr,
            pmpaddr9: addr,
            pmpaddr10: addr,
            pmpaddr11: addr,
            pmpaddr12: addr,
            pmpaddr13: addr,
            pmpaddr14: addr,
            pmpaddr15: addr,
            mstatus_n: !mstatus,
            mtvec_n: !mtvec,
            cpuctrl_n: !cpuctrl,
            pmpcfg0_n: !cfg,
            pmpcfg1_n: !cfg,
            pmpcfg2_n: !cfg,
            pmpcfg3_n: !cfg,
            pmpaddr0_n: !addr,
            pmpaddr1_n: !addr,
            pmpaddr2_n: !addr,
            pmpaddr3_n: !addr,
            pmpaddr4_n: !addr,
            pmpaddr5_n: !addr,
            pmpaddr6_n: !addr,
            pmpaddr7_n: !addr,
            pmpaddr8_n: !addr,
            pmpaddr9_n: !addr,
            pmpaddr10_n: !addr,
            pmpaddr11_n: !addr,
            pmpaddr12_n: !addr,
            pmpaddr13_n: !addr,
            pmpaddr14_n: !addr,
            pmpaddr15_n: !addr,
            mseccfg,
            mseccfg_n: !mseccfg,
        }
    }

    /// The value at an address, where the table has a register there and the mode is M. `lines` are the
    /// interrupt lines of the cycle, which `mip` reads (Privileged ISA 1.12, chapter 2).
    pub fn read(&self, addr: u16, lines: u32) -> Option<u32>
        ensures value { result ≡ csr_read (values self.now) addr lines }
        ensures known { (v : CsrValues) (other : ℕ) → v.machine ≡ self.now.priv_
            → is_some (csr_read v addr other) ≡ is_some result }
    {
        self.read_at(addr, lines)
    }

    #[tactic(auto, unfolding(crate::specs::Values::csr_read, crate::specs::Fields::values))]
    fn read_at(&self, addr: u16, lines: u32) -> Option<u32>
        ensures { result ≡ csr_read (values self.now) addr lines }
    {
        match csr_at(addr) {
            Some(register) if self.priv_ => Some(self.value(register, lines)),
            _ => None,
        }
    }

    #[tactic(auto, unfolding(crate::specs::Values::value_of, crate::specs::Fields::values))]
    fn value(&self, register: Csr, lines: u32) -> u32
        ensures { result ≡ value_of (values self.now) register lines }
    {
        match register {
            Csr::Mstatus => self.mstatus,
            Csr::Mie => self.mie,
            Csr::Mtvec => self.mtvec,
            Csr::Mcountinhibit => self.mcountinhibit,
            Csr::Mscratch => self.mscratch,
            Csr::Mepc => self.mepc,
            Csr::Mcause => self.mcause,
            Csr::Mtval => self.mtval,
            Csr::Mip => lines,
            Csr::Pmpcfg(index) => self.cfg(index),
            Csr::Pmpaddr(index) => self.addr(index),
            Csr::Cpuctrl => self.cpuctrl,
            Csr::Mcycle => (self.mcycle & 0xffff_ffff) as u32,
            Csr::Mcycleh => (self.mcycle >> 32) as u32,
            Csr::Minstret => (self.minstret & 0xffff_ffff) as u32,
            Csr::Minstreth => (self.minstret >> 32) as u32,
            Csr::Mseccfg => self.mseccfg,
            Csr::Misa | Csr::Secureseed | Csr::Marchid | Csr::Zero => at_reset(register),
        }
    }

    /// Writes at an address, and says whether it could be written: not where a read gives nothing, nor
    /// where address bits 11:10 are both 1 (Privileged ISA 1.12, 2.1); then nothing changed. A write of
    /// `secureseed` changes nothing here.
    pub fn write(&mut self, addr: u16, value: u32) -> bool
        ensures done { result ≡ csr_can_write (values self.old) addr }
        ensures refused { result ≡ false → self.new ≡ self.old }
        ensures fields { self.new ≡ write_of self.old addr value }
        ensures values { values self.new ≡ csr_write (values self.old) addr value }
        ensures others { OthersStay (values self.old) (values self.new) addr }
        ensures mode { self.new.priv_ ≡ self.old.priv_ }
        ensures sound { Complemented self.old → Complemented self.new }
    {
        self.write_at(addr, value)
    }

    #[tactic(auto, unfolding(crate::specs::Values::csr_can_write, crate::specs::Fields::values, crate::specs::Fields::write_of))]
    fn write_at(&mut self, addr: u16, value: u32) -> bool
        ensures done { result ≡ csr_can_write (values self.old) addr }
        ensures refused { result ≡ false → self.new ≡ self.old }
        ensures fields { self.new ≡ write_of self.old addr value }
    {
        if (addr >> 10) & 3 == 3 {
            return false;
        }
        match csr_at(addr) {
            Some(register) if self.priv_ => {
                self.put(register, value);
                true
            }
            _ => false,
        }
    }

    /// Whether `write` could write an address in this mode. Nothing changes.
    #[tactic(auto, unfolding(crate::specs::Values::csr_can_write, crate::specs::Fields::values))]
    pub fn can_write(&self, addr: u16) -> bool
        ensures { result ≡ csr_can_write (values self.now) addr }
    {
        (addr >> 10) & 3 != 3 && self.priv_ && csr_at(addr).is_some()
    }

    // Writes a register, with its complement where it has one.
    #[tactic(auto, unfolding(crate::specs::Fields::put_of))]
    fn put(&mut self, register: Csr, value: u32)
        ensures { self.new ≡ put_of self.old register value }
    {
        let legal = register.bits().legal(value);
        match register {
            Csr::Mstatus => {
                let stored = stored_mstatus(value);
                self.mstatus = stored;
                self.mstatus_n = !stored;
            }
            Csr::Mie => self.mie = legal,
            Csr::Mtvec => {
                self.mtvec = legal;
                self.mtvec_n = !legal;
            }
            Csr::Mcountinhibit => self.mcountinhibit = legal,
            Csr::Mscratch => self.mscratch = legal,
            Csr::Mepc => self.mepc = legal,
            Csr::Mcause => self.mcause = legal,
            Csr::Mtval => self.mtval = legal,
            Csr::Pmpcfg(index) => {
                let stored = stored_cfg(self.mseccfg, self.cfg(index), value);
                self.put_cfg(index, stored);
            }
            Csr::Pmpaddr(index) => {
                if !self.is_addr_held(index) {
                    self.put_addr(index, value);
                }
            }
            Csr::Cpuctrl => {
                self.cpuctrl = legal;
                self.cpuctrl_n = !legal;
            }
            Csr::Mcycle => self.mcycle = with_low(self.mcycle, value),
            Csr::Mcycleh => self.mcycle = with_high(self.mcycle, value),
            Csr::Minstret => self.minstret = with_low(self.minstret, value),
            Csr::Minstreth => self.minstret = with_high(self.minstret, value),
            Csr::Mseccfg => {
                let stored = stored_sec(self.mseccfg, &self.pmp().cfg, value);
                self.mseccfg = stored;
                self.mseccfg_n = !stored;
            }
            Csr::Misa | Csr::Mip | Csr::Secureseed | Csr::Marchid | Csr::Zero => {}
        }
    }

    // An address is held by its own entry, or by the one above it where that is a range that begins at it.
    #[tactic(auto, unfolding(crate::specs::Fields::values))]
    fn is_addr_held(&self, index: u8) -> bool
        ensures { result ≡ is_addr_held self.now.mseccfg (cfg_bytes (values self.now)) index }
    {
        let view = self.pmp();
        let own = entry_at(&view.cfg, index as usize);
        let next = entry_at(&view.cfg, index as usize + 1);
        is_held(self.mseccfg, own) || is_held_top(self.mseccfg, next)
    }

    /// Moves the two counters by one cycle: `retired` says whether an instruction retires in it, and `wrote`
    /// is the address that this instruction writes, if any. It is called before the write itself.
    ///
    /// Bit 0 of `mcountinhibit` stops `mcycle`, and bit 2 `minstret` (Privileged ISA 1.12, 3.1.10 and 3.1.12).
    /// A counter stands still in a cycle in which one of its halves is written (our own rule).
    #[inline(always)]
    #[tactic(auto, unfolding(crate::specs::Fields::tick_of, crate::specs::Fields::values, crate::specs::Values::csr_tick))]
    pub fn tick(&mut self, retired: bool, wrote: Option<u16>)
        ensures fields { self.new ≡ tick_of self.old retired wrote }
        ensures values { values self.new ≡ csr_tick (values self.old) retired wrote }
        ensures sound { Complemented self.old → Complemented self.new }
    {
        let writes_cycle = matches!(wrote, Some(0xb00 | 0xb80));
        let writes_instret = matches!(wrote, Some(0xb02 | 0xb82));
        let cycle_stands = writes_cycle || self.mcountinhibit & CY != 0;
        let instret_stands = !retired || writes_instret || self.mcountinhibit & IR != 0;
        self.mcycle = counted(self.mcycle, cycle_stands);
        self.minstret = counted(self.minstret, instret_stands);
    }

    /// Moves `mcycle` by so many cycles, in which no instruction retires and no counter is written.
    ///
    /// Bit 0 of `mcountinhibit` stops it (Privileged ISA 1.12, 3.1.10 and 3.1.12).
    #[tactic(auto, unfolding(crate::specs::Fields::passed, crate::specs::Fields::values, crate::specs::Values::counters_after))]
    pub fn pass(&mut self, cycles: u64)
        ensures fields { self.new ≡ passed self.old cycles }
        ensures values { values self.new ≡ counters_after (values self.old) cycles }
        ensures nothing { (v : CsrValues) → v.mcycle < 2 ^ 64 → counters_after v 0 ≡ v }
        ensures ticks { (v : CsrValues) (n : ℕ) → csr_tick (counters_after v n) false None ≡ counters_after v (n + 1) }
        ensures sound { Complemented self.old → Complemented self.new }
    {
        if self.mcountinhibit & CY == 0 {
            self.mcycle = self.mcycle.wrapping_add(cycles);
        }
    }

    /// Whether loads and stores are M's: in M mode, except where MPRV is 1 and MPP isn't M
    /// (Privileged ISA 1.12, 3.1.6.3).
    #[inline(always)]
    #[tactic(auto, unfolding(crate::specs::Fields::values))]
    pub fn access_machine(&self) -> bool
        ensures { result ≡ access_machine (values self.now) }
    {
        self.priv_ && (self.mstatus & MPRV == 0 || self.mstatus & MPP == MPP)
    }

    /// Whether a WFI isn't illegal: in M mode, and in U mode where TW is 0 (Privileged ISA 1.12, 3.1.6.5).
    #[inline(always)]
    #[tactic(auto, unfolding(crate::specs::Fields::values))]
    pub fn may_wait(&self) -> bool
        ensures { result ≡ may_wait (values self.now) }
    {
        self.priv_ || self.mstatus & TW == 0
    }

    /// Whether a complemented copy isn't the complement of its register (our own check).
    #[inline(always)]
    pub fn glitch(&self) -> bool
        ensures fields { result ≡ glitch_of self.now }
        ensures sound { (result ≡ false) ↔ Complemented self.now }
    {
        self.has_glitch()
    }

    /// The registers that a trap reads.
    #[inline(always)]
    #[tactic(auto, unfolding(crate::specs::Fields::values))]
    pub fn regs(&self) -> TrapRegs
        ensures { result ≡ trap_regs (values self.now) }
    {
        TrapRegs {
            machine: self.priv_,
            mstatus: self.mstatus,
            mtvec: self.mtvec,
            mepc: self.mepc,
            mcause: self.mcause,
            mtval: self.mtval,
            cpuctrl: self.cpuctrl,
        }
    }

    /// Takes over what a trap left, within the bits that a write keeps. Each value of MPP is kept.
    #[tactic(auto, unfolding(crate::specs::Fields::with_regs, crate::specs::Fields::values, crate::specs::Values::with_trap_regs))]
    pub fn set_regs(&mut self, r: &TrapRegs)
        ensures fields { self.new ≡ with_regs self.old r.now }
        ensures values { values self.new ≡ with_trap_regs (values self.old) r.now }
        ensures back { trap_regs (values self.new) ≡ kept_regs r.now }
        ensures sound { Complemented self.old → Complemented self.new }
    {
        let mstatus = Csr::Mstatus.bits().legal(r.mstatus);
        let mtvec = Csr::Mtvec.bits().legal(r.mtvec);
        let cpuctrl = Csr::Cpuctrl.bits().legal(r.cpuctrl);
        self.priv_ = r.machine;
        self.mstatus = mstatus;
        self.mstatus_n = !mstatus;
        self.mtvec = mtvec;
        self.mtvec_n = !mtvec;
        self.mepc = Csr::Mepc.bits().legal(r.mepc);
        self.mcause = Csr::Mcause.bits().legal(r.mcause);
        self.mtval = r.mtval;
        self.cpuctrl = cpuctrl;
        self.cpuctrl_n = !cpuctrl;
    }

    /// The entries of the protection unit.
    #[tactic(auto, unfolding(crate::specs::Fields::values))]
    pub fn pmp(&self) -> PmpView
        ensures cfg { result.cfg ≡ cfg_bytes (values self.now) }
        ensures addr { result.addr ≡ (values self.now).pmpaddr }
        ensures sec { result.sec ≡ sec_of (values self.now) }
    {
        PmpView {
            cfg: [
                byte_at(self.pmpcfg0, 0),
                byte_at(self.pmpcfg0, 1),
                byte_at(self.pmpcfg0, 2),
                byte_at(self.pmpcfg0, 3),
                byte_at(self.pmpcfg1, 0),
                byte_at(self.pmpcfg1, 1),
                byte_at(self.pmpcfg1, 2),
                byte_at(self.pmpcfg1, 3),
                byte_at(self.pmpcfg2, 0),
                byte_at(self.pmpcfg2, 1),
                byte_at(self.pmpcfg2, 2),
                byte_at(self.pmpcfg2, 3),
                byte_at(self.pmpcfg3, 0),
                byte_at(self.pmpcfg3, 1),
                byte_at(self.pmpcfg3, 2),
                byte_at(self.pmpcfg3, 3),
            ],
            addr: [
                self.pmpaddr0,
                self.pmpaddr1,
                self.pmpaddr2,
                self.pmpaddr3,
                self.pmpaddr4,
                self.pmpaddr5,
                self.pmpaddr6,
                self.pmpaddr7,
                self.pmpaddr8,
                self.pmpaddr9,
                self.pmpaddr10,
                self.pmpaddr11,
                self.pmpaddr12,
                self.pmpaddr13,
                self.pmpaddr14,
                self.pmpaddr15,
            ],
            sec: (self.mseccfg & 7) as u8,
        }
    }
}

// What a register holds at reset.
fn at_reset(register: Csr) -> u32
    ensures { result ≡ reset_value register }
{
    register.bits().value
}

// A count after a cycle in which it stands still or counts.
#[inline(always)]
fn counted(count: u64, stands: bool) -> u64
    ensures { result ≡ count_after count stands }
{
    if stands { count } else { count.wrapping_add(1) }
}

// Byte `index`, or 0 past the end.
fn entry_at(bytes: &[u8], index: usize) -> u8
    ensures { result ≡ slice_index bytes.now index }
{
    match bytes.get(index) {
        Some(byte) => *byte,
        None => 0,
    }
}
