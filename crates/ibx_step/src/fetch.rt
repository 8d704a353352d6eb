ghost use Rattle.std.specs.Prelude.{◌≡◌, ◌≤◌, ◌<◌, ◌^◌, ◌%◌, IfSome};
ghost use Rattle.ibx_csr.specs.Fields.{values};
ghost use Rattle.ibx_csr.specs.Values.{cfg_bytes, sec_of};
ghost use Rattle.ibx_arch.specs.Fetch.{fetch, is_sound};
ghost use Rattle.ibx_memory.specs.Words.{memory_of};
ghost use Rattle.ibx_step.specs.Machines.{state_of, IsFetched};
ghost use Rattle.ibx_step.specs.Preparing.{prepared_from, is_wait_of, IsSound};

use crate::machine::Machine;
use ibx_arch::Fetched;
use ibx_decoder::instruction;
use ibx_isa::{Insn, is_long};
use ibx_pmp::{AccessKind, PmpRegs, allow};

/// What was fetched, decoded.
#[derive(Clone, Copy)]
pub(crate) enum Prepared {
    /// The parcel at this byte address can't be executed.
    Unsound(u32),
    /// This word is no instruction.
    Illegal(u32),
    /// An instruction, with its word and its length in bytes.
    Legal { insn: Insn, word: u32, length: u32 },
}

impl Machine {
    /// The entries of the protection unit.
    pub(crate) fn protection(&self) -> PmpRegs
        ensures cfg { result.cfg ≡ cfg_bytes (values self.now.csrs) }
        ensures addr { result.addr ≡ (values self.now.csrs).pmpaddr }
        ensures sec { result.sec ≡ sec_of (values self.now.csrs) }
    {
        let view = self.csrs.pmp();
        let cfg = view.cfg;
        let addr = view.addr;
        let sec = view.sec;
        PmpRegs { cfg, addr, sec }
    }

    // Whether the parcel at an address may be executed.
    fn is_sound(&self, addr: u32) -> bool
        requires { addr % 2 ≡ 0 }
        ensures { result ≡ is_sound (values self.now.csrs) (memory_of self.now.storage).ram addr }
    {
        let machine = self.csrs.regs().machine;
        self.storage.is_mapped(addr)
            && allow(&self.protection(), addr, 2, AccessKind::Execute, machine)
    }

    /// What is fetched at the program counter, of these two parcels.
    #[tactic(auto, unfolding(ibx_arch::specs::Fetch::fetch))]
    pub(crate) fn fetch(&self, first: u16, second: u16) -> Fetched
        requires { self.now.pc % 2 ≡ 0 }
        ensures fetched { result ≡ fetch (state_of self.now) first second }
        ensures sound { IsFetched result }
    {
        if !self.is_sound(self.pc) {
            return Fetched::Unsound(self.pc);
        }
        if !is_long(first as u32) {
            return Fetched::Instruction {
                word: first as u32,
                length: 2,
            };
        }
        let next = self.pc.wrapping_add(2);
        if !self.is_sound(next) {
            return Fetched::Unsound(next);
        }
        Fetched::Instruction {
            word: first as u32 + 0x1_0000 * second as u32,
            length: 4,
        }
    }

    /// What is fetched at the program counter, of these two parcels, and decoded.
    #[tactic(auto, unfolding(crate::specs::Preparing::prepared_from))]
    pub(crate) fn prepare(&self, first: u16, second: u16) -> Prepared
        requires { self.now.pc % 2 ≡ 0 }
        ensures prepared { result ≡ prepared_from (fetch (state_of self.now) first second) }
        ensures sound { IsSound result }
    {
        match self.fetch(first, second) {
            Fetched::Unsound(addr) => Prepared::Unsound(addr),
            Fetched::Instruction { word, length } => match instruction(word) {
                None => Prepared::Illegal(word),
                Some(insn) => Prepared::Legal { insn, word, length },
            },
        }
    }

    /// Whether it is a WFI that isn't illegal.
    pub(crate) fn waits(&self, prepared: Prepared) -> bool
        ensures { result ≡ is_wait_of (values self.now.csrs) prepared }
    {
        match prepared {
            Prepared::Legal {
                insn: Insn::Wfi,
                ..
            } => self.csrs.may_wait(),
            _ => false,
        }
    }
}
