ghost use Rattle.std.specs.Prelude.{◌≡◌, ◌≤◌, ◌<◌, ◌^◌, ◌%◌, Some, None};
ghost use Rattle.ibx_isa.specs.WellFormed.{IsAccessSize};
ghost use Rattle.ibx_csr.specs.Fields.{values};
ghost use Rattle.ibx_csr.specs.Values.{csr_tick};
ghost use Rattle.ibx_isa.specs.Portions.{portion_addr, portion_size, size_of};
ghost use Rattle.ibx_arch.specs.Access.{is_refused, refused_at};
ghost use Rattle.ibx_arch.specs.Effects.{load, store, trap, plain, illegal};
ghost use Rattle.ibx_memory.specs.Words.{memory_of};
ghost use Rattle.ibx_step.specs.Machines.{state_of, left_in, KeepsPlace, HasRegister, retiring};

use crate::machine::Machine;
use ibx_arch::{Done, Retirement};
use ibx_isa::cause::{ILLEGAL_INSTRUCTION, LOAD_FAULT, STORE_FAULT};
use ibx_isa::{Access, LoadOp, access_size, low_bytes, parts, portion_bytes, portion_start};
use ibx_pmp::{AccessKind, allow};

impl Machine {
    /// Ends an instruction that retires.
    pub(crate) fn retire(&mut self, retirement: Retirement) -> Done
        ensures left { left_in result self.new ≡ retiring (state_of self.old) retirement }
        ensures done { result ≡ Done.Retires retirement }
        ensures place { KeepsPlace self.old self.new }
    {
        self.csrs.tick(true, None);
        Done::Retires(retirement)
    }

    /// Ends an instruction that writes a register at most.
    pub(crate) fn plain(&mut self, rd: u8, value: u32, next_pc: u32) -> Done
        requires { rd < 32 }
        ensures left { left_in result self.new ≡ plain (state_of self.old) rd value next_pc }
        ensures place { KeepsPlace self.old self.new }
        ensures register { HasRegister result }
    {
        self.retire(Retirement {
            rd,
            value,
            mem: None,
            ctl: None,
            next_pc,
        })
    }

    /// Ends an instruction that traps.
    pub(crate) fn trap(&mut self, cause: u8, tval: u32, addr: u32) -> Done
        ensures left { left_in result self.new ≡ trap (state_of self.old) cause tval addr }
        ensures place { KeepsPlace self.old self.new }
        ensures register { HasRegister result }
    {
        self.csrs.tick(false, None);
        Done::Traps { cause, tval, addr }
    }

    /// Ends an illegal instruction.
    pub(crate) fn illegal(&mut self, word: u32) -> Done
        ensures left { left_in result self.new ≡ illegal (state_of self.old) word }
        ensures place { KeepsPlace self.old self.new }
        ensures register { HasRegister result }
    {
        self.trap(ILLEGAL_INSTRUCTION, word, 0)
    }

    // Whether protection refuses a portion of an access.
    fn is_refused(&self, addr: u32, size: u8, kind: AccessKind, second: bool) -> bool
        requires { size ≤ 4 }
        ensures { result ≡ is_refused (values self.now.csrs) addr size kind second }
    {
        let start = portion_start(addr, second);
        let bytes = portion_bytes(addr, size, second);
        !allow(
            &self.protection(),
            start,
            bytes,
            kind,
            self.csrs.access_machine(),
        )
    }

    /// The byte address of the portion that protection refuses.
    #[tactic(auto, unfolding(ibx_arch::specs::Access::refused_at))]
    pub(crate) fn refused(&self, addr: u32, size: u8, kind: AccessKind) -> Option<u32>
        requires { size ≤ 4 }
        ensures { result ≡ refused_at (values self.now.csrs) addr size kind }
    {
        if self.is_refused(addr, size, kind, false) {
            Some(portion_start(addr, false))
        } else if parts(addr, size) == 2 && self.is_refused(addr, size, kind, true) {
            Some(portion_start(addr, true))
        } else {
            None
        }
    }

    /// A load of a byte address.
    #[tactic(auto, unfolding(ibx_arch::specs::Effects::load))]
    pub(crate) fn load(&mut self, op: LoadOp, rd: u8, addr: u32, next_pc: u32) -> Done
        requires { rd < 32 }
        ensures left { left_in result self.new ≡ load (state_of self.old) op rd addr next_pc }
        ensures place { KeepsPlace self.old self.new }
        ensures register { HasRegister result }
    {
        let size = access_size(op);
        if let Some(at) = self.refused(addr, size, AccessKind::Read) {
            return self.trap(LOAD_FAULT, at, addr);
        }
        if let Some(at) = self.storage.error(addr, size) {
            return self.trap(LOAD_FAULT, at, addr);
        }
        let value = self.storage.load(op, addr);
        self.retire(Retirement {
            rd,
            value,
            mem: Some(Access {
                addr,
                size,
                store: false,
                value: 0,
            }),
            ctl: None,
            next_pc,
        })
    }

    /// A store to a byte address.
    #[tactic(auto, unfolding(ibx_arch::specs::Effects::store))]
    pub(crate) fn store(&mut self, size: u8, addr: u32, value: u32, next_pc: u32) -> Done
        requires { IsAccessSize size }
        ensures left { left_in result self.new ≡ store (state_of self.old) size addr value next_pc }
        ensures place { KeepsPlace self.old self.new }
        ensures register { HasRegister result }
    {
        if let Some(at) = self.refused(addr, size, AccessKind::Write) {
            return self.trap(STORE_FAULT, at, addr);
        }
        let value = low_bytes(value, size);
        let error = self.storage.error(addr, size);
        self.storage.store(addr, size, value);
        if let Some(at) = error {
            return self.trap(STORE_FAULT, at, addr);
        }
        self.retire(Retirement {
            rd: 0,
            value: 0,
            mem: Some(Access {
                addr,
                size,
                store: true,
                value,
            }),
            ctl: None,
            next_pc,
        })
    }
}
