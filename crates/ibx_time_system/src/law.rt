ghost use Rattle.std.specs.Prelude.{◌<◌, ◌^◌, All, List, ℕ};
ghost use Rattle.ibx_isa.specs.declared.insn.MulKind.{MulKind};
ghost use Rattle.ibx_elf.specs.declared.ram.Ram.{Ram};
ghost use Rattle.ibx_elf.specs.Faults.{IsWellFormed};
ghost use Rattle.ibx_elf.specs.Ram.{IsRamRange};
ghost use Rattle.ibx_plan.specs.Plan.{PlanValue};
ghost use Rattle.ibx_core.specs.declared.state.State.{State};
ghost use Rattle.ibx_core.specs.Wires.{InWires};
ghost use Rattle.ibx_time.specs.Settings.{Setup};
ghost use Rattle.ibx_time.specs.Runs.{IsPlaced};
ghost use Rattle.ibx_lockstep.specs.declared.delay.Delay.{Delay};
ghost use Rattle.ibx_system.specs.System.{Whole};
ghost use Rattle.ibx_time_system.specs.Cycles.{SameCycle};
ghost use Rattle.ibx_time_system.specs.Projection.{AreWords, IsStart, of_file, opened};
ghost use Rattle.ibx_time_system.specs.Laws.{IsHistory};

/// The gate of unused words changes nothing of what a cycle of the core leaves, and its wires out are what the machine
/// of the time equations puts out, for every value of its fields and of the wires.
pub fn same_cycle()
    ensures { (x : State) (i : InWires) → SameCycle x i }
{}

/// A file without a fault for a range of RAM, and a plan whose masks are words, are a setup of a run.
pub fn placed()
    ensures { (file : List ℕ) (ram : Ram) (mul : MulKind) (plan : PlanValue) → IsRamRange ram → IsWellFormed file ram
        → All (λ b. b < 256) file → AreWords plan.changes → IsPlaced (of_file file ram mul plan) }
{}

/// The system as it is opened for an image, a configuration and a plan is a first state of a run.
pub fn starts()
    ensures { (s : Setup) (delay : Delay) → IsPlaced s → IsStart s (opened s delay) }
{}

/// Without a flip the steps of the system are the history: their events, their requests, no alert of main and none of
/// the comparator, and what the fields, the registers and the memory hold.
pub fn runs_the_history()
    ensures { (s : Setup) (w : Whole State) → IsPlaced s → IsStart s w → IsHistory s w }
{}
