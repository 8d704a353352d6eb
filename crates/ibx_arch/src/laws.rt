ghost use Rattle.ibx_arch.specs.Laws.{BeginsAligned, StaysAligned, WritesMemory};

/// The laws of the steps. Instructions begin at even addresses (RISC-V Unprivileged ISA, 1.5): so does the first,
/// where the image's entry is even, and each step keeps it so, since jumps and branches have even offsets, JALR clears
/// bit 0, handlers begin at multiples of four bytes, and `mepc` keeps no bit 0. The memory after a step is the memory
/// before it with the step's writes made in order.
pub fn laws_of_steps()
    ensures begins { BeginsAligned }
    ensures aligned { StaysAligned }
    ensures written { WritesMemory }
{}
