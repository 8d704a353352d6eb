ghost use Rattle.ibx_time.specs.Settings.{Setup};
ghost use Rattle.ibx_time.specs.Cycles.{IsTimed, EqualViewsEqualCycles, EqualStoryViewsEqualCycles};
ghost use Rattle.ibx_time.specs.Chains.{HasChain, HasSeen};

/// The laws of time. Two runs with equal configuration and plan, of any images and budgets, have equal cycles as far
/// as their views are equal: in their histories, and in their stories, which end with the first halting store. The
/// cycles of a history are those that the timeline gives to its views. Our own rules.
pub fn laws_of_time()
    ensures equal_histories { EqualViewsEqualCycles }
    ensures equal_stories { EqualStoryViewsEqualCycles }
    ensures timed { (s : Setup) → IsTimed s }
{}

/// The laws of histories. The events are a chain of steps of the instruction set's architecture from the image's first
/// state, and the parcels of each instruction are values that memory held since the last FENCE.I, or since the start,
/// and before the instruction was admitted (RISC-V Unprivileged ISA, Zifencei).
pub fn laws_of_histories()
    ensures chained { (s : Setup) → HasChain s }
    ensures seen { (s : Setup) → HasSeen s }
{}
