ghost use Rattle.std.specs.Prelude.{◌≡◌, ℕ, true, length};
ghost use Rattle.ibx_core.specs.declared.state.State.{State};
ghost use Rattle.ibx_plan.specs.Sites.{site_fits};
ghost use Rattle.ibx_plan.specs.declared.site.Flip.{Flip};
ghost use Rattle.ibx_system.specs.Core.{core_parts};
ghost use Rattle.ibx_system.specs.Runs.{IsFirst};
ghost use Rattle.ibx_system.specs.System.{Whole};
ghost use Rattle.ibx_flips.specs.Flips.{Noticed, ReplacementNoticed, ToldByUse, Unseen};

/// After any one flip the bus stays as without it, or an alert comes at most the delay plus one cycles after the first
/// difference: for every first state with a delay of one cycle or more, every flip that fits its memory and its delay,
/// and every number of cycles.
pub fn noticed()
    ensures { (w : Whole State) (f : Flip) (cycles : ℕ) → IsFirst core_parts w
        → site_fits (length w.place.memory.words) w.delay f.site ≡ true → Noticed core_parts w f cycles }
{}

/// After any change of main's fields, made before the step of any cycle, the bus stays as without it, or an alert comes
/// at most the delay plus one cycles after the first difference.
pub fn replacement_noticed()
    ensures { (w : Whole State) (cycle : ℕ) (other : State) (cycles : ℕ) → IsFirst core_parts w
        → ReplacementNoticed core_parts w cycle other cycles }
{}

/// After the flip of a word of the memories, the ports or a core's input the bus stays as without it until the changed
/// word is used, and then an alert comes in that cycle.
pub fn told_by_use()
    ensures { (w : Whole State) (f : Flip) (cycles : ℕ) → IsFirst core_parts w
        → site_fits (length w.place.memory.words) w.delay f.site ≡ true → ToldByUse core_parts w f cycles }
{}

/// After a flip in the shadow, in a delayed pair, in the age or in the kept finding the bus stays as without it, for
/// ever.
pub fn unseen()
    ensures { (w : Whole State) (f : Flip) → IsFirst core_parts w → Unseen core_parts w f }
{}
