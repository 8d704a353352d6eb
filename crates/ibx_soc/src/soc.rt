ghost use Rattle.std.specs.Prelude.{◌≡◌, ◌<◌, ◌*◌, ◌^◌, ◌==◌, bit_xor, IfOk, IfSome, length, true, false};
ghost use Rattle.ibx_isa.specs.Events.{IsPrintable};
ghost use Rattle.ibx_plan.specs.Sites.{site_fits, slots};
ghost use Rattle.ibx_plan.specs.Names.{width_in, wires};
ghost use Rattle.ibx_core.specs.declared.state.State.{State};
ghost use Rattle.ibx_lockstep.specs.Seen.{seen};
ghost use Rattle.ibx_system.specs.Core.{core_parts};
ghost use Rattle.ibx_system.specs.System.{Place};
ghost use Rattle.ibx_system.specs.Flips.{delay_flip, flip};
ghost use Rattle.ibx_soc.specs.Cycles.{cycle_of, soc_next};
ghost use Rattle.ibx_soc.specs.First.{IsAsNew, first};
ghost use Rattle.ibx_soc.specs.Seen.{whole_with};

use crate::changes::{flip_field, with_wire_flip};
use crate::config::Config;
use crate::cycle::Cycle;
use crate::memories::Memories;
use ibx_base::NoMemory;
use ibx_core::{Core, In, Out};
use ibx_elf::Image;
use ibx_lockstep::Pair;
use ibx_plan::{Plan, Site};
use std::alloc::Global;
use std::marker::Model;

/// The system: main and its shadow, which is one to four cycles behind, with the register file, the cache's memories,
/// RAM and both bus ports, over the plan of a run.
#[derive(Drop)]
pub struct Soc<'p> {
    pair: Pair<Core>,
    memories: Memories<'p>,
    // Places for what main and the shadow put out in a cycle. No cycle reads what the one before left there.
    out: Out,
    own: Out,
}

impl<'p> Model for Soc<'p> {
    ghost use Rattle.ibx_core.specs.declared.state.State.{State};
    ghost use Rattle.ibx_system.specs.System.{Whole};

    ghost Value = { Whole State };

    ghost use Rattle.ibx_soc.specs.Seen.{IsSound, whole_of};

    ghost view = { λ soc. whole_of soc.pair soc.memories };

    ghost invariant = { λ soc. IsSound soc.pair soc.memories };
}

// The number of the age of the delayed pairs among the delayed wires, and that of what the cycle before found.
const AGE: u8 = 36;

const TOLD: u8 = 37;

// Changes a bit of a delayed wire, of the age of the delayed pairs, or of what the cycle before found.
#[tactic(auto, using(crate::proofs::Bits::age_bit, crate::proofs::Bits::wire_inside, crate::proofs::Delayed::slot_inside))]
fn flip_delay(pair: &mut Pair<Core>, slot: u8, wire: u8, bit: u8)
    requires slot { slot < slots (seen pair.old).delay wire }
    requires bit { bit < width_in wires wire }
    requires age { (seen pair.old).age < 8 }
    ensures made { (place : Place) → whole_with pair.new place ≡ delay_flip core_parts (wire == 36)
        (wire == 37) slot wire bit (whole_with pair.old place) }
    ensures age { (seen pair.new).age < 8 }
{
    if wire == AGE {
        pair.set_age(flipped_age(pair.age(), bit));
    } else if wire == TOLD {
        pair.set_told(!pair.told());
    } else {
        let (i, o) = pair.delay(slot);
        let (i, o) = with_wire_flip(&i, &o, wire, bit);
        pair.set_delay(slot, i, o);
    }
}

#[tactic(auto, using(crate::proofs::Bits::age_changed, crate::proofs::Bits::age_fits))]
fn flipped_age(age: u8, bit: u8) -> u8
    requires bit { bit < 3 }
    requires fits { age < 8 }
    ensures value { result ≡ bit_xor age (2 ^ bit) }
    ensures fits { result < 8 }
{
    age ^ (1 << bit)
}

impl<'p> Soc<'p> {
    /// The system at reset, with an image in RAM; the configuration's RAM is the image's. The plan's flip isn't made.
    /// An `Err` means that there was no memory.
    #[tactic(auto, unfolding(crate::specs::First::first))]
    pub fn new(
        alloc: Global,
        image: &Image<'_>,
        config: &Config,
        plan: &'p Plan,
    ) -> Result<Soc<'p>, NoMemory>
        requires { config.now.ram ≡ image.now.ram }
        ensures first { IfOk result (λ soc. soc ≡ first image.now config.now plan.now) }
        ensures as_new { IfOk result IsAsNew }
        ensures words { IfOk result (λ soc. 4 * length soc.place.memory.words ≡ image.now.ram.size) }
    {
        let memories = Memories::new(alloc, image, config.mul, plan)?;
        let core = Core::reset(image.entry());
        Ok(Soc {
            pair: Pair::new(core, core, config.delay, In::quiet(), Out::quiet()),
            memories,
            out: Out::quiet(),
            own: Out::quiet(),
        })
    }

    /// Makes one cycle, whose number is below 2^62. Each core makes its cycle once, and in place.
    #[tactic(auto, unfolding(crate::specs::Cycles::cycle_of, ibx_system::specs::Core::core_parts, ibx_system::specs::System::next, ibx_lockstep::specs::Paired::finds, ibx_lockstep::specs::Paired::stepped))]
    pub fn step(&mut self) -> Cycle
        requires { self.old.place.cycle < 2 ^ 62 }
        ensures shown { result ≡ cycle_of self.old }
        ensures next { self.new ≡ soc_next self.old }
        // What is done has a printed line.
        ensures printable { IfSome result.event IsPrintable }
    {
        let at = self.memories.cycle;
        let reads = self.pair.main().reads();
        let mut i = self.memories.look(&reads);
        self.pair.main_mut().begin(&i, &mut self.out);
        let (igrant, dgrant) = self.memories.settle(&self.out);
        i.igrant = igrant;
        i.dgrant = dgrant;
        let told = self.pair.finish(&i, &self.out, &mut self.own);
        Cycle::of(at, told, &self.out)
    }

    /// Changes one bit, and all else stays. False exactly where there is no such bit, and then nothing changed. A
    /// change of an output word is made in the next cycle; a later one before that cycle takes its place.
    #[tactic(auto, unfolding(ibx_system::specs::Flips::flip, ibx_system::specs::Core::core_parts, ibx_plan::specs::Sites::site_fits, ibx_plan::specs::Sites::ranges), using(crate::proofs::Bits::field_inside))]
    pub fn flip(&mut self, site: &Site) -> bool
        ensures fits { result ≡ site_fits (length self.old.place.memory.words) self.old.delay site.now }
        ensures made { result ≡ true → self.new ≡ flip core_parts site.now self.old }
        ensures kept { result ≡ false → self.new ≡ self.old }
    {
        let delay = self.pair.behind();
        if !self.memories.has(site, delay) {
            return false;
        }
        match *site {
            Site::Main { field, bit } => flip_field(self.pair.main_mut(), field, bit),
            Site::Shadow { field, bit } => flip_field(self.pair.shadow_mut(), field, bit),
            Site::Delay { slot, wire, bit } => flip_delay(&mut self.pair, slot, wire, bit),
            _ => self.memories.flip(site),
        }
        true
    }

    /// The cycles by which the shadow is behind main.
    pub fn delay(&self) -> u8
        ensures { result ≡ self.now.delay }
    {
        self.pair.behind()
    }

    /// The number of cycles made, which is that of the next one.
    pub fn cycle(&self) -> u64
        ensures { result ≡ self.now.place.cycle }
    {
        self.memories.cycle
    }

    /// The main core.
    pub fn main(&self) -> &Core
        ensures { result.now ≡ self.now.main }
    {
        self.pair.main()
    }
}
