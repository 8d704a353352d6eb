ghost use Rattle.std.specs.Prelude.{◌≡◌, ◌<◌, ◌+◌, min, nat_le, if◌then◌else◌, replicate, slice_get, Some, false};
ghost use Rattle.std.specs.Borrow.{sem};
ghost use Rattle.ibx_lockstep.specs.Delays.{cycles_of};
ghost use Rattle.ibx_lockstep.specs.Lockstep.{KeepsMain};
ghost use Rattle.ibx_lockstep.specs.Paired.{finds, given, lockstep_of, stepped, with_delayed};
ghost use Rattle.ibx_lockstep.specs.Rings.{back_of, pushed};
ghost use Rattle.ibx_lockstep.specs.Seen.{seen};
ghost use Rattle.ibx_lockstep.specs.Told.{AnswersEach, AnswersLater, AnswersNone};
ghost use Rattle.ibx_lockstep.specs.Lending.{LendsMain, LendsShadow};

use crate::core_cycle::CoreCycle;
use crate::core_step::CoreStep;
use crate::delay::Delay;
use crate::ring::Ring;
use crate::slots::Slots;

// The depth of the rings, as many as the longest delay has cycles. They are reached by their slots: a call at the type
// `Ring<C::In, DEPTH>` itself would owe a bound on the size of the wires, and a core gives none.
const DEPTH: usize = 4;

/// Main and its shadow, with main's last inputs and outputs, as many as the delay has cycles.
#[derive(Drop)]
pub struct Pair<C: CoreStep> {
    main: C,
    shadow: C,
    inputs: Ring<C::In, DEPTH>,
    outputs: Ring<C::Out, DEPTH>,
    delay: Delay,
    // The cycles since `new`, up to the delay. A greater value acts as the delay.
    age: u8,
    // Whether the cycle before found a difference.
    told: bool,
}

impl<C: CoreStep> Pair<C> {
    /// A pair with this delay, with `age` 0, with nothing found, and with `i` and `o` in each delayed pair.
    pub fn new(main: C, shadow: C, delay: Delay, i: C::In, o: C::Out) -> Pair<C>
        ensures made { seen result ≡ record {
          delay = cycles_of delay;
          main = main;
          shadow = shadow;
          delayed = replicate (cycles_of delay) (i, o);
          age = 0;
          told = false;
        } }
        ensures tells { main ≡ shadow → AnswersLater C.gives C.agree C.leaves (seen result) }
        ensures notices { main ≡ shadow → AnswersEach C.gives C.agree C.leaves (seen result) }
        ensures quiet { main ≡ shadow → AnswersNone C.gives C.agree C.leaves (seen result) }
        ensures keeps { KeepsMain (cycles_of delay) C.gives C.leaves (lockstep_of (seen result)) }
    {
        Pair {
            main,
            shadow,
            inputs: Ring {
                slots: Slots::new(i),
            },
            outputs: Ring {
                slots: Slots::new(o),
            },
            delay,
            age: 0,
            told: false,
        }
    }

    /// Main, whose outputs are those of the pair.
    pub fn main(&self) -> &C
        ensures { result.now ≡ (seen self.now).main }
    {
        &self.main
    }

    /// Main, to be changed. All else stays.
    pub fn main_mut(&mut self) -> &mut C
        ensures* lends { sem 𝓛 (LendsMain C.row C.In.row C.Out.row self.entry result) }
        ensures value { result.now ≡ (seen self.old).main }
    {
        &mut self.main
    }

    /// The shadow, to be changed. All else stays.
    pub fn shadow_mut(&mut self) -> &mut C
        ensures* lends { sem 𝓛 (LendsShadow C.row C.In.row C.Out.row self.entry result) }
        ensures value { result.now ≡ (seen self.old).shadow }
    {
        &mut self.shadow
    }

    /// The cycles by which the shadow is behind main.
    pub fn behind(&self) -> u8
        ensures { result ≡ (seen self.now).delay }
    {
        self.delay.cycles()
    }

    /// A delayed input with main's output for it: slot 0 is the oldest pair.
    pub fn delay(&self, slot: u8) -> (C::In, C::Out)
        requires { slot < (seen self.now).delay }
        ensures { slice_get (seen self.now).delayed slot ≡ Some result }
    {
        let back = self.delay.cycles() - slot;
        (
            self.inputs.slots.back(DEPTH, back),
            self.outputs.slots.back(DEPTH, back),
        )
    }

    /// Puts `i` and `o` in place of a delayed pair: slot 0 is the oldest.
    pub fn set_delay(&mut self, slot: u8, i: C::In, o: C::Out)
        requires { slot < (seen self.old).delay }
        ensures { seen self.new ≡ with_delayed (seen self.old) slot (i, o) }
    {
        let back = self.delay.cycles() - slot;
        self.inputs.slots.set_back(DEPTH, back, i);
        self.outputs.slots.set_back(DEPTH, back, o);
    }

    /// The cycles since `new`, up to the delay, or what was set since.
    pub fn age(&self) -> u8
        ensures { result ≡ (seen self.now).age }
    {
        self.age
    }

    /// Sets the age, below 8. An age above the delay acts as the delay and becomes it in the next step.
    pub fn set_age(&mut self, age: u8)
        requires { age < 8 }
        ensures { seen self.new ≡ record (seen self.old) { age = age } }
    {
        self.age = age;
    }

    /// Whether the cycle before found a difference, or what was set since: what the next cycle tells.
    pub fn told(&self) -> bool
        ensures { result ≡ (seen self.now).told }
    {
        self.told
    }

    /// Sets what the next cycle tells.
    pub fn set_told(&mut self, told: bool)
        ensures { seen self.new ≡ record (seen self.old) { told = told } }
    {
        self.told = told;
    }

    /// Ends a cycle with main's input `i` and its output `o`, and says whether the cycle before found a difference:
    /// whether, from the age of the delay on, the shadow's output for the oldest input wasn't the same as the oldest
    /// output.
    pub fn step(&mut self, i: &C::In, o: &C::Out) -> bool
        requires { o.now ≡ C.gives (seen self.old).main i.now }
        ensures told { result ≡ (seen self.old).told }
        ensures moved { seen self.new ≡ stepped C.gives C.agree C.leaves (seen self.old) i.now o.now }
    {
        let told = self.told;
        let found = self.finds();
        self.follow();
        self.main.advance(i);
        self.delay_on(i, o, found);
        told
    }

    // Puts main's input and output in as the newest pair, counts the cycle, and keeps what it found.
    #[inline(always)]
    fn delay_on(&mut self, i: &C::In, o: &C::Out, found: bool)
        ensures { self.new ≡ record self.old {
          inputs = pushed self.old.inputs i.now;
          outputs = pushed self.old.outputs o.now;
          age = min (self.old.age + 1) (cycles_of self.old.delay);
          told = found;
        } }
    {
        let delay = self.delay.cycles();
        self.inputs.slots.push(DEPTH, i);
        self.outputs.slots.push(DEPTH, o);
        self.age = if self.age >= delay {
            delay
        } else {
            self.age + 1
        };
        self.told = found;
    }

    // Compares the shadow's output for the oldest input with the oldest output, once the shadow moves.
    fn finds(&self) -> bool
        ensures { result ≡ finds C.gives C.agree (seen self.now) }
    {
        let delay = self.delay.cycles();
        let input = self.inputs.slots.back_ref(DEPTH, delay);
        let output = self.outputs.slots.back_ref(DEPTH, delay);
        self.age >= delay && !C::same(&self.shadow.out(input), output)
    }

    // Moves the shadow by the oldest input, where as many cycles as the delay have gone by.
    fn follow(&mut self)
        ensures { self.new ≡ record self.old {
          shadow = (if nat_le (cycles_of self.old.delay) self.old.age
              then C.leaves self.old.shadow (back_of self.old.inputs (cycles_of self.old.delay))
              else self.old.shadow);
        } }
    {
        let delay = self.delay.cycles();
        if self.age >= delay {
            self.shadow
                .advance(self.inputs.slots.back_ref(DEPTH, delay));
        }
    }
}

impl<C: CoreCycle> Pair<C> {
    /// Begins main's cycle with the input `i`, and puts main's output into `o`. All else stays.
    #[inline(always)]
    pub fn begin(&mut self, i: &C::In, o: &mut C::Out)
        ensures output { o.new ≡ C.gives (seen self.old).main i.now }
        ensures begun { C.begun (seen self.old).main i.now (seen self.new).main }
        ensures rest { seen self.new ≡ record (seen self.old) { main = (seen self.new).main } }
    {
        self.main.begin(i, o);
    }

    /// Ends a cycle that main has begun, as `step` does, with main's input `i` and output `o`. The shadow makes its
    /// cycle once, and puts its output into `own`, from the age of the delay on.
    #[inline(always)]
    pub fn finish(&mut self, i: &C::In, o: &C::Out, own: &mut C::Out) -> bool
        ensures told { result ≡ (seen self.old).told }
        ensures moved { (main : C) → C.begun main i.now (seen self.old).main → o.now ≡ C.gives main i.now
            → seen self.new
            ≡ stepped C.gives C.agree C.leaves (record (seen self.old) { main = main }) i.now o.now }
        ensures own { own.new ≡ (if nat_le (seen self.old).delay (seen self.old).age
            then given C.gives (seen self.old).shadow (seen self.old).delayed own.old else own.old) }
    {
        let told = self.told;
        let found = self.follow_once(own);
        self.main.finish(i, o);
        self.delay_on(i, o, found);
        told
    }

    // Moves the shadow by the oldest input, where as many cycles as the delay have gone by, and compares its output on
    // the way.
    #[inline(always)]
    fn follow_once(&mut self, own: &mut C::Out) -> bool
        ensures found { result ≡ finds C.gives C.agree (seen self.old) }
        ensures own { own.new ≡ (if nat_le (cycles_of self.old.delay) self.old.age
            then C.gives self.old.shadow (back_of self.old.inputs (cycles_of self.old.delay)) else own.old) }
        ensures moved { self.new ≡ record self.old {
          shadow = (if nat_le (cycles_of self.old.delay) self.old.age
              then C.leaves self.old.shadow (back_of self.old.inputs (cycles_of self.old.delay))
              else self.old.shadow);
        } }
    {
        let delay = self.delay.cycles();
        if self.age < delay {
            return false;
        }
        let input = self.inputs.slots.back_ref(DEPTH, delay);
        self.shadow.begin(input, own);
        self.shadow.finish(input, own);
        !C::same(own, self.outputs.slots.back_ref(DEPTH, delay))
    }
}
