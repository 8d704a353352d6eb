ghost use Rattle.std.specs.Prelude.{◌≡◌};

use crate::core_step::CoreStep;

/// A core that makes a cycle in place, in two halves: `begin` gives the output, and `finish` ends the cycle once it is
/// known what was granted.
pub trait CoreCycle: CoreStep {
    // whether a core in the middle of a cycle is what this one has become with this input, whatever is granted
    ghost begun: { Self → Self.In → Self → Type 0 };

    /// Begins a cycle with the input `i`: puts the output, which is that of `out`, into `o`, and moves all that no
    /// grant decides.
    fn begin(&mut self, i: &Self::In, o: &mut Self::Out)
        ensures output { o.new ≡ Self.gives self.old i.now }
        ensures begun { begun self.old i.now self.new };

    /// Ends the cycle of a core that has begun it, with the input `i` and the output `o` of that cycle, and becomes
    /// what `advance` makes of it.
    fn finish(&mut self, i: &Self::In, o: &Self::Out)
        ensures { (x : Self) → begun x i.now self.old → o.now ≡ Self.gives x i.now → self.new ≡ Self.leaves x i.now };
}
