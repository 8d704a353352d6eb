ghost use Rattle.std.specs.Prelude.{◌≡◌, Bool};

/// A core by what it puts out in a cycle and what the cycle leaves of it. Both are functions of the core's value and
/// the cycle's input alone, so equal cores with equal inputs give equal outputs and become equal cores.
pub trait CoreStep {
    /// The wires into the core in a cycle.
    type In: Copy;

    /// The wires out of it.
    type Out: Copy;

    // what a core puts out for an input
    ghost gives: { Self → Self.In → Self.Out };

    // what a cycle with this input leaves of a core
    ghost leaves: { Self → Self.In → Self };

    // whether the compared wires of two outputs are equal
    ghost agree: { Self.Out → Self.Out → Bool };

    /// The output of a cycle with the input `i`.
    fn out(&self, i: &Self::In) -> Self::Out
        ensures { result ≡ gives self.now i.now };

    /// Ends a cycle with the input `i`.
    fn advance(&mut self, i: &Self::In)
        ensures { self.new ≡ leaves self.old i.now };

    /// Whether the compared wires of two outputs are equal.
    fn same(a: &Self::Out, b: &Self::Out) -> bool
        ensures { result ≡ agree a.now b.now };
}
