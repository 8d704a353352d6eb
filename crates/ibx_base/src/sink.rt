ghost use Rattle.std.specs.Prelude.{◌≡◌, ◌<◌, ◌≤◌, ℕ, List, Option, length, take, IfOk, OnErr};
ghost use Rattle.ibx_base.specs.Counts.{HasCause};
ghost use Rattle.ibx_base.specs.Sinks.{with_more};

use crate::status::Failed;

/// Takes bytes. An implementation may tell what it took; it always counts the faults that it met.
pub trait Sink {
    /// The bytes taken so far, where they are told.
    ghost taken: { Self → Option (List ℕ) };

    /// How many calls failed.
    ghost faults: { Self → ℕ };

    /// Takes a prefix of the piece and answers its length, at least 1 for a piece that isn't empty.
    /// `Failed` comes only where the count of faults rose, and then nothing was taken.
    fn write(&mut self, piece: &[u8]) -> Result<usize, Failed>
        ensures within { IfOk result (λ count. count ≤ length piece.now) }
        ensures progress { IfOk result (λ count. 0 < length piece.now → 0 < count) }
        ensures bytes { IfOk result (λ count. taken self.new ≡ with_more (taken self.old) (take count piece.now)) }
        ensures same { OnErr result (taken self.new ≡ taken self.old) }
        ensures cause { HasCause (faults self.old) (faults self.new) result };
}
