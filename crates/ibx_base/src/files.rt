ghost use Rattle.std.specs.Prelude.{◌≡◌, ◌≤◌, ℕ, List, Option, length, IfOk, OnOk, OnErr, None, IsSome};
ghost use Rattle.ibx_base.specs.Counts.{HasCause};
ghost use Rattle.ibx_base.specs.Files.{Contents, Begun, Begins, CountsMiss, ReadsFrom};

use crate::status::Failed;

/// Named files, one of which is begun at a time. An implementation may tell what they hold; it always
/// counts the faults that it met, and the names that weren't there.
pub trait Files {
    /// The bytes of each name, where they are told.
    ghost contents: { Self → Option Contents };

    /// The file that was begun, where the bytes are told.
    ghost begun: { Self → Option Begun };

    /// How many calls failed.
    ghost faults: { Self → ℕ };

    /// How many names weren't there.
    ghost misses: { Self → ℕ };

    /// Starts a file from its first byte. `Failed` comes only where the count of faults rose, and then no
    /// file is begun.
    fn begin(&mut self, name: &str) -> Result<(), Failed>
        ensures kept { contents self.new ≡ contents self.old }
        ensures begun { OnOk result (Begins (contents self.old) name.now (begun self.new)) }
        ensures none { OnErr result (begun self.new ≡ None) }
        ensures cause { HasCause (faults self.old) (faults self.new) result }
        ensures misses { CountsMiss (contents self.old) name.now (misses self.old) (misses self.new) };

    /// Puts the next bytes of the begun file at the front of `buf` and answers how many. 0 for a buffer
    /// that isn't empty means the end of the file, or that none is begun. `Failed` comes only where the
    /// count of faults rose, and then the bytes left are as before.
    fn read(&mut self, buf: &mut [u8]) -> Result<usize, Failed>
        ensures kept { contents self.new ≡ contents self.old }
        ensures within { IfOk result (λ count. count ≤ length buf.old) }
        ensures bytes { IfOk result (λ count. ReadsFrom (begun self.old) buf.old count (begun self.new) buf.new) }
        ensures nothing { IfOk result (λ count. IsSome (contents self.old) → begun self.old ≡ None → count ≡ 0) }
        ensures left { OnErr result (begun self.new ≡ begun self.old) }
        ensures cause { HasCause (faults self.old) (faults self.new) result }
        ensures misses { misses self.new ≡ misses self.old };
}
