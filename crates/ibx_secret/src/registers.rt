ghost use Rattle.std.specs.Prelude.{◌≡◌, ◌<◌, ℕ, false};
ghost use Rattle.ibx_secret.specs.Marks.{Marks, mark_reg};
ghost use Rattle.ibx_secret.specs.Packed.{AreMarksOf, has_mark};

/// The marks of the registers, a bit each; that of x0 is never set.
#[derive(Clone, Copy, Debug, PartialEq, Eq)]
pub struct RegisterMarks {
    pub bits: u32,
}

impl RegisterMarks {
    /// No register is marked.
    pub fn none() -> RegisterMarks
        ensures { (n : ℕ) → has_mark result n ≡ false }
    {
        RegisterMarks { bits: 0 }
    }

    /// Whether the register of a number, 0 to 31, is marked.
    pub fn has(&self, n: u8) -> bool
        requires { n < 32 }
        ensures { result ≡ has_mark self.now n }
    {
        (self.bits >> n) & 1 == 1
    }

    /// The register of a number, 0 to 31, takes a mark, and x0 none.
    pub fn put(&mut self, n: u8, mark: bool)
        requires { n < 32 }
        ensures { (m : Marks) → AreMarksOf m self.old → AreMarksOf (mark_reg m n mark) self.new }
    {
        if n == 0 {
            return;
        }
        if mark {
            self.bits |= 1 << n;
        } else {
            self.bits &= !(1 << n);
        }
    }
}
