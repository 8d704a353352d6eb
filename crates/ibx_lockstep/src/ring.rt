ghost use Rattle.std.specs.Prelude.{◌≡◌, ◌≢◌, ◌-◌, ◌≤◌, ◌<◌, ℕ, List, ◌∷◌, Some, replicate, take, slice_get};
ghost use Rattle.std.specs.Prelude.{slice_index_or, slice_set};
ghost use Rattle.ibx_lockstep.specs.Rings.{after_push, after_pushes, back_of, filled, fresh, pushed, put, recent};
ghost use Rattle.ibx_lockstep.specs.Rings.{slot, value_back, with_back, with_value_back};

use crate::slots::Slots;

/// The last `D` values of a line of delay, with D from 1 to 4. Every value of the fields is a state.
#[derive(Clone, Copy)]
pub struct Ring<T: Copy, const D: usize> {
    pub(crate) slots: Slots<T>,
}

impl<T: Copy, const D: usize> Ring<T, D> {
    /// A ring that acts as if `first` had always been pushed.
    pub fn new(first: T) -> Ring<T, D>
        requires some { 1 ≤ D }
        requires four { D ≤ 4 }
        ensures value { result ≡ fresh first }
        ensures recent { recent result ≡ replicate D first }
        // the k-th push before now, and the first value where there were fewer; the newest push stands first in the
        // list
        ensures law { (xs : List T) (k : ℕ) → 1 ≤ k → k ≤ D → back_of (after_pushes result xs) k
            ≡ slice_index_or xs (k - 1) first }
    {
        Ring {
            slots: Slots::new(first),
        }
    }

    /// Pushes `x` as the newest value. The oldest is lost.
    pub fn push(&mut self, x: T)
        requires some { 1 ≤ D }
        requires four { D ≤ 4 }
        ensures value { self.new ≡ pushed self.old x }
        ensures recent { recent self.new ≡ take D (x ∷ recent self.old) }
        ensures newest { back_of self.new 1 ≡ x }
        ensures older { (k : ℕ) → 1 < k → k ≤ D → back_of self.new k ≡ back_of self.old (k - 1) }
    {
        self.slots.push(D, &x);
    }

    /// The value of the k-th push before now, k from 1 to D.
    pub fn back(&self, k: u8) -> T
        requires some { 1 ≤ k }
        requires kept { k ≤ D }
        requires four { D ≤ 4 }
        ensures value { result ≡ back_of self.now k }
        ensures recent { slice_get (recent self.now) (k - 1) ≡ Some result }
    {
        self.slots.back(D, k)
    }

    /// Puts `x` in the place of the value of the k-th push before now, k from 1 to D. The other values stay.
    pub fn set_back(&mut self, k: u8, x: T)
        requires some { 1 ≤ k }
        requires kept { k ≤ D }
        requires four { D ≤ 4 }
        ensures value { self.new ≡ with_back self.old k x }
        ensures recent { recent self.new ≡ slice_set (recent self.old) (k - 1) x }
        ensures here { back_of self.new k ≡ x }
        ensures others { (j : ℕ) → 1 ≤ j → j ≤ D → j ≢ k → back_of self.new j ≡ back_of self.old j }
    {
        self.slots.set_back(D, k, x);
    }
}
