ghost use Rattle.std.specs.Prelude.{◌≡◌, ◌≢◌, ◌-◌, ◌≤◌, ◌<◌, ℕ};
ghost use Rattle.ibx_lockstep.specs.Rings.{after_push, filled, put, slot, value_back, with_value_back};

/// Four slots and a place: the values of a ring of any depth from 1 to 4, which each call is told. Every value of the
/// fields is a state.
#[derive(Clone, Copy)]
pub(crate) struct Slots<T: Copy> {
    first: T,
    second: T,
    third: T,
    fourth: T,
    // The slot of the next push, modulo the depth.
    place: u8,
}

impl<T: Copy> Slots<T> {
    pub(crate) fn new(first: T) -> Slots<T>
        ensures { result ≡ filled first }
    {
        Slots {
            first,
            second: first,
            third: first,
            fourth: first,
            place: 0,
        }
    }

    #[inline(always)]
    #[tactic(auto, unfolding(crate::specs::Rings::after_push))]
    pub(crate) fn push(&mut self, depth: usize, x: &T)
        requires some { 1 ≤ depth }
        requires four { depth ≤ 4 }
        ensures { self.new ≡ after_push depth self.old x.now }
    {
        let place = self.place as usize % depth;
        self.put(place, x);
        self.place = ((place + 1) % depth) as u8;
    }

    /// The value of the k-th push before now, k from 1 to the depth.
    pub(crate) fn back(&self, depth: usize, k: u8) -> T
        requires some { 1 ≤ k }
        requires kept { k ≤ depth }
        requires four { depth ≤ 4 }
        ensures { result ≡ value_back depth self.now k }
    {
        *self.back_ref(depth, k)
    }

    /// The same value where it stands.
    #[inline(always)]
    #[tactic(auto, unfolding(crate::specs::Rings::value_back))]
    pub(crate) fn back_ref(&self, depth: usize, k: u8) -> &T
        requires some { 1 ≤ k }
        requires kept { k ≤ depth }
        requires four { depth ≤ 4 }
        ensures { result.now ≡ value_back depth self.now k }
    {
        self.slot((self.place as usize + depth - k as usize) % depth)
    }

    /// Puts `x` in the place of the value of the k-th push before now, k from 1 to the depth.
    #[tactic(auto, unfolding(crate::specs::Rings::with_value_back))]
    pub(crate) fn set_back(&mut self, depth: usize, k: u8, x: T)
        requires some { 1 ≤ k }
        requires kept { k ≤ depth }
        requires four { depth ≤ 4 }
        ensures { self.new ≡ with_value_back depth self.old k x }
    {
        self.put((self.place as usize + depth - k as usize) % depth, &x);
    }

    #[inline(always)]
    #[tactic(auto, unfolding(crate::specs::Rings::slot))]
    fn slot(&self, index: usize) -> &T
        ensures { result.now ≡ slot self.now index }
    {
        match index {
            0 => &self.first,
            1 => &self.second,
            2 => &self.third,
            _ => &self.fourth,
        }
    }

    #[inline(always)]
    #[tactic(auto, unfolding(crate::specs::Rings::put))]
    fn put(&mut self, index: usize, x: &T)
        ensures { self.new ≡ put self.old index x.now }
    {
        match index {
            0 => self.first = *x,
            1 => self.second = *x,
            2 => self.third = *x,
            _ => self.fourth = *x,
        }
    }
}
