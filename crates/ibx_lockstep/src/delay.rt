ghost use Rattle.std.specs.Prelude.{◌≡◌, ◌≤◌};
ghost use Rattle.ibx_lockstep.specs.Delays.{cycles_of};

/// By how many cycles the shadow is behind main.
#[derive(Clone, Copy, Debug, PartialEq, Eq)]
pub enum Delay {
    One,
    Two,
    Three,
    Four,
}

impl Delay {
    /// The delay of so many cycles, from 1 to 4.
    pub fn of(cycles: u8) -> Delay
        requires some { 1 ≤ cycles }
        requires four { cycles ≤ 4 }
        ensures { cycles_of result ≡ cycles }
    {
        match cycles {
            1 => Delay::One,
            2 => Delay::Two,
            3 => Delay::Three,
            _ => Delay::Four,
        }
    }

    /// The cycles of a delay.
    #[inline(always)]
    pub fn cycles(self) -> u8
        ensures value { result ≡ cycles_of self }
        ensures some { 1 ≤ result }
        ensures four { result ≤ 4 }
    {
        match self {
            Delay::One => 1,
            Delay::Two => 2,
            Delay::Three => 3,
            Delay::Four => 4,
        }
    }
}
