/// What a plan may say in one run.
#[derive(Clone, Copy)]
pub struct Bounds {
    /// The words of RAM; a flip of a RAM word names one below it.
    pub ram_words: u32,
    /// The cycles by which the shadow core is behind main; a flip of a delayed wire names a slot below it.
    pub delay: u8,
    /// How many flips the plan has: 0, or 1, which it then has to have. More than 1 counts as 1.
    pub flips: u32,
    /// The cycles of the run; a flip is made in one below it.
    pub cycles: u64,
}

/// Why a line is refused: the first of these that holds.
#[derive(Clone, Copy, Debug, PartialEq, Eq)]
pub enum LineKind {
    /// The first word, the site's word or a name is unknown, or the count of words isn't the row's.
    Word,
    /// A word in a number's place is no number.
    Number,
    /// A number is out of its range.
    Range,
    /// The cycle of an `irq` line isn't greater than that of the `irq` line before it.
    Order,
    /// The run takes no flip, or the plan has one already.
    Flip,
}

/// Why a plan is refused. Lines are counted from 1, and the first line that is refused decides.
#[derive(Clone, Copy, Debug, PartialEq, Eq)]
pub enum PlanFault {
    /// A line that doesn't fit.
    Line(u32, LineKind),
    /// A line that fits and is entry 65,537 of `iwait`, `dwait` or `irq`.
    TooMany(u32),
    /// Each line fits, none is a flip, and the run is to have one.
    NoFlip,
    /// There was no memory for the lists.
    Memory,
}
