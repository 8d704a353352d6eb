use ibx_isa::View;

/// How two stories compare, event by event.
#[derive(Clone, Copy, Debug, PartialEq, Eq)]
pub enum Twin {
    /// Both have so many events, with equal views.
    Same(u64),
    /// The index, counted from 0, of the first event at which the views differ or one story has ended, with the view of
    /// each story there; None where it has ended.
    Differ {
        at: u64,
        a: Option<View>,
        b: Option<View>,
    },
}
