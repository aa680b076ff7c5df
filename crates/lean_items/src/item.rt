use crate::{Bad, Bar, CoarseRow};
use lean_fixed::Moment;

/// What a feed gives next. After `Bad`, `Faulted` or `End` it gives nothing more.
#[derive(Clone, Copy, Debug, PartialEq, Eq)]
pub enum Item {
    /// A bar, which is known from its end on.
    Bar(Bar),
    /// A row of a coarse universe file, and the moment from which on it is known.
    Coarse(Moment, CoarseRow),
    /// A malformed line.
    Bad(Bad),
    /// A read that failed.
    Faulted,
    /// There is nothing more up to the end of the window.
    End,
}
