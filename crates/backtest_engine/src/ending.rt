use crate::limits::Limit;
use lean_items::{Bad, FeedKey};

/// How the moments of a run ended.
#[derive(Clone, Copy)]
pub(crate) enum Ending {
    /// All were played.
    Whole,
    /// A malformed line of the feed of this key is due.
    Refused(FeedKey, Bad),
    /// The next item of a feed is a failed read.
    Faulted,
}

/// Why a run is cut short within a moment.
#[derive(Clone, Copy)]
pub(crate) enum Cut {
    NoMemory,
    WriteFault,
    /// The next item of the coarse feed is a failed read, so that the slice is not whole.
    ReadFault,
    Limited(Limit),
}
