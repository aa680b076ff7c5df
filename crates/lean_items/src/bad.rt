use crate::Reason;

/// Where a file of a feed says no row, and why: a feed ends there.
#[derive(Clone, Copy, Debug, PartialEq, Eq)]
pub struct Bad {
    /// The number of the file among those of its feed: its day, as days since 1970-01-01, or 0 where there is one file.
    pub file: u32,
    /// The number of the line, counted from 1.
    pub line: u32,
    /// The first reason for which the line gives no row.
    pub reason: Reason,
}
