use lean_items::{FeedKey, FeedNo};

/// Why a moment can't go on.
#[derive(Clone, Copy, PartialEq, Eq)]
pub enum Stop {
    /// There is no memory.
    NoMemory,
    /// A rule asks for request 1,000,001.
    Requests,
    /// Security 257 would be active.
    Securities,
}

/// What a moment changes in the feeds.
#[derive(Drop)]
pub struct Changes {
    /// The feeds of the securities that are added, in the order of their choice.
    pub added: Vec<FeedKey>,
    /// The feeds of the securities that are removed, by their numbers.
    pub removed: Vec<FeedNo>,
}
