use crate::{FeedNo, Item};

/// What a feed gave.
#[derive(Clone, Copy, Debug, PartialEq, Eq)]
pub struct Arrival {
    pub feed: FeedNo,
    pub item: Item,
}
