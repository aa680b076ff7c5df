/// The number of a feed: how many were added before it.
#[derive(Clone, Copy, Debug, PartialEq, Eq)]
pub struct FeedNo(pub u64);
