use lean_items::{FeedKey, FeedNo};

/// What changes behind a moment: feeds that are to be added, in this order, and feeds that are to be removed.
#[derive(Drop)]
pub struct Changes {
    pub added: Vec<FeedKey>,
    pub removed: Vec<FeedNo>,
}
