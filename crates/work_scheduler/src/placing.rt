use crate::Turn;
use lean_items::{Feed, FeedNo};

/// A turn, by the number of its feed.
#[derive(Drop)]
pub struct Placing<G: Feed> {
    pub feed: FeedNo,
    pub turn: Turn<G>,
}
