use crate::Away;
use lean_items::{Feed, FeedNo};

/// What a worker is to do: to read a feed from now on, or to let its turn go home.
#[derive(Drop)]
pub(crate) enum Errand<G: Feed> {
    Take(FeedNo, Away<G>),
    Leave(FeedNo),
}
