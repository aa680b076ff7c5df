use crate::Away;
use lean_items::Feed;
use work_scheduler::Turn;

/// Where the turn of a feed is.
#[derive(Drop)]
pub enum Spot<G: Feed> {
    /// Here, and it may go out.
    Ready(Away<G>),
    /// Here, for good.
    Home(Turn<G>),
    /// With a worker, or in the ring.
    Out,
}
