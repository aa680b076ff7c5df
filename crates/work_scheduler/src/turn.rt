ghost use Rattle.std.specs.Prelude.{◌≡◌, ◌+◌, ◌^◌, ◌<◌, length};
ghost use Rattle.feed_queue.specs.Lanes.{sent_of};
ghost use Rattle.work_scheduler.specs.Served.{held_count, left_count, IsTied};

use feed_queue::Writer;
use lean_items::{Feed, Item};

/// A feed, the end of the lane that its items are sent into, and the item in hand. A turn is pumped by one thread at a time, and
/// moves from one to another.
#[derive(Drop)]
pub struct Turn<G: Feed> {
    pub(crate) feed: G,
    pub(crate) out: Writer<Item>,
    pub(crate) held: Option<Item>,
    // Whether the feed gave its last item.
    pub(crate) over: bool,
    ghost told: { over ≡ G.has_ended feed },
    ghost tied: { IsTied held over },
    ghost few: { length (sent_of out) + held_count held + left_count over (G.room feed) < 2 ^ 40 },
}
