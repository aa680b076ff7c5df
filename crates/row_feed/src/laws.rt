//! What holds of all feeds. The law is the contract of a function that does nothing.

ghost use Rattle.std.specs.Prelude.{◌+◌, ◌^◌, ◌<◌};
ghost use Rattle.row_feed.specs.Feed.{room_of};

use crate::feed::RowFeed;
use lean_io::Hand;

/// A feed gives fewer than 2^40 items, its last one counted: each row that is given leaves less room.
pub fn feed_is_short<H: Hand>(feed: &RowFeed<H>)
    ensures { room_of feed.now + 1 < 2 ^ 40 }
{
    let _ = feed;
}
