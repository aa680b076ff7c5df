ghost use Rattle.std.specs.Prelude.{◌≡◌, ◌+◌, ◌<◌, ◌^◌, OnOk};
ghost use Rattle.lean_fixed.specs.Ranges.{IsMoment};
ghost use Rattle.frontier_sync.specs.Heads.{AreOpen};

use frontier_sync::{Heads, first_head};
use lean_fixed::NoMemory;
use lean_items::{FeedKey, FeedNo, Pool};
use std::alloc::Global;

/// Adds the feed of a key to a pool, and sets its first head. Each feed whose head is a row is then open.
pub fn begin<P: Pool>(
    alloc: Global,
    pool: &mut P,
    heads: &mut Heads,
    key: FeedKey,
) -> Result<FeedNo, NoMemory>
    requires few { P.added pool.old < 2 ^ 60 }
    requires key { IsMoment key.start.0 }
    requires opened { AreOpen (P.is_open pool.old) heads.old }
    ensures added { OnOk result (P.added pool.new ≡ P.added pool.old + 1) }
    ensures opened { OnOk result (AreOpen (P.is_open pool.new) heads.new) }
{
    let start = key.start;
    let feed = pool.add(alloc, key)?;
    let item = first_head(pool, *&feed, start);
    heads.set(*&feed, item)?;
    Ok(feed)
}

/// Removes a feed from a pool, and takes its head away. Each other feed whose head is a row is open as before.
pub fn leave<P: Pool>(pool: &mut P, heads: &mut Heads, feed: FeedNo)
    requires opened { AreOpen (P.is_open pool.old) heads.old }
    ensures added { P.added pool.new ≡ P.added pool.old }
    ensures opened { AreOpen (P.is_open pool.new) heads.new }
{
    pool.remove(*&feed);
    heads.forget(*&feed);
}
