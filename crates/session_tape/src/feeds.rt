//! The feeds of the symbols and their first heads.
ghost use Rattle.std.specs.Prelude.{◌≡◌, ℕ, ◌+◌, ◌≤◌, ◌<◌, pos, List, [], length, OnOk};
ghost use Rattle.std.specs.List.{All};
ghost use Rattle.lean_fixed.specs.Moments.{first_moment};
ghost use Rattle.lean_fixed.specs.Ranges.{IsWindow};
ghost use Rattle.lean_io.specs.Told.{Files};
ghost use Rattle.lean_items.specs.declared.feed_key.FeedKey.{FeedKey as Key};
ghost use Rattle.lean_items.specs.declared.item.Item.{Item as GivenItem};
ghost use Rattle.lean_items.specs.Given.{end_of};
ghost use Rattle.lean_items.specs.Taken.{Start, Feeds, AllFollow, no_feeds};
ghost use Rattle.exchange_hours.specs.Entries.{Entries};
ghost use Rattle.frontier_sync.specs.Heads.{AreOpen, EndsFrom};
ghost use Rattle.frontier_sync.specs.Stands.{IsTaken, HeadsStand};
ghost use Rattle.frontier_sync.specs.Stays.{Stays};
ghost use Rattle.session_tape.specs.Session.{session_key};
ghost use Rattle.session_tape.specs.Walked.{keys_of, AreFeeds};

use frontier_sync::{Heads, first_head};
use lean_fixed::{NoMemory, Resolution, Symbol, Window};
use lean_items::{FeedKey, FeedKind, Pool};
use std::alloc::Global;

// Adds the feeds of the symbols to a new pool, and takes the first head of each.
pub(crate) fn open_feeds<P: Pool>(
    alloc: Global,
    pool: &mut P,
    resolution: Resolution,
    window: Window,
    symbols: &[Symbol],
    heads: &mut Heads,
) -> Result<(), NoMemory>
    requires new { P.added pool.old ≡ 0 }
    requires window { IsWindow window }
    requires few { length symbols.now ≤ 64 }
    requires none { heads.old ≡ [] }
    ensures opened { OnOk result (AreOpen (P.is_open pool.new) heads.new) }
    ensures numbered { OnOk result (All (λ a. a.feed.0 < length symbols.now) heads.new) }
    ensures later { OnOk result (All (λ a. EndsFrom (pos (first_moment window + 1)) (end_of a.item)) heads.new) }
    ensures stands { (start : Start) → P.stands pool.old start no_feeds
        → (feeds : Feeds) × P.stands pool.new start feeds
        × OnOk result (All (IsTaken feeds) heads.new
        × ((lists : Key → List GivenItem) (f : Files) (hours : Entries) → AreFeeds lists f hours window
        → AllFollow lists feeds → HeadsStand (pos (first_moment window + 1)) feeds 0 heads.new (keys_of resolution window symbols.now))) }
    ensures stays { Stays P.files P.lists P.faults P.place pool.old pool.new }
{
    'symbols: for place in 0..symbols.len() {
        let feed = pool.add(alloc, key_of(resolution, window, &symbols[place]))?;
        let item = first_head(pool, feed, window.first_moment());
        heads.set(feed, item)?;
    }
    Ok(())
}

// The feed of a symbol, which starts with the window and does not fill forward.
fn key_of(resolution: Resolution, window: Window, symbol: &Symbol) -> FeedKey
    requires { IsWindow window }
    ensures { result ≡ session_key resolution window symbol.now }
{
    FeedKey {
        kind: FeedKind::Equity(*symbol, resolution),
        start: window.first_moment(),
        fill: false,
    }
}
