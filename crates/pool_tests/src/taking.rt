ghost use Rattle.std.specs.Prelude.{◌≡◌, ◌<◌, ◌≤◌, ◌^◌, false, List, Some, IfOk, OnOk};
ghost use Rattle.std.specs.List.{Contains};
ghost use Rattle.lean_fixed.specs.Counts.{Rose};
ghost use Rattle.lean_fixed.specs.Ranges.{IsMoment};
ghost use Rattle.lean_items.specs.declared.feed_key.FeedKey.{FeedKey as Key};
ghost use Rattle.lean_items.specs.declared.item.Item.{Item as GivenItem};
ghost use Rattle.lean_items.specs.declared.item.Item.TheVariants.{Faulted};
ghost use Rattle.lean_items.specs.Given.{is_last};
ghost use Rattle.lean_items.specs.Taken.{Start, no_feeds, Follows};

use lean_fixed::NoMemory;
use lean_items::{Feed, FeedKey, Item, Pool};
use std::alloc::Global;

/// Takes all items of a feed of a new pool, and finishes the pool. What was taken follows the list of the key, and a failed
/// read is among it only where the pool's count of faults rose.
pub fn take_all<P: Pool>(alloc: Global, pool: &mut P, key: FeedKey) -> Result<Vec<Item>, NoMemory>
    requires few { P.added pool.old < 2 ^ 60 }
    requires key { IsMoment key.start.0 }
    ensures follow { IfOk result (λ items. (before : Start) → P.stands pool.old before no_feeds
        → (lists : Key → List GivenItem) → P.lists pool.old ≡ Some lists → Follows (lists key) items.items) }
    ensures rose { IfOk result (λ items. (before : Start) → P.stands pool.old before no_feeds
        → Contains items.items Faulted → Rose before.faults (P.faults pool.new)) }
    ensures hands { OnOk result ((before : Start) → P.stands pool.old before no_feeds → P.hands pool.new ≡ before.hands) }
    ensures files { P.files pool.new ≡ P.files pool.old }
    ensures grows { P.faults pool.old ≤ P.faults pool.new }
    ensures place { P.place pool.new ≡ P.place pool.old }
{
    let feed = pool.add(alloc, *&key)?;
    let mut items = Vec::new(alloc);
    let mut open = true;
    'items: while open {
        let item = pool.take(*&feed);
        open = !is_last(&item);
        items.push(item)?;
    }
    let _ = pool.finish();
    Ok(items)
}

/// Takes all items of a feed. What was taken follows the list that the feed left, and a failed read is among it only where its
/// count of faults rose.
pub fn take_feed<G: Feed>(alloc: Global, feed: &mut G) -> Result<Vec<Item>, NoMemory>
    requires { G.has_ended feed.old ≡ false }
    ensures follow { IfOk result (λ items. (list : List GivenItem) → G.leaves feed.old list
        → Follows list items.items) }
    ensures rose { IfOk result (λ items. Contains items.items Faulted
        → Rose (G.faults feed.old) (G.faults feed.new)) }
    ensures grows { G.faults feed.old ≤ G.faults feed.new }
{
    let mut items = Vec::new(alloc);
    let mut open = true;
    'items: while open {
        let item = feed.next();
        open = !is_last(&item);
        items.push(item)?;
    }
    Ok(items)
}

// Whether nothing comes behind an item.
fn is_last(item: &Item) -> bool
    ensures { result ≡ is_last item.now }
{
    matches!(item, Item::Bad(_) | Item::Faulted | Item::End)
}
