//! The next item of a feed that fits.
ghost use Rattle.std.specs.Prelude.{◌≡◌, ◌<◌, ◌==◌, true, false, not, if◌then◌else◌, ℕ, List, [], ◌∷◌, ◌++◌};
ghost use Rattle.std.specs.List.{All};
ghost use Rattle.lean_items.specs.declared.item.Item.{Item as GivenItem};
ghost use Rattle.lean_items.specs.Given.{is_last, OnRow};
ghost use Rattle.frontier_sync.specs.Heads.{fits_first, fits_by};
ghost use Rattle.frontier_sync.specs.Slices.{TakesOfOne};
ghost use Rattle.frontier_sync.specs.Stays.{Stays};

use crate::fits::fits;
use lean_fixed::Moment;
use lean_items::{FeedNo, Item, Pool};

// Takes the next item of a feed that may be its first head, where its feed starts at a moment, or that fits behind one that ends
// at the moment. What does not is passed over.
pub(crate) fn take_fitting<P: Pool>(pool: &mut P, feed: FeedNo, after: Moment, first: bool) -> Item
    requires opened { P.is_open pool.old feed.0 ≡ true }
    ensures fits { fits_by first after.0 result ≡ true }
    ensures took { (passed : List GivenItem) × All (λ item. fits_by first after.0 item ≡ false) passed
        × TakesOfOne (P.stands pool.old) (P.stands pool.new) feed.0 (passed ++ result ∷ []) }
    ensures opened { (n : ℕ) → P.is_open pool.new n
        ≡ (if n == feed.0 then not (is_last result) else P.is_open pool.old n) }
    ensures fewer { OnRow result (P.room pool.new feed.0 < P.room pool.old feed.0) }
    ensures added { P.added pool.new ≡ P.added pool.old }
    ensures stays { Stays P.files P.lists P.faults P.place pool.old pool.new }
{
    'taken: loop {
        let item = pool.take(feed);
        if fits_by(first, after, &item) {
            return item;
        }
    }
}

#[inline(always)]
fn fits_by(first: bool, after: Moment, item: &Item) -> bool
    ensures { result ≡ fits_by first after.0 item.now }
{
    if first {
        fits_first(after, item)
    } else {
        fits(after, item)
    }
}

// Whether an item may be the first head of a feed.
fn fits_first(start: Moment, item: &Item) -> bool
    ensures { result ≡ fits_first start.0 item.now }
{
    match item {
        Item::Bar(bar) => start.0 < bar.end.0 && bar.is_in_range(),
        Item::Coarse(at, row) => start.0 < at.0 && row.is_in_range(*at),
        Item::Bad(_) => true,
        Item::Faulted => true,
        Item::End => true,
    }
}
