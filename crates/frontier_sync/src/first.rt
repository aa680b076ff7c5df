//! The first head of a feed.
ghost use Rattle.std.specs.Prelude.{◌≡◌, ◌==◌, true, false, not, if◌then◌else◌, ℕ, List, [], ◌∷◌, ◌++◌};
ghost use Rattle.std.specs.List.{All};
ghost use Rattle.lean_items.specs.declared.item.Item.{Item as GivenItem};
ghost use Rattle.lean_items.specs.Given.{is_last};
ghost use Rattle.frontier_sync.specs.Heads.{fits_first};
ghost use Rattle.frontier_sync.specs.Slices.{TakesOfOne};
ghost use Rattle.frontier_sync.specs.Stays.{Stays};

use crate::taking::take_fitting;
use lean_fixed::Moment;
use lean_items::{FeedNo, Item, Pool};

/// Takes the first head of a feed. A row that ends at the feed's start or before it is passed over, and so is one whose
/// numbers are out of their ranges.
pub fn first_head<P: Pool>(pool: &mut P, feed: FeedNo, start: Moment) -> Item
    requires opened { P.is_open pool.old feed.0 ≡ true }
    ensures fits { fits_first start.0 result ≡ true }
    ensures took { (passed : List GivenItem) × All (λ item. fits_first start.0 item ≡ false) passed
        × TakesOfOne (P.stands pool.old) (P.stands pool.new) feed.0 (passed ++ result ∷ []) }
    ensures opened { (n : ℕ) → P.is_open pool.new n
        ≡ (if n == feed.0 then not (is_last result) else P.is_open pool.old n) }
    ensures added { P.added pool.new ≡ P.added pool.old }
    ensures stays { Stays P.files P.lists P.faults P.place pool.old pool.new }
{
    take_fitting(pool, feed, start, true)
}
