//! Takes the items that end at a moment, and the heads that follow them.
ghost use Rattle.std.specs.Prelude.{◌≡◌, ◌≢◌, ℕ, true, List, ◌++◌, map, OnOk, IfOk};
ghost use Rattle.lean_items.specs.declared.arrival.Arrival.{Arrival};
ghost use Rattle.lean_items.specs.declared.item.Item.{Item};
ghost use Rattle.lean_items.specs.Given.{IsRow};
ghost use Rattle.frontier_sync.specs.Heads.{arrival, AreRising, AreOpen};
ghost use Rattle.frontier_sync.specs.Seen.{IsSeen};
ghost use Rattle.frontier_sync.specs.Slices.{IsSliced, Refilled, given_of, slice_of, TakesOfHeads, MovesOn, TakesOfOne};
ghost use Rattle.frontier_sync.specs.Stays.{Stays};

use crate::fits::ends_at;
use crate::seen::{Seen, seen_with};
use crate::taking::take_fitting;
use lean_fixed::{Moment, NoMemory};
use lean_items::{Arrival, FeedNo, Item, Pool};

// Refills all heads that end at a moment, and says what was seen of the heads that follow.
pub(crate) fn refill_all<P: Pool>(
    heads: &mut Vec<Arrival>,
    pool: &mut P,
    at: Moment,
    out: &mut Vec<Arrival>,
) -> Result<Seen, NoMemory>
    requires rising { AreRising heads.old.items }
    requires opened { AreOpen (P.is_open pool.old) heads.old.items }
    ensures rising { AreRising heads.new.items }
    ensures seen { IfOk result (λ seen. IsSeen heads.new.items seen) }
    ensures took { (taken : ℕ → List Item)
        × OnOk result (IsSliced at.0 taken heads.old.items heads.new.items
        × (out.new.items ≡ out.old.items ++ slice_of at.0 taken heads.old.items))
        × MovesOn (P.stands pool.old) (P.stands pool.new) taken
        × TakesOfHeads heads.old.items taken }
    ensures opened { OnOk result (AreOpen (P.is_open pool.new) heads.new.items) }
    ensures front { (more : List Arrival) × (out.new.items ≡ out.old.items ++ more) }
    ensures added { P.added pool.new ≡ P.added pool.old }
    ensures stays { Stays P.files P.lists P.faults P.place pool.old pool.new }
{
    let mut seen = Seen::Calm(None);
    'heads: for place in 0..heads.len() {
        let head = &mut heads[place];
        refill(pool, head, at, out)?;
        seen = seen_with(seen, &head.item);
    }
    Ok(seen)
}

// Appends the items of one feed that end at a moment, and takes the head that follows.
fn refill<P: Pool>(
    pool: &mut P,
    head: &mut Arrival,
    at: Moment,
    out: &mut Vec<Arrival>,
) -> Result<(), NoMemory>
    requires opened { IsRow head.old.item → P.is_open pool.old head.old.feed.0 ≡ true }
    ensures feed { head.new.feed ≡ head.old.feed }
    ensures took { (taken : List Item)
        × OnOk result (Refilled at.0 head.old.item taken head.new.item
        × (out.new.items ≡ out.old.items
        ++ map (arrival head.old.feed) (given_of at.0 head.old.item taken)))
        × TakesOfOne (P.stands pool.old) (P.stands pool.new) head.old.feed.0 taken }
    ensures opened { IsRow head.new.item → P.is_open pool.new head.old.feed.0 ≡ true }
    ensures others { (n : ℕ) → n ≢ head.old.feed.0 → P.is_open pool.new n ≡ P.is_open pool.old n }
    ensures front { (more : List Arrival) × (out.new.items ≡ out.old.items ++ more) }
    ensures added { P.added pool.new ≡ P.added pool.old }
    ensures stays { Stays P.files P.lists P.faults P.place pool.old pool.new }
{
    let feed = head.feed;
    'items: while ends_at(at, &head.item) {
        out.push(*head)?;
        head.item = take_fitting(pool, feed, at, false);
    }
    Ok(())
}
