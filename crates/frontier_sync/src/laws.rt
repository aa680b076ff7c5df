//! What is true of all slices and heads. Each law is the contract of a function that does nothing.
ghost use Rattle.std.specs.Prelude.{◌≡◌, ◌⊎◌, ℕ, ℤ, pos, ◌+ℤ◌, ◌≤ℤ◌, ◌<ℤ◌, List, []};
ghost use Rattle.std.specs.List.{All};
ghost use Rattle.lean_items.specs.declared.arrival.Arrival.{Arrival};
ghost use Rattle.lean_items.specs.declared.feed_key.FeedKey.{FeedKey};
ghost use Rattle.lean_items.specs.declared.item.Item.{Item};
ghost use Rattle.frontier_sync.specs.Rising.{AtMoment, PassesNone};
ghost use Rattle.lean_items.specs.Given.{end_of};
ghost use Rattle.lean_items.specs.Taken.{Feeds, AllFollow};
ghost use Rattle.frontier_sync.specs.Heads.{EndsFrom};
ghost use Rattle.frontier_sync.specs.Slices.{Refilled, IsSliced, slice_of, taken_all};
ghost use Rattle.frontier_sync.specs.Stands.{AreBars, AreLists, HeadsStand, IsSound, IsTaken, slice_at};

/// Of a feed whose items rise and whose numbers are in their ranges nothing is passed over: all that was taken of it is
/// given, but for the next head, and this is all of its list that ends at the moment.
pub fn nothing_passed_over()
    ensures { (at : ℤ) (head : Item) (taken rest : List Item) (next : Item) → AtMoment at head taken rest
        → Refilled at head taken next → PassesNone at head taken rest next }
{}

/// The heads in the lists of their feeds, whatever lists the taken items follow. Where nothing was passed over and no head is
/// a failed read, what is given at a moment is what ends then in the lists, and the heads that follow stand at the next
/// moment; up to the least end of the heads nothing ends.
pub fn heads_stand_in_lists()
    ensures step { (lists : FeedKey → List Item) (t : ℤ) (n : ℕ) (feeds : Feeds) (taken : ℕ → List Item)
        (heads after : List Arrival) (keys : List FeedKey) → AreLists lists keys
        → AllFollow lists (taken_all feeds taken) → HeadsStand t feeds n heads keys
        → IsSliced t taken heads after → All IsSound heads
        → All IsSound after ⊎ All (λ key. AreBars (lists key)) keys
        → HeadsStand (t +ℤ pos 1) (taken_all feeds taken) n after keys
        × (slice_of t taken heads ≡ slice_at lists t n keys) }
    ensures quiet { (lists : FeedKey → List Item) (t u s : ℤ) (n : ℕ) (feeds : Feeds)
        (heads : List Arrival) (keys : List FeedKey) → AreLists lists keys → AllFollow lists feeds
        → HeadsStand t feeds n heads keys → All IsSound heads
        → All (λ a. EndsFrom s (end_of a.item)) heads → t ≤ℤ u → u <ℤ s
        → slice_at lists u n keys ≡ [] }
    ensures front { (lists : FeedKey → List Item) (feeds : Feeds) (taken : ℕ → List Item)
        → AllFollow lists (taken_all feeds taken) → AllFollow lists feeds }
    ensures taken { (at : ℤ) (feeds : Feeds) (taken : ℕ → List Item) (heads after : List Arrival)
        → All (IsTaken feeds) heads → IsSliced at taken heads after
        → All (IsTaken (taken_all feeds taken)) after }
{}
