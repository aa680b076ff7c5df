//! What a walk over all heads finds, so that the next calls need no walk of their own.
ghost use Rattle.std.specs.Prelude.{◌≡◌, [], ◌∷◌, ◌++◌, List};
ghost use Rattle.lean_items.specs.declared.arrival.Arrival.{Arrival as Head};
ghost use Rattle.frontier_sync.specs.Seen.{IsSeen};

use crate::ends::{earlier, end_of, stops};
use lean_fixed::Moment;
use lean_items::Item;

/// What is known of all heads.
#[derive(Clone, Copy)]
pub(crate) enum Seen {
    /// Nothing.
    Nothing,
    /// No head is a malformed line or a failed read, and this is the least end of those that are a row.
    Calm(Option<Moment>),
}

// What is known with one head more.
#[inline(always)]
pub(crate) fn seen_with(seen: Seen, item: &Item) -> Seen
    ensures { (heads : List Head) (head : Head) → head.item ≡ item.now → IsSeen heads seen
        → IsSeen (heads ++ head ∷ []) result }
{
    match seen {
        Seen::Nothing => Seen::Nothing,
        Seen::Calm(least) => {
            if stops(item) {
                return Seen::Nothing;
            }
            Seen::Calm(earlier(least, end_of(item)))
        }
    }
}
