ghost use Rattle.std.specs.Prelude.{◌≡◌, pos, ◌-◌, ◌≤ℤ◌, true};
ghost use Rattle.lean_fixed.specs.Calendar.{last_day};
ghost use Rattle.feed_pool.specs.Running.{is_running, Gave};

use exchange_hours::Hours;
use lean_fixed::Window;
use lean_items::{Feed, Item};
use std::sync::Arc;

/// The feeds of a pool by their numbers, and what each is made with. A feed that was removed leaves its place empty.
#[derive(Drop)]
pub struct Slots<G> {
    pub(crate) feeds: Vec<Option<G>>,
    pub(crate) window: Window,
    pub(crate) hours: Arc<Hours>,
    ghost first_from: { pos 1 ≤ℤ window.first.0 },
    ghost first_to: { window.first.0 ≤ℤ pos (last_day - 1) },
    ghost last_from: { pos 1 ≤ℤ window.last.0 },
    ghost last_to: { window.last.0 ≤ℤ pos (last_day - 1) },
}

/// The next item of the feed that stands in a place.
pub(crate) fn next_of<G: Feed>(slot: &mut Option<G>) -> Item
    requires { is_running G.has_ended slot.old ≡ true }
    ensures { Gave G.leaves G.has_ended G.faults G.room slot.old slot.new result }
{
    match slot {
        Some(feed) => feed.next(),
        None => unreachable!(),
    }
}
