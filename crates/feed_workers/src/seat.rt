ghost use Rattle.std.specs.Prelude.{◌≡◌, ◌<◌, ◌^◌, [], ◌∷◌, take};
ghost use Rattle.feed_queue.specs.Lanes.{lane_of_reader};
ghost use Rattle.rtrb.specs.Ring.{received};
ghost use Rattle.work_scheduler.specs.Turns.{turn_lane};
ghost use Rattle.feed_workers.specs.Seats.{IsHere};

use crate::Spot;
use crate::ran::Ran;
use feed_queue::Reader;
use lean_items::{Feed, Item};
use rtrb::Consumer;
use std::alloc::Global;
use std::snapshot::Snapshot;
use work_scheduler::Turn;

/// The end of a feed's lane that items are taken of, and where its turn comes home.
#[derive(Drop)]
pub struct Seat<G: Feed> {
    pub(crate) reader: Reader<Item>,
    pub(crate) home: Consumer<Turn<G>, Global, Ran>,
    // The turn as it was when it was new.
    pub(crate) origin: Snapshot<Turn<G>>,
    pub(crate) spot: Spot<G>,
    // Whether the last item was not taken, and the feed was not removed.
    pub(crate) open: bool,
    // How many items were taken.
    pub(crate) count: u64,
    // Which worker the turn was sent to last, by its place among the workers.
    pub(crate) station: usize,
    // Whether that worker was asked to let the turn go home.
    pub(crate) called: bool,
    ghost few: { count < 2 ^ 40 },
    ghost known: { take 1 (received home) ≡ origin.value ∷ [] },
    ghost lane: { lane_of_reader reader ≡ turn_lane origin.value },
    ghost mine: { IsHere origin.value spot },
}
