ghost use Rattle.std.specs.Prelude.{ℕ, ◌<◌};
ghost use Rattle.rtrb.specs.Ring.{sent, known_free};
ghost use Rattle.feed_workers.specs.Homes.{RanFrom};

use crate::ran::Ran;
use lean_items::Feed;
use rtrb::Producer;
use std::alloc::Global;
use work_scheduler::Turn;

/// A turn and its way home.
#[derive(Drop)]
pub struct Away<G: Feed> {
    pub(crate) turn: Turn<G>,
    pub(crate) home: Producer<Turn<G>, Global, Ran>,
    ghost fits: { RanFrom (sent home) turn },
    ghost room: { 0 < known_free home },
}
