use lean_items::Feed;
use rtrb::Protocol;
use work_scheduler::Turn;

/// The rule of a ring by which a turn comes home: each turn is every earlier one, run on.
pub struct Ran;

impl<G: Feed> Protocol<Turn<G>> for Ran {
    ghost use Rattle.feed_workers.specs.Homes.{RanFrom};

    ghost allows = { RanFrom };
}
