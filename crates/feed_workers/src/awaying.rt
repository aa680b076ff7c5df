ghost use Rattle.std.specs.Prelude.{◌≡◌};
ghost use Rattle.work_scheduler.specs.Turns.{RanOn};

use crate::Away;
use lean_items::Feed;
use std::sync::Wait;
use work_scheduler::{Pumped, Turn};

impl<G: Feed + Drop> Away<G> {
    // How many items the lane has room for.
    pub(crate) fn room<R: Wait>(&mut self, rt: &R) -> u32
        ensures { RanOn self.old.turn self.new.turn }
    {
        self.turn.room(rt)
    }

    // Sends the feed's next items.
    pub(crate) fn pump<R: Wait>(&mut self, rt: &R, batch: u32) -> Pumped
        ensures { RanOn self.old.turn self.new.turn }
    {
        self.turn.pump(rt, batch)
    }

    // The turn, which needs no way home.
    pub(crate) fn into_turn(self) -> Turn<G>
        ensures { result ≡ self.turn }
    {
        let Away { turn, home: _home } = self;
        turn
    }

    // Lets the turn go home.
    pub(crate) fn go_home(self) {
        let Away { turn, mut home } = self;
        home.push_reserved(turn);
    }
}
