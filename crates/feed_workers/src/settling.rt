ghost use Rattle.std.specs.Prelude.{◌≡◌};
ghost use Rattle.feed_queue.specs.Lanes.{taken_of};
ghost use Rattle.feed_workers.specs.Homes.{HasRun};
ghost use Rattle.feed_workers.specs.Seats.{Unseated};
ghost use Rattle.feed_workers.specs.Shown.{shown};

use crate::{Seat, Spot};
use feed_queue::settle;
use lean_items::Feed;
use std::sync::Wait;
use std::{mem, thread};
use work_scheduler::Turn;

impl<G: Feed + Drop> Seat<G> {
    /// The feed, with which nothing goes on. Its turn is waited for where it is out.
    pub fn settle<R: Wait>(mut self, rt: &R) -> G
        ensures { Unseated (shown self).origin (shown self).items result }
    {
        let turn = self.turn_home(rt);
        self.close(turn)
    }

    // What a feed came to whose turn came home.
    fn close(self, turn: Turn<G>) -> G
        requires { HasRun self.origin.value turn }
        ensures { Unseated self.origin.value (taken_of self.reader) result }
    {
        let Seat {
            reader,
            home: _home,
            origin: _origin,
            spot: _spot,
            open: _open,
            count: _count,
            station: _station,
            called: _called,
        } = self;
        let parts = turn.into_parts();
        settle(parts.out, reader);
        parts.feed
    }

    // The turn, wherever it is.
    fn turn_home<R: Wait>(&mut self, rt: &R) -> Turn<G>
        ensures ran { HasRun self.old.origin.value result }
        ensures origin { self.new.origin.value ≡ self.old.origin.value }
        ensures reader { self.new.reader ≡ self.old.reader }
    {
        match mem::replace(&mut self.spot, Spot::Out) {
            Spot::Ready(away) => away.into_turn(),
            Spot::Home(turn) => turn,
            Spot::Out => self.bring_home(rt),
        }
    }

    // The turn, for which it waits where it is out.
    fn bring_home<R: Wait>(&mut self, rt: &R) -> Turn<G>
        ensures ran { HasRun self.old.origin.value result }
        ensures origin { self.new.origin.value ≡ self.old.origin.value }
        ensures reader { self.new.reader ≡ self.old.reader }
    {
        for _ in rt.forever() {
            match self.home.pop() {
                Ok(turn) => return turn,
                Err(_) => thread::yield_now(),
            }
        }
        unreachable!()
    }
}
