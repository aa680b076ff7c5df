ghost use Rattle.std.specs.Prelude.{◌≡◌, [], IfOk};
ghost use Rattle.feed_queue.specs.Lanes.{taken_of, lane_of_reader};

use crate::errand::Errand;
use crate::rounds::{place_of, pump_one};
use crate::worker::{Posted, Worker};
use feed_queue::Reader;
use lean_fixed::NoMemory;
use lean_items::{Feed, FeedNo};
use std::alloc::Global;
use std::sync::Wait;
use std::sync::atomic::{AtomicBool, Ordering};
use std::thread;

// How many turns a worker may have, and how many errands may be on their way to it.
pub(crate) const PLACES: usize = 1024;

impl<G: Feed + Drop> Worker<G> {
    // A worker that has no turn.
    pub(crate) fn new(alloc: Global, errands: Reader<Errand<G>>) -> Result<Worker<G>, NoMemory>
        requires { taken_of errands ≡ [] }
        ensures { IfOk result (λ worker. worker.errands ≡ errands) }
    {
        let turns = Vec::with_capacity(alloc, PLACES)?;
        let rooms = Vec::with_capacity(alloc, PLACES)?;
        Ok(Worker {
            errands,
            turns,
            rooms,
        })
    }

    // Does errands and sends the items of its turns' feeds, until it is to stop.
    pub(crate) fn run<R: Wait>(mut self, rt: &R, stop: &AtomicBool) -> Worker<G>
        ensures { lane_of_reader result.errands ≡ lane_of_reader self.errands }
    {
        for _ in rt.forever() {
            if stop.load(Ordering::SeqCst) {
                return self;
            }
            self.do_errand(rt);
            if !self.serve(rt) {
                thread::yield_now();
            }
        }
        unreachable!()
    }

    // Does the next errand, if there is one, and a place for its turn.
    fn do_errand<R: Wait>(&mut self, rt: &R)
        ensures { lane_of_reader self.new.errands ≡ lane_of_reader self.old.errands }
    {
        if self.turns.len() >= PLACES {
            return;
        }
        match self.errands.pop(rt) {
            Some(Errand::Take(feed, away)) => self.turns.push_reserved(Posted { feed, away }),
            Some(Errand::Leave(feed)) => match place_of(self.turns.as_slice(), &feed) {
                Some(place) => self.turns.remove(place).away.go_home(),
                None => {}
            },
            None => {}
        }
    }

    // Sends items of the turns' feeds. Whether any was sent.
    fn serve<R: Wait>(&mut self, rt: &R) -> bool
        ensures { self.new.errands ≡ self.old.errands }
    {
        pump_one(rt, self.turns.as_mut_slice(), &mut self.rooms)
    }
}
