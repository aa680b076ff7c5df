//! The end of a worker: all turns go home.
ghost use Rattle.std.specs.Prelude.{◌≡◌, ◌+◌, ◌<◌, ◌≤◌, ◌^◌, length, vec_len};
ghost use Rattle.feed_queue.specs.Lanes.{sent_of, left_of, lane_of, lane_of_reader};
ghost use Rattle.feed_workers.specs.Errands.{takes, leaves};

use crate::errand::Errand;
use crate::worker::{Posted, Worker};
use feed_queue::{Rest, Writer, settle};
use lean_items::Feed;
use std::sync::Wait;

impl<G: Feed + Drop> Worker<G> {
    // Lets all turns go home, those that are here and those that were on their way. How many went.
    pub(crate) fn disband<R: Wait>(self, rt: &R, errands: Writer<Errand<G>>) -> u64
        requires lane { lane_of errands ≡ lane_of_reader self.errands }
        requires few { length (sent_of errands) < 2 ^ 62 }
        ensures { takes (sent_of errands) ≤ result + leaves (sent_of errands) }
    {
        let Worker {
            errands: reader,
            turns,
            rooms: _rooms,
        } = self;
        let here = let_go(turns);
        let mut rest = settle(errands, reader).rest;
        here + let_rest_go(rt, &mut rest)
    }
}

// Lets turns go home. How many went.
fn let_go<G: Feed + Drop>(mut turns: Vec<Posted<G>>) -> u64
    ensures { result ≡ vec_len turns }
{
    let count = turns.len() as u64;
    while let Some(posted) = turns.pop() {
        posted.away.go_home();
    }
    count
}

// Lets the turns of the errands that were on their way go home. How many went.
fn let_rest_go<G: Feed + Drop, R: Wait>(rt: &R, rest: &mut Rest<Errand<G>>) -> u64
    requires { length (left_of rest.old) < 2 ^ 62 }
    ensures went { takes (left_of rest.old) ≤ result }
    ensures few { result ≤ length (left_of rest.old) }
{
    let mut count = 0;
    'errands: loop {
        match rest.next(rt) {
            Some(Errand::Take(_, away)) => {
                away.go_home();
                count += 1;
            }
            Some(Errand::Leave(_)) => {}
            None => return count,
        }
    }
}
