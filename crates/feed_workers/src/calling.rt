//! Turns that go out to workers, and are called home.
ghost use Rattle.std.specs.Prelude.{◌≡◌, false, true};
ghost use Rattle.feed_workers.specs.Shown.{shown, shut};

use crate::{Running, Seat, Spot};
use lean_items::{Feed, FeedNo};
use std::mem;
use std::sync::Wait;

impl<G: Feed + Drop + 'static> Seat<G> {
    /// Sends the turn to a worker, whose place among the workers is `station`. It stays here where the worker has no place for it.
    pub fn send<R: Wait>(&mut self, rt: &R, feed: FeedNo, station: usize, worker: &mut Running<G>)
        ensures { shown self.new ≡ shown self.old }
    {
        match mem::replace(&mut self.spot, Spot::Out) {
            Spot::Ready(away) => match worker.take(rt, feed, away) {
                Some(away) => self.spot = Spot::Ready(away),
                None => self.station = station,
            },
            Spot::Home(turn) => self.spot = Spot::Home(turn),
            Spot::Out => {}
        }
    }

    /// Nothing more is taken of the feed.
    pub fn shut(&mut self)
        ensures { shown self.new ≡ shut (shown self.old) }
    {
        self.open = false;
    }

    /// Whether the last item was not taken, and the seat was not shut.
    pub fn is_open(&self) -> bool
        ensures { result ≡ (shown self.now).open_now }
    {
        self.open
    }

    /// Whether the turn is here. Where it is out, its worker is asked to let it go home.
    pub fn call_home<R: Wait>(
        &mut self,
        rt: &R,
        feed: FeedNo,
        workers: &mut Vec<Running<G>>,
    ) -> bool
        ensures { shown self.new ≡ shown self.old }
    {
        if self.is_out() && !self.called && self.station < workers.len() {
            self.called = workers[self.station].leave(rt, feed);
        }
        !self.is_out()
    }

    // Whether the turn is with a worker still. One that came home is taken out of the ring.
    fn is_out(&mut self) -> bool
        ensures { shown self.new ≡ shown self.old }
    {
        match &self.spot {
            Spot::Ready(_) => false,
            Spot::Home(_) => false,
            Spot::Out => match self.home.pop() {
                Ok(turn) => {
                    self.spot = Spot::Home(turn);
                    false
                }
                Err(_) => true,
            },
        }
    }
}
