ghost use Rattle.std.specs.Prelude.{◌≡◌, ◌<◌, ◌^◌, ◌+◌, ◌≤◌, length, ⊤, MatchOption};
ghost use Rattle.feed_queue.specs.Lanes.{sent_of, lane_of, lane_of_reader};
ghost use Rattle.feed_workers.specs.Errands.{brought, takes, leaves};

use crate::Away;
use crate::errand::Errand;
use crate::worker::Worker;
use crate::working::PLACES;
use crossbeam_utils::CachePadded;
use feed_queue::{Full, Writer, lane};
use lean_fixed::NoMemory;
use lean_items::{Feed, FeedNo};
use std::alloc::Global;
use std::snapshot::Snapshot;
use std::sync::atomic::{AtomicBool, Ordering};
use std::sync::{Arc, Wait};
use std::thread;
use std::thread::{Promise, PromisedHandle, Threads};

// What a worker's thread gives back: the worker, with the end of the errand lane that it was started with.
#[derive(Drop)]
pub(crate) struct Back<G: Feed> {
    pub(crate) before: Snapshot<Worker<G>>,
}

impl<G: Feed> Promise<Worker<G>> for Back<G> {
    ghost use Rattle.std.specs.Prelude.{◌≡◌};
    ghost use Rattle.feed_queue.specs.Lanes.{lane_of_reader};

    ghost kept_by = { λ p now. lane_of_reader now.errands ≡ lane_of_reader p.before.value.errands };
}

/// A worker that runs in its thread, and the end of the lane by which errands go to it.
#[derive(Drop)]
pub struct Running<G: Feed + Drop + 'static> {
    errands: Writer<Errand<G>>,
    child: PromisedHandle<Worker<G>, Back<G>>,
    stop: Arc<CachePadded<AtomicBool>>,
    // How many errands were sent.
    sent: u64,
    // How many turns were sent and not told to leave.
    turns: u64,
    ghost lane: { lane_of_reader child.promise.before.value.errands ≡ lane_of errands },
    ghost counted: { length (sent_of errands) ≡ sent },
    ghost few: { sent ≤ 2 ^ 61 },
}

// No more errands than this go to a worker.
const MOST: u64 = 1 << 61;

impl<G: Feed + Drop + Send + 'static> Running<G> {
    /// Starts a worker, which has no turn yet. `None`: no thread can be started. `NoMemory`: there is no memory for the worker.
    pub fn start<R: Threads + Wait + Copy + Send + 'static>(
        rt: &R,
        alloc: Global,
    ) -> Result<Option<Running<G>>, NoMemory> {
        let (errands, reader) = lane(alloc, PLACES)?;
        let worker = Worker::new(alloc, reader)?;
        let stop = Arc::new(alloc, CachePadded::new(AtomicBool::new(false)))?;
        let theirs = Arc::try_clone(&stop)?;
        let promise = Back {
            before: Snapshot::of(&worker),
        };
        let own = *rt;
        match thread::spawn_with(rt, promise, move || worker.run(&own, &theirs)) {
            Ok(child) => Ok(Some(Running {
                errands,
                child,
                stop,
                sent: 0,
                turns: 0,
            })),
            Err(_) => Ok(None),
        }
    }
}

impl<G: Feed + Drop + 'static> Running<G> {
    /// How many turns were sent and not told to leave.
    pub fn turns(&self) -> u64 {
        self.turns
    }

    // Sends a turn to the worker. The turn comes back where the worker has no place for it, or where its lane was full.
    pub(crate) fn take<R: Wait>(&mut self, rt: &R, feed: FeedNo, away: Away<G>) -> Option<Away<G>>
        ensures { MatchOption result (takes (sent_of self.new.errands) ≡ takes (sent_of self.old.errands) + 1)
            (λ back. back ≡ away) }
    {
        if self.sent >= MOST || self.turns >= PLACES as u64 {
            return Some(away);
        }
        match self.errands.push(rt, Errand::Take(feed, away)) {
            Ok(()) => {
                self.sent += 1;
                self.turns += 1;
                None
            }
            Err(full) => turn_of(full.item),
        }
    }

    // Asks the worker to let a turn go home. Whether it was asked, which it isn't where its lane was full.
    pub(crate) fn leave<R: Wait>(&mut self, rt: &R, feed: FeedNo) -> bool {
        if self.sent >= MOST {
            return false;
        }
        match self.errands.push(rt, Errand::Leave(feed)) {
            Ok(()) => {
                self.sent += 1;
                self.turns = self.turns.saturating_sub(1);
                true
            }
            Err(_) => false,
        }
    }

    /// Stops the worker, and lets all turns go home that it has or that were on their way to it. How many went.
    pub fn join<R: Threads + Wait>(self, rt: &R) -> u64
        ensures { takes (sent_of self.errands) ≤ result + leaves (sent_of self.errands) }
    {
        let Running {
            errands,
            child,
            stop,
            sent: _sent,
            turns: _turns,
        } = self;
        stop.store(true, Ordering::SeqCst);
        child.join(rt).disband(rt, errands)
    }
}

// The turn of an errand that brings one.
fn turn_of<G: Feed + Drop>(errand: Errand<G>) -> Option<Away<G>>
    ensures { result ≡ brought errand }
{
    match errand {
        Errand::Take(_, away) => Some(away),
        Errand::Leave(_) => None,
    }
}
