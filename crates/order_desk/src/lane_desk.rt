ghost use Rattle.std.specs.Prelude.{◌≡◌, ◌^◌, ◌≤◌, length};
ghost use Rattle.feed_queue.specs.Lanes.{sent_of, lane_of, lane_of_reader};
ghost use Rattle.order_desk.specs.Heard.{most_told};

use crate::ends::Ends;
use crate::server::Server;
use crate::serving::Begun;
use std::sync::atomic::Ordering;
use std::thread::PromisedHandle;

/// A desk whose book is served by a thread.
pub struct LaneDesk<G, R> {
    pub(crate) ends: Ends<R>,
    pub(crate) child: PromisedHandle<Server<G>, Begun<G>>,
    pub(crate) submitted: u64,
    // How many orders there are once all commands are handled.
    pub(crate) orders: u64,
    pub(crate) answered: u64,
    pub(crate) told: u32,
    pub(crate) starved: bool,
    ghost few: { submitted ≤ 2 ^ 60 },
    ghost counted: { length (sent_of ends.commands) ≡ submitted },
    ghost within: { answered ≤ submitted },
    ghost bounded: { told ≤ most_told },
    ghost commands: { lane_of ends.commands ≡ lane_of_reader child.promise.0.value.commands },
    ghost replies: { lane_of child.promise.0.value.replies ≡ lane_of_reader ends.replies },
}

impl<G, R> LaneDesk<G, R> {
    /// The ends of the lanes, and the thread.
    pub(crate) fn into_parts(self) -> (Ends<R>, PromisedHandle<Server<G>, Begun<G>>)
        ensures ends { result.0 ≡ self.ends }
        ensures child { result.1 ≡ self.child }
    {
        let LaneDesk {
            ends,
            child,
            submitted: _,
            orders: _,
            answered: _,
            told: _,
            starved: _,
        } = self;
        (ends, child)
    }
}

impl<G: Drop, R: Drop> Drop for LaneDesk<G, R> {
    // A thread that nobody will join is told to stop.
    fn drop(self) {
        let (ends, child) = self.into_parts();
        ends.stop.store(true, Ordering::SeqCst);
        drop(child);
    }
}
