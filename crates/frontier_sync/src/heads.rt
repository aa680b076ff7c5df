ghost use Rattle.std.specs.Prelude.{◌≡◌, ℕ, ◌≤◌, List, ◌++◌, [], OnOk, OnErr};
ghost use Rattle.std.specs.List.{find};
ghost use Rattle.lean_items.specs.declared.item.Item.{Item};
ghost use Rattle.frontier_sync.specs.Heads.{arrival, put, without, stops, IsFrontier, AreOpen, AreRising};
ghost use Rattle.frontier_sync.specs.Slices.{IsSliced, slice_of, TakesOfHeads, MovesOn};
ghost use Rattle.frontier_sync.specs.Stays.{Stays};

use crate::ends::{first_stop, least_end};
use crate::places::{forget, put};
use crate::refill::refill_all;
use crate::seen::Seen;
use lean_fixed::{Moment, NoMemory};
use lean_items::{Arrival, FeedNo, Item, Pool};
use std::alloc::Global;
use std::marker::Model;

/// The heads of feeds: of each feed the item that was taken of it last and not passed on yet. Contracts see them as the
/// list of these items with the numbers of their feeds, by rising numbers.
#[derive(Drop)]
pub struct Heads {
    heads: Vec<Arrival>,
    // What `slice` saw of the heads that follow, while it went through them: so the next two calls need not.
    seen: Seen,
}

impl Model for Heads {
    ghost use Rattle.std.specs.Prelude.{List};
    ghost use Rattle.lean_items.specs.declared.arrival.Arrival.{Arrival};

    ghost Value = { List Arrival };

    ghost view = { λ heads. heads.heads.items };

    ghost use Rattle.frontier_sync.specs.Heads.{AreRising};
    ghost use Rattle.frontier_sync.specs.Seen.{IsSeen};

    ghost invariant = { λ heads. AreRising heads.heads.items × IsSeen heads.heads.items heads.seen };
}

impl Heads {
    /// No heads yet.
    pub fn new(alloc: Global) -> Heads
        ensures { result ≡ [] }
    {
        Heads {
            heads: Vec::new(alloc),
            seen: Seen::Nothing,
        }
    }

    /// Sets the head of a feed, in the place of the one that it had, if any.
    pub fn set(&mut self, feed: FeedNo, item: Item) -> Result<(), NoMemory>
        ensures ok { OnOk result (self.new ≡ put (arrival feed item) self.old) }
        ensures err { OnErr result (self.new ≡ self.old) }
    {
        self.seen = Seen::Nothing;
        put(&mut self.heads, Arrival { feed, item })
    }

    /// Takes the head of a feed away. A feed without one is passed over.
    pub fn forget(&mut self, feed: FeedNo)
        ensures { self.new ≡ without feed.0 self.old }
    {
        self.seen = Seen::Nothing;
        forget(&mut self.heads, feed)
    }

    /// The malformed line or failed read of the least feed whose head is one. `None` exactly where no head is.
    pub fn stop(&self) -> Option<Arrival>
        ensures first { result ≡ find (λ a. stops a.item) self.now }
        ensures rising { AreRising self.now }
    {
        match self.seen {
            Seen::Calm(_) => None,
            Seen::Nothing => first_stop(&self.heads),
        }
    }

    /// The least end of the heads that are a bar or a coarse row. `None` exactly where no head is.
    pub fn next_frontier(&self) -> Option<Moment>
        ensures { IsFrontier self.now result }
    {
        match self.seen {
            Seen::Calm(least) => least,
            Seen::Nothing => least_end(&self.heads),
        }
    }

    /// Appends the items that end at a moment, by the numbers of their feeds and those of one feed in order, and sets the
    /// heads that follow. Each feed whose head is a bar or a coarse row is open in the pool. An item that does not fit behind
    /// the one before it is passed over. At `NoMemory` nothing is appended, and the heads are then only let go.
    pub fn slice<P: Pool>(
        &mut self,
        pool: &mut P,
        at: Moment,
        out: &mut Vec<Arrival>,
    ) -> Result<(), NoMemory>
        requires { AreOpen (P.is_open pool.old) self.old }
        ensures took { (taken : ℕ → List Item)
            × OnOk result (IsSliced at.0 taken self.old self.new
            × (out.new.items ≡ out.old.items ++ slice_of at.0 taken self.old))
            × MovesOn (P.stands pool.old) (P.stands pool.new) taken
            × TakesOfHeads self.old taken }
        ensures opened { OnOk result (AreOpen (P.is_open pool.new) self.new) }
        ensures same { OnErr result (out.new.items ≡ out.old.items) }
        ensures added { P.added pool.new ≡ P.added pool.old }
        ensures stays { Stays P.files P.lists P.faults P.place pool.old pool.new }
    {
        let before = out.len();
        self.seen = Seen::Nothing;
        match refill_all(&mut self.heads, pool, at, out) {
            Ok(seen) => {
                self.seen = seen;
                Ok(())
            }
            Err(NoMemory) => {
                out.truncate(before);
                Err(NoMemory)
            }
        }
    }
}
