//! The pool on one thread: the folder's hands are read where their items are taken.
ghost use Rattle.std.specs.Prelude.{◌≡◌};

use crate::hand_feed::HandFeed;
use crate::pool_over::PoolOver;
use crate::slots::{Slots, next_of};
use exchange_hours::Hours;
use fill_forward::FilledFeed;
use lean_fixed::{NoMemory, Window};
use lean_io::Folder;
use lean_items::{Feed, FeedKey, FeedNo, Finished, Item, Pool};
use std::alloc::Global;
use std::sync::Arc;

/// The pool of the feeds of a folder's files, on one thread.
pub type SerialPool<'a, F> = PoolOver<'a, F, Slots<FilledFeed<<F as Folder>::H>>>;

impl<'a, F: Folder, G: HandFeed<F::H>> PoolOver<'a, F, Slots<G>> {
    ghost use Rattle.std.specs.Prelude.{◌≡◌, IfOk, IsOk};
    ghost use Rattle.std.specs.Arc.{arc_value};
    ghost use Rattle.lean_fixed.specs.Ranges.{IsWindow};
    ghost use Rattle.lean_items.specs.Taken.{no_feeds};
    ghost use Rattle.feed_pool.specs.Lists.{lists_of};

    /// A pool with no feed, over a window and the hours of the exchange. It asks for no memory, so that it is always made.
    pub fn new(
        alloc: Global,
        folder: &'a mut F,
        window: Window,
        hours: Arc<Hours>,
    ) -> Result<PoolOver<'a, F, Slots<G>>, NoMemory>
        requires { IsWindow window }
        ensures made { IsOk result }
        ensures stands { IfOk result (λ pool.
            ⟦<PoolOver<'a, F, Slots<G>> as Pool>⟧.stands pool
            (record { faults = F.faults folder.old; hands = F.hands folder.old }) no_feeds) }
        ensures lists { IfOk result (λ pool. ⟦<PoolOver<'a, F, Slots<G>> as Pool>⟧.lists pool
            ≡ lists_of (F.files folder.old) (arc_value hours) window) }
        ensures added { IfOk result (λ pool. ⟦<PoolOver<'a, F, Slots<G>> as Pool>⟧.added pool ≡ 0) }
        ensures place { IfOk result (λ pool. pool.folder.ghost_name ≡ folder.entry.ghost_name) }
        ensures folder { IfOk result (λ pool. pool.folder.now ≡ folder.old) }
    {
        Ok(PoolOver {
            folder,
            slots: Slots {
                feeds: Vec::new(alloc),
                window,
                hours,
            },
        })
    }
}

impl<F: Folder, G: HandFeed<F::H>> Pool for PoolOver<'_, F, Slots<G>> {
    ghost use Rattle.std.specs.Prelude.{◌<◌, Some, None, slice_index_or, vec_len};
    ghost use Rattle.std.specs.Arc.{arc_value};
    ghost use Rattle.feed_pool.specs.Lists.{lists_of};
    ghost use Rattle.feed_pool.specs.Running.{is_open_at, room_at, room-of_few, Runs};

    ghost files = { λ p. F.files p.folder.now };

    ghost lists = { λ p. lists_of (F.files p.folder.now) (arc_value p.slots.hours) p.slots.window };

    ghost faults = { λ p. F.faults p.folder.now };

    ghost hands = { λ p. F.hands p.folder.now };

    ghost added = { λ p. vec_len p.slots.feeds };

    ghost is_open = { λ p n. is_open_at G.has_ended p.slots.feeds.items n };

    ghost room = { λ p n. room_at G.room p.slots.feeds.items n };

    ghost stands = { λ p start feeds. Runs G.leaves G.has_ended G.faults
        (lists_of (F.files p.folder.now) (arc_value p.slots.hours) p.slots.window)
        start (record { faults = F.faults p.folder.now; hands = F.hands p.folder.now }) p.slots.feeds.items feeds };

    ghost place = { λ p. p.folder.ghost_name };

    ghost few = { λ p n. room-of_few G.room G.few (slice_index_or p.slots.feeds.items n None) };

    fn add(&mut self, alloc: Global, key: FeedKey) -> Result<FeedNo, NoMemory> {
        let slots = &mut self.slots;
        let number = slots.feeds.len() as u64;
        slots.feeds.reserve(1)?;
        let hours = slots.hours.clone()?;
        let window = slots.window;
        let hand = self.folder.hand(alloc)?;
        match G::open(alloc, hand, key, window, hours) {
            Ok(feed) => {
                let slots = &mut self.slots;
                slots.feeds.push_reserved(Some(feed));
                Ok(FeedNo(number))
            }
            Err(refused) => {
                self.folder.take_back(refused.hand);
                Err(NoMemory)
            }
        }
    }

    fn take(&mut self, feed: FeedNo) -> Item {
        let slots = &mut self.slots;
        next_of(&mut slots.feeds[feed.0 as usize])
    }

    fn remove(&mut self, feed: FeedNo) {
        let slots = &mut self.slots;
        let place = feed.0 as usize;
        if place < slots.feeds.len() {
            match slots.feeds[place].take() {
                Some(feed) => self.folder.take_back(feed.into_hand()),
                None => {}
            }
        }
    }

    fn finish(&mut self) -> Finished {
        let slots = &mut self.slots;
        let feeds = slots.feeds.len() as u64;
        'feeds: loop {
            let slots = &mut self.slots;
            match slots.feeds.pop() {
                Some(Some(feed)) => self.folder.take_back(feed.into_hand()),
                Some(None) => {}
                None => return Finished { feeds },
            }
        }
    }
}
