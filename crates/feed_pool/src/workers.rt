//! The pool whose feeds are read and parsed by workers, each in a thread of its own.
ghost use Rattle.std.specs.Prelude.{◌≡◌};

use crate::crew::Crew;
use crate::crewing::{collect, send_out, shut_at, stop_all, take_of};
use crate::hand_feed::HandFeed;
use crate::pool_over::PoolOver;
use exchange_hours::Hours;
use feed_workers::{Berth, Running};
use fill_forward::FilledFeed;
use lean_fixed::{NoMemory, Window};
use lean_io::Folder;
use lean_items::{Feed, FeedKey, FeedNo, Finished, Item, Pool};
use std::alloc::Global;
use std::sync::{Arc, Wait};
use std::thread::Threads;

/// The pool of the feeds of a folder's files, which workers read.
pub type WorkerPool<'a, F, R> = PoolOver<'a, F, Crew<FilledFeed<<F as Folder>::H>, R>>;

// Starts workers, as many as threads can be started for. Where there is no memory for one, those that run are stopped.
fn start_all<G: Feed + Drop + Send + 'static, R: Threads + Wait + Copy + Send + 'static>(
    rt: &R,
    alloc: Global,
    workers: u32,
) -> Result<Vec<Running<G>>, NoMemory> {
    let mut running = Vec::with_capacity(alloc, workers as usize)?;
    for _ in 0..workers {
        match Running::start(rt, alloc) {
            Ok(Some(worker)) => {
                if running.len() < running.capacity() {
                    running.push_reserved(worker);
                }
            }
            Ok(None) => return Ok(running),
            Err(NoMemory) => {
                stop_all(rt, &mut running);
                return Err(NoMemory);
            }
        }
    }
    Ok(running)
}

impl<
    'a,
    F: Folder,
    G: HandFeed<F::H> + Send + 'static,
    R: Threads + Wait + Copy + Send + 'static,
> PoolOver<'a, F, Crew<G, R>> {
    ghost use Rattle.std.specs.Prelude.{◌≡◌, ◌≤◌, IfOk};
    ghost use Rattle.std.specs.Arc.{arc_value};
    ghost use Rattle.lean_fixed.specs.Ranges.{IsWindow};
    ghost use Rattle.lean_items.specs.Taken.{no_feeds};
    ghost use Rattle.feed_pool.specs.Lists.{lists_of};

    /// A pool with no feed, over a window and the hours of the exchange, and as many workers, from 1 to 64. A worker that can't be
    /// started is done without: where none can, the feeds are read where their items are taken.
    pub fn new(
        rt: &R,
        alloc: Global,
        folder: &'a mut F,
        window: Window,
        hours: Arc<Hours>,
        workers: u32,
    ) -> Result<PoolOver<'a, F, Crew<G, R>>, NoMemory>
        requires window { IsWindow window }
        requires some { 1 ≤ workers }
        requires few { workers ≤ 64 }
        ensures stands { IfOk result (λ pool.
            ⟦<PoolOver<'a, F, Crew<G, R>> as Pool>⟧.stands pool
            (record { faults = F.faults folder.old; hands = F.hands folder.old }) no_feeds) }
        ensures lists { IfOk result (λ pool. ⟦<PoolOver<'a, F, Crew<G, R>> as Pool>⟧.lists pool
            ≡ lists_of (F.files folder.old) (arc_value hours) window) }
        ensures added { IfOk result (λ pool. ⟦<PoolOver<'a, F, Crew<G, R>> as Pool>⟧.added pool ≡ 0) }
        ensures place { IfOk result (λ pool. pool.folder.ghost_name ≡ folder.entry.ghost_name) }
        ensures folder { IfOk result (λ pool. pool.folder.now ≡ folder.old) }
    {
        let workers = start_all(rt, alloc, workers)?;
        Ok(PoolOver {
            folder,
            slots: Crew {
                rt: *rt,
                seats: Vec::new(alloc),
                workers,
                leaving: Vec::new(alloc),
                present: 0,
                window,
                hours,
            },
        })
    }
}

impl<F: Folder, G: HandFeed<F::H> + 'static, R: Threads + Wait> Pool
    for PoolOver<'_, F, Crew<G, R>> {
    ghost use Rattle.std.specs.Prelude.{◌<◌, Some, None, slice_index_or, vec_len};
    ghost use Rattle.std.specs.Arc.{arc_value};
    ghost use Rattle.feed_pool.specs.Lists.{lists_of};
    ghost use Rattle.feed_pool.specs.Crews.{show_all, is_open_in, room_in, room-of_seat_few, Manned};

    ghost files = { λ p. F.files p.folder.now };

    ghost lists = { λ p. lists_of (F.files p.folder.now) (arc_value p.slots.hours) p.slots.window };

    ghost faults = { λ p. F.faults p.folder.now };

    ghost hands = { λ p. F.hands p.folder.now };

    ghost added = { λ p. vec_len p.slots.seats };

    ghost is_open = { λ p n. is_open_in (show_all p.slots.seats.items) n };

    ghost room = { λ p n. room_in (show_all p.slots.seats.items) n };

    ghost stands = { λ p start feeds. Manned
        (lists_of (F.files p.folder.now) (arc_value p.slots.hours) p.slots.window)
        start (record { faults = F.faults p.folder.now; hands = F.hands p.folder.now }) (show_all p.slots.seats.items) feeds };

    ghost place = { λ p. p.folder.ghost_name };

    ghost few = { λ p n. room-of_seat_few (slice_index_or (show_all p.slots.seats.items) n None) };

    fn add(&mut self, alloc: Global, key: FeedKey) -> Result<FeedNo, NoMemory> {
        let crew = &mut self.slots;
        let number = crew.seats.len() as u64;
        crew.seats.reserve(1)?;
        crew.leaving.reserve(crew.present.saturating_add(1))?;
        let hours = crew.hours.clone()?;
        let window = crew.window;
        let berth = Berth::new(alloc)?;
        let hand = self.folder.hand(alloc)?;
        match G::open(alloc, hand, key, window, hours) {
            Ok(feed) => {
                let crew = &mut self.slots;
                let seat = berth.seat(feed);
                let seat = send_out(&crew.rt, &mut crew.workers, FeedNo(number), seat);
                crew.seats.push_reserved(Some(seat));
                crew.present = crew.present.saturating_add(1);
                Ok(FeedNo(number))
            }
            Err(refused) => {
                self.folder.take_back(refused.hand);
                Err(NoMemory)
            }
        }
    }

    fn take(&mut self, feed: FeedNo) -> Item {
        let crew = &mut self.slots;
        take_of(&crew.rt, &mut crew.seats[feed.0 as usize])
    }

    fn remove(&mut self, feed: FeedNo) {
        let crew = &mut self.slots;
        shut_at(&mut crew.seats, &mut crew.leaving, feed.0 as usize);
        crew.present = crew.present.saturating_sub(1);
        'left: loop {
            let crew = &mut self.slots;
            match collect(
                &crew.rt,
                &mut crew.seats,
                &mut crew.workers,
                &mut crew.leaving,
            ) {
                Some(feed) => self.folder.take_back(feed.into_hand()),
                None => return,
            }
        }
    }

    fn finish(&mut self) -> Finished {
        let crew = &mut self.slots;
        let feeds = crew.seats.len() as u64;
        stop_all(&crew.rt, &mut crew.workers);
        'feeds: loop {
            let crew = &mut self.slots;
            match crew.seats.pop() {
                Some(Some(seat)) => self.folder.take_back(seat.settle(&crew.rt).into_hand()),
                Some(None) => {}
                None => return Finished { feeds },
            }
        }
    }
}
