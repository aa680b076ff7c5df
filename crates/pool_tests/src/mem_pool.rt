ghost use Rattle.std.specs.Prelude.{◌≡◌, ◌<◌, ◌≤◌, ◌^◌};
ghost use Rattle.lean_fixed.specs.Counts.{Rose};
ghost use Rattle.lean_items.specs.Given.{OnRow, OnFaulted};
ghost use Rattle.pool_tests.specs.Places.{first_place, place_behind};

use crate::Script;
use lean_fixed::NoMemory;
use lean_items::{FeedKey, FeedNo, Finished, Item, Pool};
use std::alloc::Global;

/// A pool of feeds of one script, which borrows the count of faults that it raises. It has no hands.
#[derive(Drop)]
pub struct MemPool<'a> {
    faults: &'a mut u64,
    script: Script,
    places: Vec<Option<usize>>,
}

impl<'a> MemPool<'a> {
    ghost use Rattle.std.specs.Prelude.{◌≡◌, Some};
    ghost use Rattle.lean_items.specs.Taken.{no_feeds};
    ghost use Rattle.pool_tests.specs.Scripts.{items_of};
    ghost use Rattle.pool_tests.specs.Places.{list_at};

    /// A pool of the feeds of a script, with none added.
    pub fn new(alloc: Global, script: Script, faults: &'a mut u64) -> MemPool<'a>
        ensures stands { ⟦<MemPool<'a> as Pool>⟧.stands result (record { faults = faults.old; hands = 0 }) no_feeds }
        ensures lists { ⟦<MemPool<'a> as Pool>⟧.lists result ≡ Some (list_at (items_of script)) }
        ensures added { ⟦<MemPool<'a> as Pool>⟧.added result ≡ 0 }
        ensures place { ⟦<MemPool<'a> as Pool>⟧.place result ≡ faults.entry.ghost_name }
    {
        MemPool {
            faults,
            script,
            places: Vec::new(alloc),
        }
    }
}

impl Pool for MemPool<'_> {
    ghost use Rattle.std.specs.Prelude.{◌<◌, Some, None, slice_index_or, vec_len};
    ghost use Rattle.pool_tests.specs.Scripts.{items_of};
    ghost use Rattle.pool_tests.specs.Places.{list_at, is_open_at, room_behind, room-behind_few, Stands};

    ghost files = { λ _. None };

    ghost lists = { λ pool. Some (list_at (items_of pool.script)) };

    ghost faults = { λ pool. pool.faults.now };

    ghost hands = { λ _. 0 };

    ghost added = { λ pool. vec_len pool.places };

    ghost is_open = { λ pool n. is_open_at pool.places.items n };

    ghost room = { λ pool n. room_behind (vec_len pool.script.items) (slice_index_or pool.places.items n None) };

    ghost stands = { λ pool start feeds. Stands (items_of pool.script) start pool.faults.now pool.places.items feeds };

    ghost place = { λ pool. pool.faults.ghost_name };

    ghost few = { λ pool n. room-behind_few (vec_len pool.script.items) (slice_index_or pool.places.items n None) pool.script.few };

    fn add(&mut self, alloc: Global, key: FeedKey) -> Result<FeedNo, NoMemory> {
        let number = self.places.len() as u64;
        self.places.push(Some(first_place(&key)))?;
        Ok(FeedNo(number))
    }

    fn take(&mut self, feed: FeedNo) -> Item {
        let place = feed.0 as usize;
        let Some(at) = self.places[place] else {
            unreachable!()
        };
        let item = self.script.at(at);
        self.places[place] = place_behind(&item, at);
        count_fault(&item, self.faults);
        item
    }

    fn remove(&mut self, feed: FeedNo) {
        let place = feed.0 as usize;
        if place < self.places.len() {
            self.places[place] = None;
        }
    }

    fn finish(&mut self) -> Finished {
        Finished {
            feeds: self.places.len() as u64,
        }
    }
}

// The place at which a feed begins.
fn first_place(key: &FeedKey) -> usize
    ensures { result ≡ first_place key.now }
{
    if key.fill { 0 } else { 1 }
}

// The place behind an item, where more is to come.
fn place_behind(item: &Item, place: usize) -> Option<usize>
    requires { OnRow item.now (place < 2 ^ 40) }
    ensures { result ≡ place_behind item.now place }
{
    match item {
        Item::Bar(_) => Some(place + 1),
        Item::Coarse(_, _) => Some(place + 1),
        Item::Bad(_) => None,
        Item::Faulted => None,
        Item::End => None,
    }
}

// Counts a read that failed.
fn count_fault(item: &Item, faults: &mut u64)
    ensures rose { OnFaulted item.now (Rose faults.old faults.new) }
    ensures grows { faults.old ≤ faults.new }
{
    if matches!(item, Item::Faulted) && *faults < u64::MAX {
        *faults += 1;
    }
}
