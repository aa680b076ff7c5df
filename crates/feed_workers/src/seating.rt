ghost use Rattle.std.specs.Prelude.{◌≡◌, ◌+◌, ◌-◌, ◌^◌, ◌<◌, ◌++◌, [], ◌∷◌, not, MatchOption};
ghost use Rattle.feed_queue.specs.Lanes.{taken_of};
ghost use Rattle.lean_items.specs.Given.{is_last};
ghost use Rattle.feed_workers.specs.Shown.{shown, TookItem};

use crate::{Seat, Spot};
use lean_items::{Feed, Item};
use std::sync::Wait;
use std::thread;

// How many items are sent at a time.
pub(crate) const BATCH: u32 = 32;

// Of a feed no more items come than this.
const LIMIT: u64 = (1 << 40) - 1;

impl<G: Feed + Drop> Seat<G> {
    /// Takes the feed's next item, for which it waits. The turn is pumped where it is here.
    pub fn take<R: Wait>(&mut self, rt: &R) -> Item
        ensures { TookItem (shown self.old) (shown self.new) result }
    {
        for _ in rt.forever() {
            match self.pop(rt) {
                Some(item) => return item,
                None => self.serve(rt),
            }
        }
        unreachable!()
    }

    // Takes an item of the lane, if there is one.
    fn pop<R: Wait>(&mut self, rt: &R) -> Option<Item>
        ensures origin { self.new.origin.value ≡ self.old.origin.value }
        ensures popped { MatchOption result ((taken_of self.new.reader ≡ taken_of self.old.reader) × (self.new.count ≡ self.old.count))
            (λ item. (taken_of self.new.reader ≡ taken_of self.old.reader ++ item ∷ [])
            × (self.new.open ≡ not (is_last item)) × (self.old.count < 2 ^ 40 - 1) × (self.new.count ≡ self.old.count + 1)) }
    {
        if self.count >= LIMIT {
            return None;
        }
        match self.reader.pop(rt) {
            Some(item) => {
                self.count += 1;
                self.open = !is_last(&item);
                Some(item)
            }
            None => None,
        }
    }

    // Sends the feed's next items, where its turn is here or came home.
    fn serve<R: Wait>(&mut self, rt: &R)
        ensures origin { self.new.origin.value ≡ self.old.origin.value }
        ensures reader { self.new.reader ≡ self.old.reader }
        ensures open { self.new.open ≡ self.old.open }
        ensures count { self.new.count ≡ self.old.count }
    {
        match &mut self.spot {
            Spot::Ready(away) => {
                away.pump(rt, BATCH);
            }
            Spot::Home(turn) => {
                turn.pump(rt, BATCH);
            }
            Spot::Out => match self.home.pop() {
                Ok(turn) => self.spot = Spot::Home(turn),
                Err(_) => thread::yield_now(),
            },
        }
    }
}

// Whether nothing comes behind an item.
fn is_last(item: &Item) -> bool
    ensures { result ≡ is_last item.now }
{
    match item {
        Item::Bar(_) => false,
        Item::Coarse(_, _) => false,
        Item::Bad(_) => true,
        Item::Faulted => true,
        Item::End => true,
    }
}
