ghost use Rattle.std.specs.Prelude.{◌≡◌, ℕ, ◌⊎◌, ◌<◌, ◌≤◌, true, false, if◌then◌else◌, List, [], Option, Some, None};
ghost use Rattle.feed_queue.specs.Lanes.{sent_of as sent_by, lane_of, capacity_of, WasFull};
ghost use Rattle.lean_items.specs.declared.item.Item.{Item as GivenItem};
ghost use Rattle.lean_items.specs.Given.{is_last};
ghost use Rattle.work_scheduler.specs.Turns.{feed_of, sent_of, given_of, turn_lane, room_of_lane, is_done, Stands, RanOn, SentMore};

use crate::Turn;
use feed_queue::Writer;
use lean_items::{Feed, Item};
use std::sync::Wait;

/// What a pump did.
#[derive(Clone, Copy, Debug, PartialEq, Eq)]
pub struct Pumped {
    /// How many items it sent.
    pub sent: u32,
    /// Whether it stopped at a lane that was full.
    pub full: bool,
    /// Whether the feed's last item was sent.
    pub ended: bool,
}

/// The parts of a turn.
#[derive(Drop)]
pub struct Parts<G: Feed> {
    pub feed: G,
    pub out: Writer<Item>,
    /// The item that the feed gave and the lane did not take yet.
    pub held: Option<Item>,
}

impl<G: Feed> Turn<G> {
    /// The turn of a feed that has given nothing, into a lane that nothing was sent into.
    pub fn new(feed: G, out: Writer<Item>) -> Turn<G>
        requires fresh { G.has_ended feed ≡ false }
        requires empty { sent_by out ≡ [] }
        ensures feed { feed_of result ≡ feed }
        ensures given { given_of result ≡ [] }
        ensures open { is_done result ≡ false }
        ensures lane { turn_lane result ≡ lane_of out }
        ensures capacity { room_of_lane result ≡ capacity_of out }
        ensures stands { (told : Option (List GivenItem))
            → ((list : List GivenItem) → told ≡ Some list → G.leaves feed list)
            → Stands told (G.faults feed) result }
    {
        Turn {
            feed,
            out,
            held: None,
            over: false,
        }
    }

    /// Whether the feed's last item was sent.
    pub fn is_over(&self) -> bool
        ensures { result ≡ is_done self.now }
    {
        self.over && self.held.is_none()
    }

    /// How many items the lane had room for at a moment of this call, and 0 where the feed's last item was sent: a hint of which
    /// turn to pump.
    pub fn room<R: Wait>(&mut self, rt: &R) -> u32
        ensures few { result ≤ room_of_lane self.old }
        ensures over { is_done self.old ≡ true → result ≡ 0 }
        ensures sent { sent_of self.new ≡ sent_of self.old }
        ensures done { is_done self.new ≡ is_done self.old }
        ensures ran { RanOn self.old self.new }
    {
        if self.is_over() {
            return 0;
        }
        self.out.room(rt)
    }

    /// Sends the feed's next items, at most `batch` of them, and fewer only where the last item was sent or the lane was full at a
    /// moment of this call: then the turn keeps the item in hand for the next call. It takes no memory.
    pub fn pump<R: Wait>(&mut self, rt: &R, batch: u32) -> Pumped
        ensures sent { SentMore result.sent (sent_of self.old) (sent_of self.new) }
        ensures few { result.sent ≤ batch }
        ensures short { result.sent < batch → (result.ended ≡ true) ⊎ (result.full ≡ true) }
        ensures full { result.full ≡ true → WasFull (room_of_lane self.old) (sent_of self.new) }
        ensures ended { result.ended ≡ is_done self.new }
        ensures ran { RanOn self.old self.new }
    {
        let mut sent = 0;
        while sent < batch {
            if self.is_over() {
                return Pumped {
                    sent,
                    full: false,
                    ended: true,
                };
            }
            if !self.send_next(rt) {
                return Pumped {
                    sent,
                    full: true,
                    ended: false,
                };
            }
            sent += 1;
        }
        let ended = self.is_over();
        Pumped {
            sent,
            full: false,
            ended,
        }
    }

    /// The feed, the end of its lane, and the item in hand.
    pub fn into_parts(self) -> Parts<G>
        ensures feed { result.feed ≡ self.feed }
        ensures out { result.out ≡ self.out }
        ensures held { result.held ≡ self.held }
    {
        let Turn {
            feed,
            out,
            held,
            over: _over,
        } = self;
        Parts { feed, out, held }
    }

    // The item in hand, or the next one, which is then in hand.
    fn draw(&mut self) -> Item
        requires { is_done self.old ≡ false }
        ensures held { self.new.held ≡ Some result }
        ensures sent { sent_of self.new ≡ sent_of self.old }
        ensures ran { RanOn self.old self.new }
    {
        match self.held {
            Some(item) => item,
            None => {
                let item = self.feed.next();
                self.over = is_last(&item);
                self.held = Some(*&item);
                item
            }
        }
    }

    // Sends the item in hand, or the next one, and says whether the lane had room for it.
    fn send_next<R: Wait>(&mut self, rt: &R) -> bool
        requires { is_done self.old ≡ false }
        ensures sent { SentMore (if result then 1 else 0) (sent_of self.old) (sent_of self.new) }
        ensures full { result ≡ false → WasFull (room_of_lane self.old) (sent_of self.new) }
        ensures open { result ≡ false → is_done self.new ≡ false }
        ensures ran { RanOn self.old self.new }
    {
        let item = self.draw();
        match self.out.push(rt, item) {
            Ok(()) => {
                self.held = None;
                true
            }
            Err(_full) => false,
        }
    }
}

// Whether nothing comes behind an item.
fn is_last(item: &Item) -> bool
    ensures { result ≡ is_last item.now }
{
    match item {
        Item::Bar(_) => false,
        Item::Coarse(_, _) => false,
        Item::Bad(_) => true,
        Item::Faulted => true,
        Item::End => true,
    }
}
