ghost use Rattle.std.specs.Prelude.{◌≡◌, ℕ, ◌<◌, false, true, [], List, Option, Some, IfOk};
ghost use Rattle.feed_queue.specs.Lanes.{sent_of, taken_of, lane_of, lane_of_reader};
ghost use Rattle.rtrb.specs.Ring.{sent, received, known_items, known_free, IsPair};
ghost use Rattle.work_scheduler.specs.Turns.{turn_lane, Stands};
ghost use Rattle.lean_items.specs.declared.item.Item.{Item as GivenItem};
ghost use Rattle.feed_workers.specs.Shown.{shown};

use crate::ran::Ran;
use crate::{Away, Seat, Spot};
use feed_queue::{Reader, Writer, lane};
use lean_fixed::NoMemory;
use lean_items::{Feed, Item};
use rtrb::{Consumer, Producer, RingBuffer};
use std::alloc::Global;
use std::snapshot::Snapshot;
use work_scheduler::Turn;

// How many items a feed's lane holds.
const LANE: usize = 128;

/// All that the seat of a feed takes memory for.
#[derive(Drop)]
pub struct Berth<G: Feed> {
    writer: Writer<Item>,
    reader: Reader<Item>,
    out: Producer<Turn<G>, Global, Ran>,
    home: Consumer<Turn<G>, Global, Ran>,
    ghost lane: { lane_of writer ≡ lane_of_reader reader },
    ghost none_sent: { sent_of writer ≡ [] },
    ghost none_taken: { taken_of reader ≡ [] },
    ghost pair: { IsPair out home },
    ghost fresh: { sent out ≡ [] },
    ghost empty: { received home ≡ [] },
    ghost none_known: { known_items home ≡ [] },
    ghost room: { known_free out ≡ 2 },
}

impl<G: Feed + Drop> Berth<G> {
    /// The lane of a feed, and the ring by which its turn comes home.
    pub fn new(alloc: Global) -> Result<Berth<G>, NoMemory> {
        let (writer, reader) = lane(alloc, LANE)?;
        let (out, home) = RingBuffer::with_protocol::<Global, Ran>(alloc, 2)?;
        Ok(Berth {
            writer,
            reader,
            out,
            home,
        })
    }

    /// The seat of a feed that nothing was taken of. Its turn is here.
    pub fn seat(self, feed: G) -> Seat<G>
        requires { G.has_ended feed ≡ false }
        ensures items { (shown result).items ≡ [] }
        ensures opened { (shown result).open_now ≡ true }
        ensures stands { (told : Option (List GivenItem))
            → ((list : List GivenItem) → told ≡ Some list → G.leaves feed list)
            → Stands told (G.faults feed) (shown result).origin }
    {
        let Berth {
            writer,
            reader,
            out,
            home,
        } = self;
        open_seat(Turn::new(feed, writer), reader, out, home)
    }
}

// The turn goes through the ring once, so that the ring knows what may come home.
fn open_seat<G: Feed + Drop>(
    turn: Turn<G>,
    reader: Reader<Item>,
    mut out: Producer<Turn<G>, Global, Ran>,
    mut home: Consumer<Turn<G>, Global, Ran>,
) -> Seat<G>
    requires lane { lane_of_reader reader ≡ turn_lane turn }
    requires pair { IsPair out home }
    requires fresh { sent out ≡ [] }
    requires empty { received home ≡ [] }
    requires none { known_items home ≡ [] }
    requires room { known_free out ≡ 2 }
    ensures origin { result.origin.value ≡ turn }
    ensures items { taken_of result.reader ≡ taken_of reader }
    ensures opened { result.open ≡ true }
{
    let origin = Snapshot::of(&turn);
    out.push_reserved(turn);
    home.slots_beside(&mut out);
    let turn = home.pop_known();
    Seat {
        reader,
        home,
        origin,
        spot: Spot::Ready(Away { turn, home: out }),
        open: true,
        count: 0,
        station: 0,
        called: false,
    }
}
