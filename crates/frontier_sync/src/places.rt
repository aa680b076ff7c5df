//! Where the head of a feed stands among heads with rising feed numbers.
ghost use Rattle.std.specs.Prelude.{◌≡◌, ◌<◌, ◌≤◌, true, false, length, take, drop, OnOk, OnErr};
ghost use Rattle.std.specs.List.{All};
ghost use Rattle.frontier_sync.specs.Heads.{put, without, AreRising, StandsAt};

use lean_fixed::NoMemory;
use lean_items::{Arrival, FeedNo};

// Puts a head in the place of the one of its feed, if there is one.
pub(crate) fn put(heads: &mut Vec<Arrival>, head: Arrival) -> Result<(), NoMemory>
    requires { AreRising heads.old.items }
    ensures ok { OnOk result (heads.new.items ≡ put head heads.old.items) }
    ensures err { OnErr result (heads.new.items ≡ heads.old.items) }
{
    let place = place_of(heads, head.feed);
    if stands_at(heads, place, head.feed) {
        heads[place] = head;
    } else {
        heads.insert(place, head)?;
    }
    Ok(())
}

// Takes the head of a feed away, if there is one.
pub(crate) fn forget(heads: &mut Vec<Arrival>, feed: FeedNo)
    requires { AreRising heads.old.items }
    ensures { heads.new.items ≡ without feed.0 heads.old.items }
{
    let place = place_of(heads, feed);
    if stands_at(heads, place, feed) {
        let _ = heads.remove(place);
    }
}

// The place at which the head of a feed stands, or would stand.
fn place_of(heads: &[Arrival], feed: FeedNo) -> usize
    requires { AreRising heads.now }
    ensures within { result ≤ length heads.now }
    ensures lower { All (λ a. a.feed.0 < feed.0) (take result heads.now) }
    ensures upper { All (λ a. feed.0 ≤ a.feed.0) (drop result heads.now) }
{
    for (place, head) in heads.iter().enumerate() {
        if head.feed.0 >= feed.0 {
            return place;
        }
    }
    heads.len()
}

// Whether the head of a feed stands at the place at which it would stand.
fn stands_at(heads: &[Arrival], place: usize, feed: FeedNo) -> bool
    requires rising { AreRising heads.now }
    requires upper { All (λ a. feed.0 ≤ a.feed.0) (drop place heads.now) }
    ensures there { result ≡ true → StandsAt heads.now place feed.0 }
    ensures absent { result ≡ false → All (λ a. feed.0 < a.feed.0) (drop place heads.now) }
{
    place < heads.len() && heads[place].feed.0 == feed.0
}
