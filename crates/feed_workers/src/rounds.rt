//! What a round does to the turns of a worker.
ghost use Rattle.std.specs.Prelude.{◌≡◌, ◌<◌, ◌≤◌, length, vec_len, vec_capacity, IfSome};

use crate::seating::BATCH;
use crate::worker::Posted;
use lean_items::{Feed, FeedNo};
use std::sync::Wait;
use work_scheduler::pick;

// Where the turn of a feed stands.
pub(crate) fn place_of<G: Feed>(turns: &[Posted<G>], feed: &FeedNo) -> Option<usize>
    ensures { IfSome result (λ place. place < length turns.now) }
{
    for place in 0..turns.len() {
        if turns[place].feed.0 == feed.0 {
            return Some(place);
        }
    }
    None
}

// Reads the rooms of the turns' lanes, in their order.
fn read_rooms<G: Feed + Drop, R: Wait>(rt: &R, turns: &mut [Posted<G>], rooms: &mut Vec<u32>)
    requires empty { vec_len rooms.old ≡ 0 }
    requires space { length turns.old ≤ vec_capacity rooms.old }
    ensures long { length turns.new ≡ length turns.old }
    ensures read { vec_len rooms.new ≡ length turns.old }
    ensures capacity { vec_capacity rooms.new ≡ vec_capacity rooms.old }
{
    for place in 0..turns.len() {
        let posted = &mut turns[place];
        let room = posted.away.room(rt);
        rooms.push_reserved(room);
    }
}

// Pumps the turn at a place. How many items it sent.
fn pump_at<G: Feed + Drop, R: Wait>(rt: &R, turns: &mut [Posted<G>], place: usize) -> u32
    requires { place < length turns.old }
    ensures { length turns.new ≡ length turns.old }
{
    let posted = &mut turns[place];
    posted.away.pump(rt, BATCH).sent
}

// Pumps the turns one after another, until one has sent an item. Whether one has.
fn pump_first<G: Feed + Drop, R: Wait>(rt: &R, turns: &mut [Posted<G>]) -> bool
    ensures { length turns.new ≡ length turns.old }
{
    for place in 0..turns.len() {
        if pump_at(rt, turns, place) > 0 {
            return true;
        }
    }
    false
}

// Pumps the turn that has the most room, or, where no turn has any, one after another until one has sent an item. Whether one has.
pub(crate) fn pump_one<G: Feed + Drop, R: Wait>(
    rt: &R,
    turns: &mut [Posted<G>],
    rooms: &mut Vec<u32>,
) -> bool
    requires { length turns.old ≤ vec_capacity rooms.old }
    ensures long { length turns.new ≡ length turns.old }
    ensures capacity { vec_capacity rooms.new ≡ vec_capacity rooms.old }
{
    rooms.clear();
    read_rooms(rt, turns, rooms);
    match pick(rooms.as_slice()) {
        Some(place) => pump_at(rt, turns, place) > 0,
        None => pump_first(rt, turns),
    }
}
