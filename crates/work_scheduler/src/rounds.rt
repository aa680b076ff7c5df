//! What a round does to turns that stand in the order of their feeds' numbers.
ghost use Rattle.std.specs.Prelude.{◌≡◌, ◌<◌, ◌≤◌, [], length, take, vec_len, vec_capacity, MatchOption};
ghost use Rattle.std.specs.List.{All, AllZip, HoldsAt};
ghost use Rattle.work_scheduler.specs.Placings.{numbered, all_sent, GrewAt, PlacedOn, IsStuck, OnePumped};

use crate::picking::pick;
use crate::{Placing, Pumped};
use lean_items::{Feed, FeedNo};
use std::sync::Wait;

// Where a turn of a feed is to stand: before the first of a greater number.
pub(crate) fn seat_of<G: Feed>(turns: &[Placing<G>], feed: FeedNo) -> usize
    ensures { result ≤ length turns.now }
{
    for place in 0..turns.len() {
        if feed.0 < turns[place].feed.0 {
            return place;
        }
    }
    turns.len()
}

// Where the turn of a feed stands.
pub(crate) fn place_of<G: Feed>(turns: &[Placing<G>], feed: FeedNo) -> Option<usize>
    ensures { MatchOption result (numbered feed.0 turns.now ≡ [])
        (λ place. (place < length turns.now) × HoldsAt (λ p. p.feed.0 ≡ feed.0) turns.now place) }
{
    for place in 0..turns.len() {
        if turns[place].feed.0 == feed.0 {
            return Some(place);
        }
    }
    None
}

// Reads the rooms of the turns' lanes, in their order.
pub(crate) fn read_rooms<G: Feed, R: Wait>(rt: &R, turns: &mut [Placing<G>], rooms: &mut Vec<u32>)
    requires empty { vec_len rooms.old ≡ 0 }
    requires space { length turns.old ≤ vec_capacity rooms.old }
    ensures ran { AllZip PlacedOn turns.old turns.new }
    ensures sent { all_sent turns.new ≡ all_sent turns.old }
    ensures read { vec_len rooms.new ≡ length turns.old }
    ensures capacity { vec_capacity rooms.new ≡ vec_capacity rooms.old }
{
    for place in 0..turns.len() {
        let placing = &mut turns[place];
        let room = placing.turn.room(rt);
        rooms.push_reserved(room);
    }
}

// Pumps the turn at a place.
pub(crate) fn pump_at<G: Feed, R: Wait>(
    rt: &R,
    turns: &mut [Placing<G>],
    place: usize,
    batch: u32,
) -> Pumped
    requires within { place < length turns.old }
    requires some { 1 ≤ batch }
    ensures ran { AllZip PlacedOn turns.old turns.new }
    ensures sent { GrewAt place result.sent (all_sent turns.old) (all_sent turns.new) }
    ensures before { take place turns.new ≡ take place turns.old }
    ensures stuck { result.sent ≡ 0 → HoldsAt IsStuck turns.new place }
{
    let placing = &mut turns[place];
    placing.turn.pump(rt, batch)
}

// Pumps the turns one after another, until one has sent an item.
pub(crate) fn pump_first<G: Feed, R: Wait>(
    rt: &R,
    turns: &mut [Placing<G>],
    batch: u32,
) -> Option<Pumped>
    requires { 1 ≤ batch }
    ensures ran { AllZip PlacedOn turns.old turns.new }
    ensures pumped { MatchOption result
        ((all_sent turns.new ≡ all_sent turns.old) × All IsStuck turns.new)
        (λ pumped. OnePumped pumped turns.old turns.new) }
{
    for place in 0..turns.len() {
        let pumped = pump_at(rt, turns, place, batch);
        if pumped.sent > 0 {
            return Some(pumped);
        }
    }
    None
}

// Pumps the turn that has the most room, or, where no turn has any, one after another until one has sent an item.
pub(crate) fn pump_one<G: Feed, R: Wait>(
    rt: &R,
    turns: &mut [Placing<G>],
    rooms: &mut Vec<u32>,
    batch: u32,
) -> Option<Pumped>
    requires some { 1 ≤ batch }
    requires space { length turns.old ≤ vec_capacity rooms.old }
    ensures ran { AllZip PlacedOn turns.old turns.new }
    ensures pumped { MatchOption result
        ((all_sent turns.new ≡ all_sent turns.old) × All IsStuck turns.new)
        (λ pumped. OnePumped pumped turns.old turns.new) }
    ensures capacity { vec_capacity rooms.new ≡ vec_capacity rooms.old }
{
    rooms.clear();
    read_rooms(rt, turns, rooms);
    match pick(rooms.as_slice()) {
        Some(place) => Some(pump_at(rt, turns, place, batch)),
        None => pump_first(rt, turns, batch),
    }
}
