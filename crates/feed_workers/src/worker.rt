ghost use Rattle.std.specs.Prelude.{◌≤◌, vec_len, vec_capacity};
ghost use Rattle.feed_queue.specs.Lanes.{taken_of};
ghost use Rattle.feed_workers.specs.Errands.{IsNoneLost};

use crate::Away;
use crate::errand::Errand;
use feed_queue::Reader;
use lean_items::{Feed, FeedNo};

// A feed's number, and its turn.
#[derive(Drop)]
pub(crate) struct Posted<G: Feed> {
    pub(crate) feed: FeedNo,
    pub(crate) away: Away<G>,
}

// What a worker has in its thread: the turns that its errands brought, save those that it let go home.
#[derive(Drop)]
pub(crate) struct Worker<G: Feed> {
    pub(crate) errands: Reader<Errand<G>>,
    pub(crate) turns: Vec<Posted<G>>,
    // The rooms of the turns' lanes, which each round reads anew.
    pub(crate) rooms: Vec<u32>,
    ghost few: { vec_len turns ≤ 1024 },
    ghost places: { 1024 ≤ vec_capacity turns },
    ghost places_for_rooms: { 1024 ≤ vec_capacity rooms },
    ghost none_lost: { IsNoneLost (taken_of errands) (vec_len turns) },
}
