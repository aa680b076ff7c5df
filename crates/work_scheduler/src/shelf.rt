ghost use Rattle.std.specs.Prelude.{ℕ, ◌≤◌, length, vec_len, vec_capacity};
ghost use Rattle.work_scheduler.specs.Placings.{numbered};

use crate::Placing;
use lean_items::Feed;

/// The turns that a worker pumps, by the numbers of their feeds.
#[derive(Drop)]
pub struct Shelf<G: Feed> {
    pub(crate) turns: Vec<Placing<G>>,
    // The rooms of the turns' lanes, which each round reads anew.
    pub(crate) rooms: Vec<u32>,
    pub(crate) capacity: usize,
    ghost each_once: { (k : ℕ) → length (numbered k turns.items) ≤ 1 },
    ghost within: { vec_len turns ≤ capacity },
    ghost places: { capacity ≤ vec_capacity turns },
    ghost places_for_rooms: { capacity ≤ vec_capacity rooms },
}
