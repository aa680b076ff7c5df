ghost use Rattle.std.specs.Prelude.{◌≡◌, ℕ, ◌+◌, ◌<◌, ◌≤◌, ◌==◌, if◌then◌else◌, [], ◌∷◌, length, IfOk, MatchOption, MatchResult};
ghost use Rattle.std.specs.List.{All, AllZip};
ghost use Rattle.work_scheduler.specs.Placings.{numbered, all_sent, PlacedOn, IsStuck, OnePumped};
ghost use Rattle.work_scheduler.specs.Shelves.{on_shelf, places_of};

use crate::rounds::{place_of, pump_one, seat_of};
use crate::{Placing, Pumped, Shelf, Turn};
use lean_fixed::NoMemory;
use lean_items::{Feed, FeedNo};
use std::alloc::Global;
use std::sync::Wait;

/// A shelf has no place left, and gives the turn back.
#[derive(Drop)]
pub struct Placed<G: Feed> {
    pub turn: Turn<G>,
}

impl<G: Feed + Drop> Shelf<G> {
    /// A shelf with no turn on it and so many places. It takes all memory that the shelf needs.
    pub fn new(alloc: Global, capacity: usize) -> Result<Shelf<G>, NoMemory>
        ensures turns { IfOk result (λ shelf. on_shelf shelf ≡ []) }
        ensures places { IfOk result (λ shelf. places_of shelf ≡ capacity) }
    {
        let turns = Vec::with_capacity(alloc, capacity)?;
        let rooms = Vec::with_capacity(alloc, capacity)?;
        Ok(Shelf {
            turns,
            rooms,
            capacity,
        })
    }

    /// Puts the turn of a feed on the shelf, of which none is there. `Placed`: no place is left, and nothing changed.
    pub fn place(&mut self, feed: FeedNo, turn: Turn<G>) -> Result<(), Placed<G>>
        requires { numbered feed.0 (on_shelf self.old) ≡ [] }
        ensures turns { MatchResult result
            (λ _. (k : ℕ) → numbered k (on_shelf self.new)
            ≡ (if feed.0 == k then (record { feed = feed; turn = turn }) ∷ [] else numbered k (on_shelf self.old)))
            (λ placed. (placed.turn ≡ turn) × (on_shelf self.new ≡ on_shelf self.old)) }
        ensures count { MatchResult result
            (λ _. length (on_shelf self.new) ≡ length (on_shelf self.old) + 1)
            (λ _. length (on_shelf self.old) ≡ places_of self.old) }
        ensures places { places_of self.new ≡ places_of self.old }
    {
        if self.turns.len() == self.capacity {
            return Err(Placed { turn });
        }
        let place = seat_of(self.turns.as_slice(), *&feed);
        match self.turns.insert(place, Placing { feed, turn }) {
            Ok(()) => Ok(()),
            Err(_) => unreachable!(),
        }
    }

    /// Takes the turn of a feed off the shelf. `None`: it is not there, and nothing changed.
    pub fn lift(&mut self, feed: FeedNo) -> Option<Turn<G>>
        ensures turn { MatchOption result
            ((numbered feed.0 (on_shelf self.old) ≡ []) × (on_shelf self.new ≡ on_shelf self.old))
            (λ turn. (numbered feed.0 (on_shelf self.old) ≡ (record { feed = feed; turn = turn }) ∷ [])
            × ((k : ℕ) → numbered k (on_shelf self.new) ≡ (if feed.0 == k then [] else numbered k (on_shelf self.old)))
            × (length (on_shelf self.new) + 1 ≡ length (on_shelf self.old))) }
        ensures places { places_of self.new ≡ places_of self.old }
    {
        match place_of(self.turns.as_slice(), feed) {
            Some(place) => {
                let Placing { feed: _feed, turn } = self.turns.remove(place);
                Some(turn)
            }
            None => None,
        }
    }

    /// Pumps the turn that `pick` names among the rooms of the turns' lanes, or, where it names none, one turn after another until
    /// one has sent an item. `None`: each turn has sent its feed's last item, or its lane was full at a moment of this call. It
    /// takes no memory.
    pub fn round<R: Wait>(&mut self, rt: &R, batch: u32) -> Option<Pumped>
        requires { 1 ≤ batch }
        ensures ran { AllZip PlacedOn (on_shelf self.old) (on_shelf self.new) }
        ensures pumped { MatchOption result
            ((all_sent (on_shelf self.new) ≡ all_sent (on_shelf self.old)) × All IsStuck (on_shelf self.new))
            (λ pumped. OnePumped pumped (on_shelf self.old) (on_shelf self.new)) }
        ensures places { places_of self.new ≡ places_of self.old }
    {
        pump_one(rt, self.turns.as_mut_slice(), &mut self.rooms, batch)
    }
}
