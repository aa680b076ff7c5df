//! Tests of lanes, of turns and of shelves: worked cases, and items that go through a lane from one thread to another.
#![tactic(auto)]

mod relaying;
mod rows;
#[cfg(test)]
mod tests;
mod worked_lanes;
mod worked_shelves;
mod worked_turns;

pub use relaying::{Relayed, relay};
pub use rows::Rows;
pub use worked_lanes::{one_place, two_places};
pub use worked_shelves::{Rounds, one_turn, two_turns};
pub use worked_turns::{Kind, Pumps, failed_read, item_in_hand, kind_of, three_rows};
