//! Feeds merged by the ends of their items: one head a feed, the least end is the next moment, and the items that end there
//! are given by the numbers of their feeds. What does not fit behind the item before it is passed over, so that every item
//! of every pool can be merged.
#![tactic(auto)]

mod ends;
mod first;
mod fits;
mod heads;
pub mod laws;
mod places;
mod refill;
mod seen;
mod taking;

pub use first::first_head;
pub use heads::Heads;
