//! Feeds that are read by workers, each in a thread of its own. The turn of a feed goes out to a worker and comes home by a ring of
//! its own, whose rule is that what comes home is the turn that the ring was made for, run on. So nothing is asked of a worker, and
//! what was taken of a feed's lane, and what the turn that came home has sent, follow one list.
#![tactic(auto)]

mod away;
mod awaying;
mod berth;
mod calling;
mod disbanding;
mod errand;
mod ran;
mod rounds;
mod seat;
mod seating;
mod sending;
mod settling;
mod spot;
mod worker;
mod working;

pub use away::Away;
pub use berth::Berth;
pub use ran::Ran;
pub use seat::Seat;
pub use sending::Running;
pub use spot::Spot;
