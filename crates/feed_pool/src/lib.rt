//! Pools of feeds over the files of a folder. The list of each feed is that of the definition over the folder's files, whatever
//! other feeds there are, and a failed read is given only where the folder's count of faults has risen when the pool is
//! finished.
#![tactic(auto)]

mod crew;
mod crewing;
mod filled;
mod hand_feed;
mod pool_over;
mod serial;
mod slots;
mod workers;

pub use crew::Crew;
pub use hand_feed::HandFeed;
pub use pool_over::PoolOver;
pub use serial::SerialPool;
pub use slots::Slots;
pub use workers::WorkerPool;
