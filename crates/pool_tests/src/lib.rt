//! Tests of what the feeds of a pool promise: a feed and a pool over items in memory, callers that take what they get of any
//! pool or folder, and tests of feeds, pools and merges over files in memory.
#![tactic(auto)]

#[cfg(test)]
mod failing;
#[cfg(test)]
mod filled;
#[cfg(test)]
mod folders;
mod mem_feed;
mod mem_pool;
#[cfg(test)]
mod merges;
mod merging;
#[cfg(test)]
mod pools;
#[cfg(test)]
mod rows;
#[cfg(test)]
mod said;
mod script;
#[cfg(test)]
mod scripts;
mod serial;
mod taking;

pub use mem_feed::MemFeed;
pub use mem_pool::MemPool;
pub use merging::{begin, leave};
pub use script::Script;
pub use serial::take_serial;
pub use taking::{take_all, take_feed};
