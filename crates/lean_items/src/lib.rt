//! What passes between the parts of a backtest: bars and rows of the coarse universe, the keys of the feeds that give them,
//! what a feed gives next, and the reasons for which a line of a data file is refused.
#![tactic(auto)]

mod arrival;
mod bad;
mod bar;
mod coarse_row;
mod feed_key;
mod feed_no;
mod feeds;
mod finished;
mod item;
mod pools;
mod reason;

pub use arrival::Arrival;
pub use bad::Bad;
pub use bar::Bar;
pub use coarse_row::CoarseRow;
pub use feed_key::{FeedKey, FeedKind};
pub use feed_no::FeedNo;
pub use feeds::Feed;
pub use finished::Finished;
pub use item::Item;
pub use pools::Pool;
pub use reason::Reason;
