//! A feed whose last bar is given again where the grid of the market's hours has no trade. What it gives is the list of the
//! definition, which walks every minute up to the end of the window; the feed itself goes from one end of a bar to the next,
//! and takes no memory.
#![tactic(auto)]

mod again;
mod ahead;
mod feed;
mod filled_feed;

pub use filled_feed::FilledFeed;
