//! The lines of a tape and the page on which they stand before they go to a sink. A line is written where it stays, behind
//! those that stand there; a full page is written. What was printed is what went into the sink and then the page, and a write
//! that fails took a front of it.
#![tactic(auto)]

mod ended;
mod line;
mod pages;
mod trades;

pub use ended::Ended;
pub use pages::{Page, Stop, append_end, append_refusal, flush, print_row};
pub use trades::Trades;
