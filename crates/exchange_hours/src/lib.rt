//! The hours of the exchange: the sessions of its days as an hours file of LEAN gives them, and the grid of the bars
//! that lie in them. What a file says is a definition over its bytes, and every answer here is that of the definition.
#![tactic(auto)]

mod closed_days;
mod dates;
mod entries;
mod fault;
mod json;
pub mod laws;
mod market_hours;
mod segments;
mod sessions;
mod spans;
mod table;
mod times;
mod worked;

pub use entries::{EarlyClose, Segment};
pub use fault::HoursFault;
pub use market_hours::Hours;
pub use sessions::Session;
