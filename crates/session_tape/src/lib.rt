//! The session tape: the bars of minute, hour or daily files that are in session, by their ends and then in the order of the
//! symbols, over any pool of feeds. What is printed is a walk over every minute of the window, which asks of all rows which
//! end then; the code goes from one end to the next.
#![tactic(auto)]

mod ending;
mod feeds;
pub mod laws;
mod minutes;
mod printing;
mod tape;
mod walk;

pub use tape::print_session;
