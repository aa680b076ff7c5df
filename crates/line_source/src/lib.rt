//! The numbered lines of the open file of a hand, one after the other through a fixed buffer. What is given is what the
//! definition says of the file's whole list of bytes, however the hand cuts its reads; no memory is taken.
#![tactic(auto)]

mod buffer;
mod bytes;
pub mod laws;
mod line;
mod lines;
mod raw;
mod reader;
mod worked;

pub use line::Line;
pub use reader::Lines;
