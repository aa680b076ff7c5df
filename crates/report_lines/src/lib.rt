//! The lines in which a report tells each order's life, both ways: what is written is read as the same event (`laws`), and
//! what is read writes the same bytes.
#![tactic(auto)]

mod kinds;
pub mod laws;
mod moments;
mod numbers;
mod put;
mod read;
mod words;
mod write;

pub use read::read_event;
pub use write::write_event;
