//! What is tried, and what the tests share.

mod limits;
mod lines;
mod orders;
mod playing;
mod slices;
mod strangers;
mod universes;
