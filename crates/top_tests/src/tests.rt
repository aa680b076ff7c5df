//! What is tried, and what the tests share.

mod folders;
mod running;
mod universe;
mod week;
mod words;
