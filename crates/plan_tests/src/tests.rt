//! What is tried, and what the tests share.

mod asking;
mod cases;
mod faults;
mod files;
mod texts;
