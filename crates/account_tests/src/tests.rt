//! What is tried, and what the tests share.

mod books;
mod cases;
mod costs;
mod fills;
mod lines;
mod power;
mod summaries;
mod sums;
