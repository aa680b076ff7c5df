//! The rows of coarse universe files: a reader gives exactly the row that a line says, nothing where the line's symbol is no
//! symbol, or the first of the reasons `Fields`, `Price` and `Volume` for which it says none. A row that is read is in range
//! (`laws`).
#![tactic(auto)]

mod coarse;
mod columns;
pub mod laws;
mod numbers;
mod worked;

pub use coarse::read_coarse;
