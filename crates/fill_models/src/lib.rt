//! Which bar fills which resting order, and at what price. The answer is that of the fill table for every order and every
//! bar: the price where the table has one, and `None` exactly where it has none.
#![tactic(auto)]

mod fill;
pub mod laws;
mod worked;

pub use fill::{triggers, try_fill};
