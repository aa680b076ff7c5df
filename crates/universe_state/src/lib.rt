//! The active securities of a backtest, listed and chosen, with their feeds and marks, after LEAN's topic "Universe
//! Selection". What is marked, added and removed is that of the definition over a plain list of securities.
#![tactic(auto)]

mod additions;
mod found;
pub mod laws;
mod marks;
mod member;
mod refusal;
mod universe;
mod worked;

pub use refusal::ChooseRefusal;
pub use universe::Universe;
