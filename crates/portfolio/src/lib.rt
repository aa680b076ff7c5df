//! An account: cash, positions, fees, realised profit and equity. A portfolio stands for the list of all fills that were
//! applied and the list of all marks, and each of its numbers is the definition's sum over these lists, exactly. The sums
//! are kept as running totals, so that no call walks over the fills or the positions.
#![tactic(auto)]

mod holdings;
pub mod laws;
mod lot;
mod portfolio;
mod totals;
mod worked;

pub use portfolio::Portfolio;
