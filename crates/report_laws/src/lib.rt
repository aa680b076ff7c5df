//! What a report of a backtest promises to its reader: definitions and laws alone.
#![tactic(auto)]

pub mod laws;
pub mod worked;
