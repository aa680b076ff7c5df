//! What a backtest prints: definitions alone.
#![tactic(auto)]

pub mod laws;
mod worked;
