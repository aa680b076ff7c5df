//! Whether an account may place an order: the buying power rule. The answer is exactly that of the rule, for all the
//! numbers of a backtest.
#![tactic(auto)]

mod power;
mod worked;

pub use power::{Power, allows};
