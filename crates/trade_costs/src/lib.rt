//! What a trade costs besides its shares: the fee, and the slippage by which a price turns out worse. Both are exactly
//! those of the definitions, for every price and quantity of a backtest.
#![tactic(auto)]

mod costs;
mod worked;

pub use costs::Costs;
