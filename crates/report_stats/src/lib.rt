//! The summary behind the last moment of a backtest: the numbers of orders and fills, the sums of the account, the drawdown of
//! the close lines, and a line for each position. It is that of the definition, over the book that it is given and the
//! equities that it was told.
#![tactic(auto)]

mod stats;
mod summary;
mod text;

pub use stats::Stats;
