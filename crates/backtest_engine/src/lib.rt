//! The run of a backtest over any strategy, any pool of feeds, any desk and any sink. The definition walks every minute of a
//! window; the run goes from one moment at which anything can happen to the next, and what it writes is what the definition
//! says, whoever reads the files and whoever owns the book.
#![tactic(auto)]

mod algorithm;
mod backtest;
mod changes;
mod ended;
mod ending;
mod feeds;
mod last;
pub mod laws;
mod limits;
mod minute;
mod moments;
pub mod opening;
mod phase;
mod phases;
mod plan_run;
mod playing;
pub mod runs;
mod strategy;
mod walk;

pub use algorithm::Algorithm;
pub use backtest::run_strategy;
pub use changes::Changes;
pub use ended::Ended;
pub use limits::{Limit, Stop};
pub use phase::Phase;
pub use plan_run::run;
pub use strategy::Strategy;
