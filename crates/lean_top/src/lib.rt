//! The top calls: a command line over a folder of market files, printed into a sink. What is printed, and the status, are
//! those of the report, a plain definition over the words and the folder's files; or a front of it was printed, and the
//! status names the cause.
#![tactic(auto)]

mod algorithm;
mod backtest;
#[cfg(test)]
mod backtest_tests;
mod close_tail;
mod demo;
#[cfg(test)]
mod demo_tests;
mod fault_text;
mod files;
mod hours;
pub mod laws;
mod refusal;
mod report;
mod session;
#[cfg(test)]
mod session_tests;
mod status;
#[cfg(test)]
mod tests;
mod top;
mod words;
mod worked;

pub use status::Status;
pub use top::{lean_main, lean_offline};
