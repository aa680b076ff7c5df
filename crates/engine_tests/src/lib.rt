//! Tests of what a run promises: a strategy that prints a dot at each moment at which something ends, over any pool.
#![tactic(auto)]

mod dots;
mod running;
#[cfg(test)]
mod tests;

pub use dots::Dots;
pub use running::run_dots;
