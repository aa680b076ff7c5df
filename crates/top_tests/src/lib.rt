//! Tests of the command line without threads: over a folder and a sink in memory that fail at chosen calls, and its words
//! against those that `clap` reads.
#![tactic(auto)]

#[cfg(test)]
mod tests;
pub mod worked;
