//! Tests of what a desk promises: a caller that submits what it gets to any desk, and commands with the replies that are heard of
//! a desk.
#![tactic(auto)]

#[cfg(test)]
mod meeting;
mod serving;
#[cfg(test)]
mod tests;

pub use serving::{Outcome, serve};
