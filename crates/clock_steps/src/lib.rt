//! Definitions of what walks a clock, for all that walks one: a report walks minutes or days, each with a state, its lines
//! and perhaps a stop; a feed walks minutes and gives what each has. The laws say what steps in which nothing happens, and
//! a walk that is cut short, mean. There is no code to run.
#![tactic(auto)]

pub mod laws;
mod worked;
