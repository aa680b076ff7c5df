//! What the crates of tests share: tables of cases as text, and hands that read few bytes at a time.
#![tactic(auto)]

pub mod cases;
pub mod cut;
