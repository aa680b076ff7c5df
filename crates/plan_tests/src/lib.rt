//! Tests of algorithm files by the public calls alone: files and the plans or first faults that they are, and what a rule
//! asks for.
#![tactic(auto)]

#[cfg(test)]
mod tests;
