//! Tests of what a core makes of its moments, by the public calls alone: a plan in short and slices as text, a book that replies,
//! and the lines that are printed.
#![tactic(auto)]

#[cfg(test)]
mod tests;
