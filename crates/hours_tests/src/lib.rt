//! Tests of the hours of a market and of the files of a feed by their public calls, as lines of text.
#![tactic(auto)]

#[cfg(test)]
mod hours;
#[cfg(test)]
mod paths;
