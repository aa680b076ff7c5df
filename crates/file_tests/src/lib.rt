//! Tests of the lines of a file and of its rows by the public calls, as lines of text, and of reads that are cut or fail.
#![tactic(auto)]

#[cfg(test)]
mod coarse;
#[cfg(test)]
mod equity;
#[cfg(test)]
mod lines;
