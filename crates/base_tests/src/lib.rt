//! Tests of the base crates by their public calls: outside values as lines of text, and failing reads and writes.
#![tactic(auto)]

#[cfg(test)]
mod fixed;
#[cfg(test)]
mod io;
#[cfg(test)]
mod items;
