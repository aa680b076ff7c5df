//! Tests of what lies between the files and the run by its public calls: buckets, windows, selection and the universe.
//! Worked values and edges stand as lines of text.
#![tactic(auto)]

#[cfg(test)]
mod buckets;
#[cfg(test)]
mod members;
#[cfg(test)]
mod selection;
#[cfg(test)]
mod windows;
