//! Tests of the made folder by the public calls, against an outside computation of its files.
#![tactic(auto)]

#[cfg(test)]
mod made;
