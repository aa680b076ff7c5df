//! Tests of the rule language by its public calls: texts and what they are read as, and the values that they have.
#![tactic(auto)]

#[cfg(test)]
mod cases;
#[cfg(test)]
mod reading;
#[cfg(test)]
mod values;
