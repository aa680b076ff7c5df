//! Tests of the pool whose feeds are read by workers, over a folder whose reads wait for each other, in which a wait that comes to
//! its bound is a fault: so two feeds are read beside one another, and a feed is read on while another one is added.
#![tactic(auto)]

mod meeting;
#[cfg(test)]
mod tests;

pub use meeting::{MeetFolder, MeetHand, Rule};
