//! Bars of a longer period, made of the bars of a feed, after LEAN's topic "Consolidating Data". What each pushed bar
//! gives is that of the definition over all bars pushed, bucket by bucket, though a consolidator keeps one bar.
#![tactic(auto)]

mod buckets;
mod consolidator;
mod given;
pub mod laws;
mod pushed;
mod turn;
mod worked;

pub use consolidator::Consolidator;
pub use given::Given;
