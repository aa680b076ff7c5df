//! The choice of the day's most traded securities from coarse rows, after LEAN's topic "Coarse Universe". The symbols
//! that are selected are those of the definition, in its order.
#![tactic(auto)]

pub mod laws;
mod ranks;
mod rule;
mod selection;
mod worked;

pub use rule::UniverseRule;
pub use selection::select;
