//! One moment of a backtest, computed: bars and coarse rows in, commands out, replies in, lines out.
#![tactic(auto)]

mod arriving;
mod asking;
mod beginning;
mod closing;
mod commanding;
mod commands;
mod facts;
mod following;
mod giving;
mod joining;
pub mod laws;
mod learning;
mod leaving;
mod lines;
mod live;
mod mirror;
mod orders;
mod phase;
mod places;
mod selecting;
mod standing;
mod stop;
mod table;
mod telling;
mod viewing;
mod waiting;
mod watched;
mod watching;
mod watchlist;

pub use phase::Phase;
pub use standing::Core;
pub use stop::{Changes, Stop};
