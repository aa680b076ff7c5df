//! Orders and what is told of them: requests, orders, fills, the events of an order's life, and the commands and replies
//! that pass between a strategy and the owner of its orders and money. All prices and money are in 1/10000 dollar. These
//! are plain types; the crates above say what is done with them.
#![tactic(auto)]

mod desk;
mod event;
mod order;

pub use desk::{Command, Heard, PriceBar, Reply, Ticket};
pub use event::{Cause, Fill, OrderEvent, What};
pub use order::{Kind, Order, OrderState, Request, Resting};
