//! The language in which a strategy says when it trades, how much and at what price. Reading a text gives the tree of its
//! grammar or the first fault, exactly; the value of an expression is that of its definition: decimal arithmetic whose
//! products and quotients are cut toward zero, with no value where it would overflow or divide by zero.
#![tactic(auto)]

mod expr;
mod fault;
mod grammar;
pub mod laws;
mod node;
mod scan;
mod token;
mod value;
mod view;
mod worked;

pub use expr::Expr;
pub use fault::{RuleError, RuleFault, Want};
pub use view::{View, WindowValues};
