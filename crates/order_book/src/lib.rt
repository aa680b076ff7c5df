//! The owner of the orders and the money. A book handles the commands of a strategy one after another, and what it replies
//! and what becomes of its orders, its fills and its account is exactly what the definition says of the commands so far. It
//! keeps no marks: of each symbol it keeps a price, in the account, and the last bar on which its orders are still to be
//! tried. A match looks at the live orders of the symbols that were marked by a real bar since the last one, and at no
//! others.
#![tactic(auto)]

mod book;
mod due;
mod judge;
mod ledger;
mod mark;
mod market;
mod matches;
mod orders;
mod places;
mod replies;
mod submit;
mod update;

pub use book::Book;
