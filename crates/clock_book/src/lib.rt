//! What a book of orders and money is, and what each command does to it: definitions alone. A book is a starting cash,
//! costs, a leverage, hours and three lists: all marks, all orders and all fills. The owner of the orders, the threads
//! that serve it and the report all cite these words.
#![tactic(auto)]

pub mod laws;
mod worked;
