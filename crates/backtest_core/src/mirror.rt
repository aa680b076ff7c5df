use crate::orders::Orders;
use indexmap::IndexMap;
use lean_fixed::Symbol;
use portfolio::Portfolio;

/// Some orders under each key.
pub type Listed<K> = IndexMap<K, Orders>;

/// The live orders by their symbols and by their ids. Orders that are no longer live leave nothing behind but an empty list for
/// each symbol.
#[derive(Drop)]
pub struct Lives {
    pub by_symbol: Listed<Symbol>,
    pub by_id: Listed<u32>,
}

/// What is kept of what was seen of the book: the account and the live orders.
#[derive(Drop)]
pub struct Mirror {
    pub account: Portfolio,
    pub lives: Lives,
}
