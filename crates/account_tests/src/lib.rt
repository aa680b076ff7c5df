//! Tests of orders, costs, fills, accounts, buying power and the book by their public calls: outside values as lines of text.
#![tactic(auto)]

#[cfg(test)]
mod tests;
