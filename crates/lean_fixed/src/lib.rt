//! Exact numbers of a backtest: prices and money in 1/10000 dollar, days and moments of the exchange's clock, symbols,
//! and the texts in which they are read and printed. A reading answers `None` exactly where the text has another form or
//! its value is out of range, and what is appended is the text of the definition, byte for byte. The printed texts of
//! days, of moments up to 24:00 of 2200-01-01, of amounts from 0 to 10^20 units and of numbers up to 10^18 are read as
//! the same value, and no other text of that spelling is (`laws`).
#![tactic(auto)]

mod amount;
mod digits;
pub mod laws;
mod memory;
mod money;
pub mod ranges;
mod resolution;
mod symbol;
mod texts;
mod time;
mod worked;
pub mod writing;

pub use amount::read_amount;
pub use digits::read_digits;
pub use memory::NoMemory;
pub use money::{Money, Price, Shares, Side};
pub use resolution::Resolution;
pub use symbol::Symbol;
pub use texts::{day_text, moment_text, money_text, price_text};
pub use time::{Day, Moment, Window};
