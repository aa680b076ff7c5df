//! The numbers at which the ranges of a backtest end. Prices and money are in 1/10000 dollar.

/// The last day that there is, 2199-12-31, in days since 1970-01-01.
pub const LAST_DAY: i32 = 84_005;

/// The minutes in a day.
pub const MINUTES_PER_DAY: u32 = 1_440;

/// The first moment, in minutes since 1970-01-01 00:00: somewhat before the first day.
pub const FIRST_MOMENT: i64 = -10_000;

/// The last moment, somewhat behind the last day.
pub const LAST_MOMENT: i64 = 121_000_000;

/// The greatest price of a bar, an order or a mark: a million dollars. The least is 1.
pub const MOST_PRICE: i64 = 10_000_000_000;

/// The greatest price of a fill, which slippage may have raised by up to 100 dollars. The least is 1.
pub const MOST_FILL_PRICE: i64 = 10_001_000_000;

/// The greatest volume of a bar that a file has. The least is 0.
pub const MOST_VOLUME: i64 = 1_000_000_000_000_000;

/// The most shares that an order buys or sells. The fewest are 1.
pub const MOST_QUANTITY: i64 = 1_000_000_000;

/// The most shares that are held or owed.
pub const MOST_POSITION: i64 = 1_000_000_000_000_000;

/// The greatest fee of a fill: 10^15 units. The least is 0.
pub const MOST_FEE: i128 = 1_000_000_000_000_000;

/// The greatest cash with which a backtest starts: 10^20 units. The least is 1.
pub const MOST_STARTING_CASH: i128 = 100_000_000_000_000_000_000;

/// The last moment that may be printed, 24:00 of 2200-01-01. The first is 0.
pub const LAST_PRINTED_MOMENT: i64 = 120_970_080;
