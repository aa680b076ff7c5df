//! The rows of daily files, with what is known of them.
ghost use Rattle.daily_tape.specs.Entry.{IsDaily};

use equity_csv::Row;

/// A row of a daily file: it starts at 00:00 of a day from 1970-01-01 to 2199-12-31.
#[derive(Clone, Copy, Debug)]
pub struct DailyRow {
    pub row: Row,
    ghost daily: { IsDaily row },
}
