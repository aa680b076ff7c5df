//! The rows of equity files, both ways. A reader gives exactly the row that a line says, or the first of the reasons from
//! `Fields` to `Range` for which it says none. A row that is read is in range, of its day and at its hour (`laws`), and what
//! a writer appends for a row is one line that is read as this row.
#![tactic(auto)]

mod dated;
mod dates;
mod fields;
pub mod laws;
mod minute;
mod number;
mod plain;
mod row;
mod values;
mod worked;
mod write;

pub use dated::{read_dated, read_dated_by};
pub use dates::Dates;
pub use minute::read_minute;
pub use row::Row;
pub use write::{write_dated, write_minute};
