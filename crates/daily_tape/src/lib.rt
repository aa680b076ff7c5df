//! The daily tape: the rows of daily files by date and then in the order of the symbols, over the files of a folder. What is
//! printed is a walk over every day, which asks of all rows which stand there; the code goes from one date to the next, and
//! holds of each file a reader and the row that it says next.
#![tactic(auto)]

mod daily_row;
mod ending;
mod head;
pub mod laws;
mod next;
mod path;
mod printing;
mod source;
mod sources;
mod tape;
mod walk;

pub use tape::print_daily;
