//! The way to the owner of the orders and the money. A desk takes the commands of a strategy, and gives the replies in the order
//! of the commands, each with its ticket. It is finished where `Done` of every command was heard, or after want of memory. What
//! was heard is then a front of what the book replies to the commands; where there was memory it is all of it, and the book is
//! what the commands have made of it. The book of a `SerialDesk` handles each command at once, that of a `ThreadDesk` is served
//! by a thread of its own, and the promise is the same.
#![tactic(auto)]

mod desk;
mod ends;
mod fitting;
mod gate;
mod lane_desk;
mod lane_desking;
mod lane_ends;
pub mod laws;
mod serial_desk;
mod server;
mod serving;
mod starting;
mod thread_desk;
mod threading;
mod unheard;
mod worked;

pub use desk::Desk;
pub use fitting::fits;
pub use gate::{Gate, NoGate};
pub use serial_desk::SerialDesk;
pub use thread_desk::ThreadDesk;
