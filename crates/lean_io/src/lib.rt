//! The outside of a backtest: folders of files, the hands that read them, and the sinks that take
//! what is printed. What an object tells never changes but by its calls, and a fault is answered
//! only where its count of faults rose in the call, or stands at its last value, 2^64 - 1.
#![tactic(auto)]

mod ahead;
mod counts;
mod dir_folder;
mod mem_folder;
mod mem_sink;
mod outside;
mod std_sink;
mod transfer;
mod worked;

pub use dir_folder::{DirFolder, DirHand};
pub use mem_folder::{MemFolder, MemHand};
pub use mem_sink::MemSink;
pub use outside::{Failed, Folder, Hand, Sink, WriteFault};
pub use std_sink::StdSink;
pub use transfer::{Whole, read_whole, write_whole};
