//! The files of a feed: which there are, in their order, and where they lie in a folder of LEAN's layout. Each answer is
//! that of a definition over the feed's key, the window and the hours of the exchange.
#![tactic(auto)]

mod files;
pub mod laws;
mod part;
mod paths;
mod worked;

pub use files::next_file;
pub use paths::path_text;
