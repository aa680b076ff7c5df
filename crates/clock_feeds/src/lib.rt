//! Definitions of what a folder's files mean to those who read them: what each line of a file says, which rows are kept, the
//! bar at a moment, the slice of some feeds, and the list of items that a feed gives. The laws say what is true of the lists
//! of all feeds. There is no code to run.
#![tactic(auto)]

pub mod laws;
mod worked;
