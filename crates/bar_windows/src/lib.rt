//! Values over the last closes of a security: averages, extremes and changes, after the indicators of LEAN. Each value
//! is that of the definition over the list of all closes, whatever is kept of them.
#![tactic(auto)]

mod all;
mod candidates;
mod closes;
mod spec;
mod window;
mod windows;
mod worked;

pub use spec::{Func, WindowSpec};
pub use windows::Windows;
