//! A folder of market files that is made from a number: the hours of an exchange, sixteen securities whose prices are a random
//! walk over ten days, and an algorithm file. Its files are exactly those of the definition, the same on every machine, and
//! none of its calls fails but for want of memory.
#![tactic(auto)]

mod files;
mod made_folder;
mod texts;
mod walk;
mod worked;

pub use files::make;
pub use made_folder::{MadeFolder, MadeHand};
