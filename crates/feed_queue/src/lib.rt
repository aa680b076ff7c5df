//! A lane: a queue of a fixed capacity from one thread to another. Its writer's end pushes, its reader's end pops, and both know
//! what they did. When the two ends are settled, the items that were popped and then the rest are the items whose push was
//! answered by `Ok`, in order, each once. A push is refused only where the lane was full.
#![tactic(auto)]

mod ends;
mod lanes;
mod rule;
mod settled;
mod settling;

pub use ends::{Reader, Writer};
pub use lanes::{Full, lane};
pub use settled::{Rest, Settled};
pub use settling::settle;
