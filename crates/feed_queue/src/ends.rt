ghost use Rattle.std.specs.Prelude.{◌≡◌, ◌%◌, ◌^◌, ◌≤◌, length};
ghost use Rattle.std.specs.Arc.{arc_value};
ghost use Rattle.crossbeam_queue.specs.Passes.{view, IsPassOf, ruled_capacity};
ghost use Rattle.feed_queue.specs.declared.rule.Role.TheVariants.{Writing, Reading};

use crate::rule::{Line, View};
use crossbeam_queue::Pass;
use std::sync::Arc;

/// The end of a lane that pushes. It moves into the thread that sends.
#[derive(Drop)]
pub struct Writer<T> {
    pub(crate) queue: Arc<Line<T>>,
    pub(crate) pass: Pass<T, View<T>>,
    // How many items were sent.
    pub(crate) count: u64,
    ghost mine: { IsPassOf (arc_value queue) pass },
    ghost role: { (view pass).role ≡ Writing },
    ghost counted: { length (view pass).sent ≡ count },
    ghost within: { ruled_capacity (arc_value queue) ≤ 65536 },
}

/// The end of a lane that pops. It moves into the thread that receives.
#[derive(Drop)]
pub struct Reader<T> {
    pub(crate) queue: Arc<Line<T>>,
    pub(crate) pass: Pass<T, View<T>>,
    // How many items were taken, which a reader knows to stay below 2^64 only once the lane is settled.
    pub(crate) count: u64,
    ghost mine: { IsPassOf (arc_value queue) pass },
    ghost role: { (view pass).role ≡ Reading },
    ghost counted: { length (view pass).taken % 2 ^ 64 ≡ count },
}
