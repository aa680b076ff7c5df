ghost use Rattle.std.specs.Prelude.{◌≡◌};
ghost use Rattle.std.specs.Arc.{arc_value};
ghost use Rattle.crossbeam_queue.specs.Passes.{view, IsPassOf};
ghost use Rattle.feed_queue.specs.declared.rule.Role.TheVariants.{Both};

use crate::rule::{Line, View};
use crossbeam_queue::Pass;
use std::sync::Arc;

/// The items of a settled lane that were sent and not yet taken.
#[derive(Drop)]
pub struct Rest<T> {
    pub(crate) queue: Arc<Line<T>>,
    pub(crate) pass: Pass<T, View<T>>,
    ghost mine: { IsPassOf (arc_value queue) pass },
    ghost role: { (view pass).role ≡ Both },
}

/// What a lane came to.
#[derive(Drop)]
pub struct Settled<T> {
    /// How many items were sent.
    pub sent: u64,
    /// How many of them were taken.
    pub taken: u64,
    /// The others.
    pub rest: Rest<T>,
}
