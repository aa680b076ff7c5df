//! The rule of a lane, which each atomic step of the queue keeps, and what a step tells the end that takes it.
use crossbeam_queue::RuledArrayQueue;
use crossbeam_queue::protocol::{Join, Lesson, Outcome, Protocol, Split};
use std::collections::LinkedList;

/// What an end of a lane may do. No value of it is made.
pub enum Role {
    Both,
    Writing,
    Reading,
    Spent,
}

/// What an end of a lane knows: what it sent and what it took. No value of it is made.
pub struct View<T> {
    pub role: Role,
    pub sent: LinkedList<T>,
    pub taken: LinkedList<T>,
}

/// The rule: what was sent is what was taken, and then what the queue holds.
pub struct Rule;

impl<T> Protocol<T, View<T>> for Rule {
    ghost use Rattle.std.specs.Prelude.{[]};
    ghost use Rattle.feed_queue.specs.declared.rule.Role.TheVariants.{Both};
    ghost use Rattle.feed_queue.specs.Rule.{InOrder, view_of};

    ghost holds = { InOrder };

    ghost first = { view_of Both [] [] };
}

/// The two ends of a lane.
pub(crate) struct Ends;

impl<T> Split<View<T>> for Ends {
    ghost use Rattle.std.specs.Prelude.{[]};
    ghost use Rattle.feed_queue.specs.declared.rule.Role.TheVariants.{Writing, Reading};
    ghost use Rattle.feed_queue.specs.Rule.{view_of};

    ghost left = { λ v. view_of Writing v.sent [] };

    ghost right = { λ v. view_of Reading [] v.taken };
}

impl<T> Join<View<T>> for Ends {
    ghost use Rattle.std.specs.Prelude.{[]};
    ghost use Rattle.feed_queue.specs.declared.rule.Role.TheVariants.{Both, Spent};
    ghost use Rattle.feed_queue.specs.Rule.{view_of};

    ghost both = { λ v w. view_of Both v.sent w.taken };

    ghost spent = { view_of Spent [] [] };
}

/// A step of a writer.
pub(crate) struct Sends;

impl<T> Outcome<T, View<T>> for Sends {
    ghost use Rattle.std.specs.Prelude.{◌≡◌, [], ◌∷◌, ◌++◌};
    ghost use Rattle.feed_queue.specs.Rule.{view_of};

    ghost then = { λ v x w. w ≡ view_of v.role (v.sent ++ x ∷ []) v.taken };
}

impl<T> Lesson<T, View<T>> for Sends {
    ghost use Rattle.feed_queue.specs.Rule.{SomeTaken};

    ghost fact = { λ v items. SomeTaken v.sent items };
}

/// A step of a reader.
pub(crate) struct Takes;

impl<T> Outcome<T, View<T>> for Takes {
    ghost use Rattle.std.specs.Prelude.{◌≡◌, [], ◌∷◌, ◌++◌};
    ghost use Rattle.feed_queue.specs.Rule.{view_of};

    ghost then = { λ v x w. w ≡ view_of v.role v.sent (v.taken ++ x ∷ []) };
}

impl<T> Lesson<T, View<T>> for Takes {
    ghost use Rattle.feed_queue.specs.Rule.{SomeSent};

    ghost fact = { λ v items. SomeSent v.taken items };
}

/// A step of an end that may send and take.
pub(crate) struct Whole;

impl<T> Outcome<T, View<T>> for Whole {
    ghost use Rattle.std.specs.Prelude.{◌≡◌, [], ◌∷◌, ◌++◌};
    ghost use Rattle.feed_queue.specs.Rule.{view_of};

    ghost then = { λ v x w. w ≡ view_of v.role v.sent (v.taken ++ x ∷ []) };
}

impl<T> Lesson<T, View<T>> for Whole {
    ghost use Rattle.feed_queue.specs.Rule.{IsTotal};

    ghost fact = { λ v items. IsTotal v items };
}

/// The queue of a lane.
pub(crate) type Line<T> = RuledArrayQueue<T, View<T>, Rule>;
