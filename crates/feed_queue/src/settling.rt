ghost use Rattle.std.specs.Prelude.{◌≡◌, [], ◌∷◌, ◌++◌, ◌^◌, ◌<◌, ◌≤◌, length, MatchOption};
ghost use Rattle.feed_queue.specs.Lanes.{sent_of, taken_of, left_of, lane_of, lane_of_reader};

use crate::rule::{Ends, Whole};
use crate::{Reader, Rest, Settled, Writer};
use std::sync::Wait;

/// Joins the two ends of a lane. What was taken, and then the rest, is what was sent.
pub fn settle<T: Drop>(writer: Writer<T>, reader: Reader<T>) -> Settled<T>
    requires { lane_of writer ≡ lane_of_reader reader }
    ensures rest { sent_of writer ≡ taken_of reader ++ left_of result.rest }
    ensures sent { result.sent ≡ length (sent_of writer) }
    ensures taken { result.taken ≡ length (taken_of reader) }
{
    let Writer {
        queue,
        mut pass,
        count: sent,
    } = writer;
    let Reader {
        queue: _theirs,
        pass: reading,
        count: taken,
    } = reader;
    queue.absorb::<Ends>(&mut pass, reading);
    queue.learn_as::<Whole>(&mut pass);
    Settled {
        sent,
        taken,
        rest: Rest { queue, pass },
    }
}

impl<T: Drop> Rest<T> {
    /// Takes the next item. `None`: no item is left.
    pub fn next<R: Wait>(&mut self, rt: &R) -> Option<T>
        ensures { MatchOption result ((left_of self.old ≡ []) × (left_of self.new ≡ []))
            (λ item. left_of self.old ≡ item ∷ left_of self.new) }
    {
        let item = self.queue.pop_as::<Whole, R>(rt, &mut self.pass)?;
        self.queue.learn_as::<Whole>(&mut self.pass);
        Some(item)
    }
}
