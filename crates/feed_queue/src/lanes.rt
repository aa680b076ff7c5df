ghost use Rattle.std.specs.Prelude.{◌≡◌, ◌+◌, ◌^◌, ◌<◌, ◌≤◌, List, [], ◌∷◌, ◌++◌, length, IfOk, MatchOption, MatchResult};
ghost use Rattle.feed_queue.specs.Lanes.{sent_of, taken_of, lane_of, lane_of_reader, capacity_of, WasFull, WasEmpty};

use crate::rule::{Ends, Line, Sends, Takes};
use crate::{Reader, Writer};
use lean_fixed::NoMemory;
use std::alloc::Global;
use std::sync::{Arc, Wait};

/// A lane was full, and gives the item back.
#[derive(Clone, Copy, Debug, Drop, PartialEq, Eq)]
pub struct Full<T> {
    pub item: T,
}

/// The two ends of a new lane, which holds at most `capacity` items, from 1 to 65,536. It takes all memory that the lane needs.
pub fn lane<T: Drop>(alloc: Global, capacity: usize) -> Result<(Writer<T>, Reader<T>), NoMemory>
    requires some { 0 < capacity }
    requires few { capacity ≤ 65536 }
    ensures sent { IfOk result (λ ends. sent_of ends.0 ≡ []) }
    ensures taken { IfOk result (λ ends. taken_of ends.1 ≡ []) }
    ensures capacity { IfOk result (λ ends. capacity_of ends.0 ≡ capacity) }
    ensures lane { IfOk result (λ ends. lane_of ends.0 ≡ lane_of_reader ends.1) }
{
    let (queue, mut writing) = Line::ruled(alloc, capacity)?;
    let reading = queue.another::<Ends>(&mut writing);
    let queue = Arc::new(alloc, queue)?;
    let theirs = Arc::try_clone(&queue)?;
    let writer = Writer {
        queue,
        pass: writing,
        count: 0,
    };
    let reader = Reader {
        queue: theirs,
        pass: reading,
        count: 0,
    };
    Ok((writer, reader))
}

impl<T: Drop> Writer<T> {
    /// Sends an item. `Full`: at a moment of this call the lane held as many items as its capacity, and nothing changed. It takes
    /// no memory.
    pub fn push<R: Wait>(&mut self, rt: &R, item: T) -> Result<(), Full<T>>
        requires { length (sent_of self.old) < 2 ^ 62 }
        ensures sent { MatchResult result (λ _. sent_of self.new ≡ sent_of self.old ++ item ∷ [])
            (λ full. (full.item ≡ item) × (sent_of self.new ≡ sent_of self.old)
            × WasFull (capacity_of self.old) (sent_of self.old)) }
        ensures lane { lane_of self.new ≡ lane_of self.old }
        ensures capacity { capacity_of self.new ≡ capacity_of self.old }
    {
        match self.queue.push_as::<Sends, R>(rt, &mut self.pass, item) {
            Ok(()) => {
                self.count += 1;
                Ok(())
            }
            Err(item) => Err(Full { item }),
        }
    }

    /// How many items the lane had room for at a moment of this call, at most its capacity: a hint of where to send next.
    pub fn room<R: Wait>(&mut self, rt: &R) -> u32
        ensures few { result ≤ capacity_of self.old }
        ensures sent { sent_of self.new ≡ sent_of self.old }
        ensures lane { lane_of self.new ≡ lane_of self.old }
        ensures capacity { capacity_of self.new ≡ capacity_of self.old }
    {
        let held = self.queue.len_as::<Sends, R>(rt, &mut self.pass);
        (self.queue.capacity() - held) as u32
    }
}

impl<T: Drop> Reader<T> {
    /// Takes the item that was sent first of those not yet taken. `None`: at a moment of this call the lane held no item. It takes
    /// no memory.
    ///
    /// An end learns nothing of what the other one did, so no clause ties a `None` to what was sent.
    pub fn pop<R: Wait>(&mut self, rt: &R) -> Option<T>
        ensures taken { MatchOption result
            ((taken_of self.new ≡ taken_of self.old) × WasEmpty (taken_of self.old))
            (λ item. taken_of self.new ≡ taken_of self.old ++ item ∷ []) }
        ensures lane { lane_of_reader self.new ≡ lane_of_reader self.old }
    {
        match self.queue.pop_as::<Takes, R>(rt, &mut self.pass) {
            Some(item) => {
                self.count = self.count.wrapping_add(1);
                Some(item)
            }
            None => None,
        }
    }
}
