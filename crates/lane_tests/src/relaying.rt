ghost use Rattle.std.specs.Prelude.{◌≡◌, ◌<◌, ◌≤◌, ◌^◌, [], length, IfOk};
ghost use Rattle.feed_queue.specs.Lanes.{sent_of, lane_of, lane_of_reader};

use feed_queue::{Reader, Writer, lane, settle};
use lean_fixed::NoMemory;
use std::alloc::Global;
use std::sync::Wait;
use std::thread;
use std::thread::Threads;

/// What came through a lane.
#[derive(Drop)]
pub struct Relayed {
    /// How many items came at their place in the order in which they were sent.
    pub in_order: u64,
    /// How many items were sent.
    pub sent: u64,
    /// How many were taken.
    pub taken: u64,
    /// The first of the others.
    pub rest: Option<u64>,
}

/// Sends the numbers below `count` through a lane from one thread to another.
pub fn relay<R: Threads + Wait + Sync>(
    rt: &R,
    alloc: Global,
    capacity: usize,
    count: u64,
) -> Result<Relayed, NoMemory>
    requires some { 0 < capacity }
    requires few { capacity ≤ 65536 }
    requires pushes { count < 2 ^ 62 }
    ensures { IfOk result (λ relayed. relayed.sent ≡ count) }
{
    let (writer, reader) = lane(alloc, capacity)?;
    let (writer, (in_order, reader)) = thread::join(
        rt,
        move || -> Writer<u64>
            requires { (sent_of writer ≡ []) × (count < 2 ^ 62) }
            ensures { (lane_of result ≡ lane_of writer) × (length (sent_of result) ≡ count) }
        { send_all(rt, writer, count) },
        move || -> (u64, Reader<u64>)
            ensures { lane_of_reader result.1 ≡ lane_of_reader reader }
        { take_all(rt, reader, count) },
    );
    let mut settled = settle(writer, reader);
    Ok(Relayed {
        in_order,
        sent: settled.sent,
        taken: settled.taken,
        rest: settled.rest.next(rt),
    })
}

// Sends the numbers below a count, and tries again where the lane is full.
fn send_all<R: Wait>(rt: &R, mut writer: Writer<u64>, count: u64) -> Writer<u64>
    requires none { sent_of writer ≡ [] }
    requires few { count < 2 ^ 62 }
    ensures lane { lane_of result ≡ lane_of writer }
    ensures sent { length (sent_of result) ≡ count }
{
    let mut next = 0;
    let mut idle = 0;
    'tries: for _ in rt.forever() {
        if next >= count {
            return writer;
        }
        match writer.push(rt, next) {
            Ok(()) => next += 1,
            Err(_) => idle = pause(idle),
        }
    }
    unreachable!()
}

// Takes so many items, and says how many of them came at their place.
fn take_all<R: Wait>(rt: &R, mut reader: Reader<u64>, count: u64) -> (u64, Reader<u64>)
    ensures { lane_of_reader result.1 ≡ lane_of_reader reader }
{
    let mut next = 0;
    let mut in_order = 0u64;
    let mut idle = 0;
    'tries: for _ in rt.forever() {
        if next >= count {
            return (in_order, reader);
        }
        match reader.pop(rt) {
            Some(item) => {
                if item == next {
                    in_order = in_order.wrapping_add(1);
                }
                next += 1;
            }
            None => idle = pause(idle),
        }
    }
    unreachable!()
}

// Lets another thread run, where this one has tried often enough: on a busy machine a thread that does so at once would wait for
// all others at each item.
fn pause(idle: u32) -> u32 {
    if idle < 1000 {
        return idle + 1;
    }
    thread::yield_now();
    0
}
