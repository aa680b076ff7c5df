ghost use Rattle.std.specs.Prelude.{◌≡◌, ◌+◌, ◌<◌, ◌≤◌, length};
ghost use Rattle.feed_queue.specs.Lanes.{sent_of, lane_of};

use feed_queue::{Writer, lane, settle};
use lean_fixed::NoMemory;
use std::alloc::Global;
use std::sync::Wait;

// Sends a number below 100 that is no less than the number of items sent before. What comes back of a full lane.
fn send<R: Wait>(rt: &R, writer: &mut Writer<u64>, item: u64) -> Option<u64>
    requires few { item < 100 }
    requires sent { length (sent_of writer.old) ≤ item }
    ensures sent { length (sent_of writer.new) ≤ item + 1 }
    ensures lane { lane_of writer.new ≡ lane_of writer.old }
{
    match writer.push(rt, item) {
        Ok(()) => None,
        Err(full) => Some(full.item),
    }
}

/// A lane of two places: the items that come back of three pushes, the rooms, what is popped, the counts, and the rest.
pub fn two_places<R: Wait>(
    rt: &R,
    alloc: Global,
) -> Result<
    (
        [Option<u64>; 3],
        [u32; 3],
        Option<u64>,
        [u64; 2],
        [Option<u64>; 2],
    ),
    NoMemory,
> {
    let (mut writer, mut reader) = lane(alloc, 2)?;
    let empty = writer.room(rt);
    let first = send(rt, &mut writer, 1);
    let second = send(rt, &mut writer, 2);
    let third = send(rt, &mut writer, 3);
    let full = writer.room(rt);
    let popped = reader.pop(rt);
    let later = writer.room(rt);
    let mut settled = settle(writer, reader);
    let rest = [settled.rest.next(rt), settled.rest.next(rt)];
    Ok((
        [first, second, third],
        [empty, full, later],
        popped,
        [settled.sent, settled.taken],
        rest,
    ))
}

/// A lane of one place: what is popped before and after a push, and the counts.
pub fn one_place<R: Wait>(rt: &R, alloc: Global) -> Result<([Option<u64>; 3], [u64; 2]), NoMemory> {
    let (mut writer, mut reader) = lane(alloc, 1)?;
    let before = reader.pop(rt);
    let _ = send(rt, &mut writer, 7);
    let sent = reader.pop(rt);
    let after = reader.pop(rt);
    let settled = settle(writer, reader);
    Ok(([before, sent, after], [settled.sent, settled.taken]))
}
