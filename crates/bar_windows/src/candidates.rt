//! The greatest or the least of the last closes by a monotonic queue: it holds the closes that can still become the
//! extreme, those that no later close lies beyond, and the first of them is the extreme.

ghost use Rattle.std.specs.Prelude.{◌≡◌, ◌≤◌, List, length as length_of, filter, slice_get, true, false};
ghost use Rattle.std.specs.Option.{option_map_or};
ghost use Rattle.std.specs.Ordering.{int_eq};
ghost use Rattle.circular_buffer.specs.Buffer.{buffer, last_item};
ghost use Rattle.lean_fixed.specs.declared.money.Price.{Price};
ghost use Rattle.bar_windows.specs.Kept.{candidates, without, is_ranked, MovesOn, reaches};

use crate::Func;
use circular_buffer::HeapCircularBuffer;
use lean_fixed::Price;

// The candidates as one close comes, and another may leave.
pub(crate) fn renew(
    func: Func,
    kept: &mut HeapCircularBuffer<Price>,
    leaving: Option<Price>,
    close: Price,
)
    ensures { (before after : List Price) → kept.old.items ≡ candidates func before
        → MovesOn leaving before after close → length_of after ≤ kept.old.capacity
        → kept.new ≡ buffer (candidates func after) kept.old.capacity }
{
    drop_leaving(kept, leaving);
    drop_beaten(func, kept, close);
    kept.push_back(close);
}

fn drop_leaving(kept: &mut HeapCircularBuffer<Price>, leaving: Option<Price>)
    ensures { kept.new ≡ buffer (without leaving kept.old.items) kept.old.capacity }
{
    if let Some(close) = leaving {
        if is_first(kept, close) {
            kept.pop_front();
        }
    }
}

fn is_first(kept: &HeapCircularBuffer<Price>, close: Price) -> bool
    ensures { result ≡ option_map_or (λ first. int_eq first.0 close.0) (slice_get kept.now.items 0) false }
{
    match first(kept) {
        Some(first) => first.0 == close.0,
        None => false,
    }
}

pub(crate) fn first(kept: &HeapCircularBuffer<Price>) -> Option<Price>
    ensures { result ≡ slice_get kept.now.items 0 }
{
    kept.front().copied()
}

fn last(kept: &HeapCircularBuffer<Price>) -> Option<Price>
    ensures { result ≡ last_item kept.now.items }
{
    kept.back().copied()
}

// Drops the candidates behind which the next close lies beyond them.
fn drop_beaten(func: Func, kept: &mut HeapCircularBuffer<Price>, close: Price)
    ensures { is_ranked func kept.old.items ≡ true
        → kept.new ≡ buffer (filter (λ earlier. reaches func earlier close) kept.old.items) kept.old.capacity }
{
    while let Some(earlier) = last(kept) {
        if reaches(func, earlier, close) {
            return;
        }
        kept.pop_back();
    }
}

// Whether a close remains a candidate after a later one.
fn reaches(func: Func, earlier: Price, later: Price) -> bool
    ensures { result ≡ reaches func earlier later }
{
    match func {
        Func::Lowest => earlier.0 <= later.0,
        _ => later.0 <= earlier.0,
    }
}
