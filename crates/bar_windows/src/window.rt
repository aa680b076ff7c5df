ghost use Rattle.std.specs.Prelude.{◌≡◌, ◌-◌, ◌<◌, ◌≤◌, ◌^◌, ℤ, pos, neg_ℤ, ◌+ℤ◌, ◌-ℤ◌, ◌≤ℤ◌, [], ◌∷◌, ◌++◌, length as length_of, slice_get, None, IfSome, option_map, if◌then◌else◌, nat_le, All, IfOk};
ghost use Rattle.std.specs.Option.{option_map_or};
ghost use Rattle.lean_fixed.specs.Ranges.{IsPrice};
ghost use Rattle.bar_windows.specs.Window.{window, last_closes, total, close_before};

use crate::candidates::{first, renew};
use crate::closes::Closes;
use crate::{Func, WindowSpec};
use circular_buffer::HeapCircularBuffer;
use lean_fixed::{NoMemory, Price};
use std::alloc::Global;

// What a window keeps beside the last closes.
#[derive(Drop)]
pub(crate) enum Kept {
    // a change needs the closes alone
    Nothing,
    // the sum of the closes of an average
    Sum(i64),
    // a monotonic queue: the closes that no later one lies beyond, of which the first is the extreme
    Candidates(HeapCircularBuffer<Price>),
}

#[derive(Drop)]
pub(crate) struct Window {
    pub(crate) spec: WindowSpec,
    kept: Kept,
}

impl Window {
    ghost use Rattle.bar_windows.specs.Kept.{IsLength, Heard};

    // A window that has heard no close.
    pub(crate) fn new(alloc: Global, spec: WindowSpec) -> Result<Window, NoMemory>
        requires { IsLength spec.length }
        ensures spec { IfOk result (λ window. window.spec ≡ spec) }
        ensures heard { IfOk result (λ window. Heard [] window) }
    {
        let kept = match spec.func {
            Func::Sma => Kept::Sum(0),
            Func::Highest | Func::Lowest => {
                Kept::Candidates(HeapCircularBuffer::with_capacity(alloc, spec.length as usize)?)
            }
            Func::Change => Kept::Nothing,
        };
        Ok(Window { spec, kept })
    }

    // Hears the close that comes after these.
    pub(crate) fn hear(&mut self, closes: &Closes, close: Price)
        requires heard { Heard closes.now.items self.old }
        requires price { IsPrice close.0 }
        ensures spec { self.new.spec ≡ self.old.spec }
        ensures heard { Heard (closes.now.items ++ close ∷ []) self.new }
    {
        let leaving = leaving(closes, self.spec.length as usize);
        match &mut self.kept {
            Kept::Nothing => {}
            Kept::Sum(sum) => *sum = moved(*sum, leaving, close),
            Kept::Candidates(candidates) => renew(self.spec.func, candidates, leaving, close),
        }
    }

    // The value of the window after these closes.
    pub(crate) fn value(&self, closes: &Closes) -> Option<i64>
        requires { Heard closes.now.items self.now }
        ensures { result ≡ window self.now.spec.func self.now.spec.length closes.now.items }
    {
        let length = self.spec.length as usize;
        match &self.kept {
            Kept::Nothing => change(closes, length),
            Kept::Sum(sum) => average(closes, length, *sum),
            Kept::Candidates(candidates) => extreme(closes, length, candidates),
        }
    }
}

// The last close less the one so many before it.
fn change(closes: &Closes, length: usize) -> Option<i64>
    ensures { result ≡ window Func.Change length closes.now.items }
{
    if closes.len() <= length {
        return None;
    }
    Some(difference(close_before(closes, 0), close_before(closes, length)))
}

// The close that came so many before the last.
fn close_before(closes: &Closes, count: usize) -> Price
    requires { count < length_of closes.now.items }
    ensures value { result.0 ≡ close_before count closes.now.items }
    ensures price { IsPrice result.0 }
{
    match closes.before(count) {
        Some(close) => close,
        None => unreachable!(),
    }
}

fn difference(last: Price, earlier: Price) -> i64
    requires last { IsPrice last.0 }
    requires earlier { IsPrice earlier.0 }
    ensures { result ≡ last.0 -ℤ earlier.0 }
{
    last.0 - earlier.0
}

// The average of the last closes, of which this is the sum.
fn average(closes: &Closes, length: usize, sum: i64) -> Option<i64>
    requires length { 1 ≤ length }
    requires small { length ≤ 1000 }
    requires sum { sum ≡ total (last_closes length closes.now.items) }
    ensures { result ≡ window Func.Sma length closes.now.items }
{
    if closes.len() < length {
        return None;
    }
    Some(sum / length as i64)
}

// The first of the candidates, where there are enough closes.
fn extreme(closes: &Closes, length: usize, kept: &HeapCircularBuffer<Price>) -> Option<i64>
    ensures { result ≡ (if nat_le length (length_of closes.now.items) then option_map (λ close. close.0) (slice_get kept.now.items 0) else None) }
{
    if closes.len() < length {
        return None;
    }
    first(kept).map(|close| close.0)
}

// The close that leaves a full window of a length as the next one comes.
fn leaving(closes: &Closes, length: usize) -> Option<Price>
    requires { 1 ≤ length }
    ensures leaving { result ≡ (if nat_le length (length_of closes.now.items) then slice_get closes.now.items (length_of closes.now.items - length) else None) }
    ensures prices { All (λ close. IsPrice close.0) closes.now.items }
{
    closes.before(length - 1)
}

fn moved(sum: i64, leaving: Option<Price>, close: Price) -> i64
    requires low { neg_ℤ (pos (2 ^ 60)) ≤ℤ sum }
    requires high { sum ≤ℤ pos (2 ^ 60) }
    requires leaving { IfSome leaving (λ close. IsPrice close.0) }
    requires price { IsPrice close.0 }
    ensures { result ≡ (sum +ℤ close.0) -ℤ option_map_or (λ left. left.0) leaving (pos 0) }
{
    sum + close.0 - leaving.map_or(0, |left| left.0)
}
