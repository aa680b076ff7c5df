//! The step that comes next.
ghost use Rattle.std.specs.Prelude.{◌≡◌, ℕ, ◌+◌, ◌<◌, ◌≤◌, IfSome, MatchOption};
ghost use Rattle.lean_fixed.specs.Calendar.{last_day};
ghost use Rattle.daily_tape.specs.DailyTape.{step_of};
ghost use Rattle.daily_tape.specs.Head.{StandsPast};
ghost use Rattle.daily_tape.specs.Steps.{IsAhead, AllPast, Stops, IsNext, IsLater};

use crate::daily_row::DailyRow;
use crate::head::Head;
use crate::source::Source;
use lean_fixed::ranges::{LAST_DAY, MINUTES_PER_DAY};

/// The step past that of the last day.
const PAST_LAST: u32 = LAST_DAY as u32 + 2;

/// What a tape comes to next.
#[derive(Clone, Copy)]
pub enum Next {
    /// The step of the first rows that are left.
    Step(u32),
    /// The place of the first security whose file says no more: a malformed line, or a failed read.
    Stop(usize),
    /// There is no row left.
    End,
}

// What the securities come to next, where no row is left up to a step.
pub(crate) fn next_of<H>(sources: &[Source<H>]) -> Next
    ensures next { IsNext sources.now result }
    ensures later { (k : ℕ) → k ≤ last_day + 1 → AllPast k sources.now → IsLater k result }
{
    let mut least = PAST_LAST;
    for place in 0..sources.len() {
        match step_of_head(&sources[place].head) {
            Some(step) => least = least.min(step),
            None => return Next::Stop(place),
        }
    }
    if least < PAST_LAST {
        Next::Step(least)
    } else {
        Next::End
    }
}

// The step at which the head of a file stands, that past the last at the file's end. `None` where the head stops the tape.
fn step_of_head(head: &Head) -> Option<u32>
    ensures stops { MatchOption result (Stops head.now)
        (λ step. IsAhead step head.now × (step ≤ last_day + 2)) }
    ensures later { IfSome result (λ step. (k : ℕ) → k ≤ last_day + 1 → StandsPast k head.now → k < step) }
{
    match head {
        Head::Row(row) => Some(step_of_row(row)),
        Head::Bad(_) | Head::Faulted => None,
        Head::End => Some(PAST_LAST),
    }
}

pub(crate) fn step_of_row(row: &DailyRow) -> u32
    ensures step { result ≡ step_of row.now.row }
    ensures last { result ≤ last_day + 1 }
{
    (row.row.start.0 / MINUTES_PER_DAY as i64) as u32 + 1
}
