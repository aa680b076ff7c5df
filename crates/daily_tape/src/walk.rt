//! From one step to the next.
ghost use Rattle.std.specs.Prelude.{◌≡◌, ℕ, ◌≤◌, ◌++◌, List, length, IfOk, OnOk, OnErr, IfErr};
ghost use Rattle.std.specs.List.{AllByRecursion, AllZip};
ghost use Rattle.lean_io.specs.Told.{Files};
ghost use Rattle.report_pages.specs.Printed.{IsFront, HasCause, HasRoom};
ghost use Rattle.daily_tape.specs.DailyTape.{Security, tape, tape_text};
ghost use Rattle.daily_tape.specs.Endings.{HasStopped, IsTape};
ghost use Rattle.daily_tape.specs.Source.{IsSound, Follows};
ghost use Rattle.daily_tape.specs.Steps.{AllPast};

use crate::ending::Ending;
use crate::next::{Next, next_of};
use crate::printing::print_step;
use crate::source::Source;
use equity_csv::Dates;
use lean_io::{Hand, Sink};
use report_pages::{Page, Stop};

/// Prints the rows of a tape, step by step, until they end.
pub fn print_rows<H: Hand, S: Sink>(
    sources: &mut Vec<Source<H>>,
    page: &mut Page,
    out: &mut S,
) -> Result<Ending, Stop>
    requires sound { AllByRecursion (IsSound H.is_open H.faults) sources.old.items }
    requires past { AllPast 0 sources.old.items }
    requires room { HasRoom page.old }
    requires few { length sources.old.items ≤ 64 }
    ensures sound { AllByRecursion (IsSound H.is_open H.faults) sources.new.items }
    ensures same { length sources.new.items ≡ length sources.old.items }
    ensures stopped { IfOk result (HasStopped sources.new.items) }
    ensures room { OnOk result (HasRoom page.new) }
    ensures told { IfOk result (λ ending. (f : Files) (all : List Security)
        → AllZip (Follows H.files H.rest f 0) all sources.old.items
        → IsTape all sources.new.items (S.told out.old) (S.told out.new) page.old page.new ending) }
    ensures front { OnErr result ((f : Files) (all : List Security)
        → AllZip (Follows H.files H.rest f 0) all sources.old.items
        → IsFront (S.told out.old) (S.told out.new) (page.old ++ tape_text (tape all).lines)) }
    ensures cause { IfErr result (HasCause (S.faults out.old) (S.faults out.new)) }
    ensures grows { S.faults out.old ≤ S.faults out.new }
{
    let mut dates = Dates::new();
    let mut done: u32 = 0;
    let mut rows: u64 = 0;
    'steps: loop {
        match next_of(sources) {
            Next::Step(step) => {
                match print_step(step, sources, &mut dates, page, out) {
                    Ok(printed) => rows += printed,
                    Err(stop) => return Err(stop),
                }
                done = step;
            }
            Next::Stop(place) => return Ok(Ending::Stopped(place)),
            Next::End => return Ok(Ending::Whole(rows)),
        }
    }
}
