//! The lines of the rows of a step.
ghost use Rattle.std.specs.Prelude.{◌≡◌, ℕ, ◌+◌, ◌-◌, ◌<◌, ◌≤◌, List, length, IfOk, OnOk};
ghost use Rattle.std.specs.List.{AllByRecursion, AllZip};
ghost use Rattle.lean_fixed.specs.Calendar.{last_day};
ghost use Rattle.lean_fixed.specs.Printed.{day_text};
ghost use Rattle.lean_io.specs.Told.{Files};
ghost use Rattle.report_pages.specs.Printed.{HasRoom, Prints};
ghost use Rattle.daily_tape.specs.DailyTape.{Security, step_of, tape_line, tape_text, trades_of};
ghost use Rattle.daily_tape.specs.Entry.{row_day};
ghost use Rattle.daily_tape.specs.Head.{StandsPast};
ghost use Rattle.daily_tape.specs.Source.{IsSound, Follows};
ghost use Rattle.daily_tape.specs.Steps.{IsAhead, AllAhead, AllPast, rows_now, all_rows_now};

use crate::daily_row::DailyRow;
use crate::head::Head;
use crate::next::step_of_row;
use crate::source::Source;
use equity_csv::{Dates, Row};
use lean_fixed::Day;
use lean_fixed::laws::day_reads_back;
use lean_io::{Hand, Sink};
use report_pages::{Page, Stop, Trades, print_row};

// Prints the row that is the head of a security, and goes on behind it.
fn print_head<H: Hand, S: Sink>(
    date: &[u8],
    row: DailyRow,
    source: &mut Source<H>,
    dates: &mut Dates,
    page: &mut Page,
    out: &mut S,
) -> Result<(), Stop>
    requires date { date.now ≡ day_text (row_day row.row) }
    requires head { source.old.head ≡ Head.Row row }
    requires sound { IsSound H.is_open H.faults source.old }
    requires room { HasRoom page.old }
    ensures sound { IsSound H.is_open H.faults source.new }
    ensures past { OnOk result (StandsPast (step_of row.row) source.new.head) }
    ensures follows { OnOk result ((f : Files) (k : ℕ) (security : Security)
        → Follows H.files H.rest f k security source.old
        → Follows H.files H.rest f (step_of row.row) security source.new) }
    ensures prints { Prints S.told S.faults out.old out.new page.old page.new
        (tape_line (source.old.symbol, row.row)) result }
{
    day_reads_back();
    let printed = print_row(date, &source.symbol, &trades_of(&row.row), page, out);
    source.advance(dates, row);
    printed
}

// Prints the row of a security where it stands at the step, and goes on behind it. It gives the number of rows.
fn print_source<H: Hand, S: Sink>(
    step: u32,
    date: &[u8],
    source: &mut Source<H>,
    dates: &mut Dates,
    page: &mut Page,
    out: &mut S,
) -> Result<u64, Stop>
    requires date { date.now ≡ day_text (step - 1) }
    requires sound { IsSound H.is_open H.faults source.old }
    requires ahead { IsAhead step source.old.head }
    requires room { HasRoom page.old }
    ensures sound { IsSound H.is_open H.faults source.new }
    ensures past { OnOk result (StandsPast step source.new.head) }
    ensures follows { OnOk result ((f : Files) (k : ℕ) (security : Security) → k < step
        → Follows H.files H.rest f k security source.old
        → Follows H.files H.rest f step security source.new) }
    ensures counted { IfOk result (λ rows. rows ≡ length (rows_now step source.old)) }
    ensures few { IfOk result (λ rows. rows ≤ 1) }
    ensures prints { Prints S.told S.faults out.old out.new page.old page.new
        (tape_text (rows_now step source.old)) result }
{
    match source.head {
        Head::Row(row) => {
            if step_of_row(&row) != step {
                return Ok(0);
            }
            match print_head(date, row, source, dates, page, out) {
                Ok(()) => Ok(1),
                Err(stop) => Err(stop),
            }
        }
        Head::Bad(_) => Ok(0),
        Head::Faulted => Ok(0),
        Head::End => Ok(0),
    }
}

// Prints the rows of a step, security by security, and goes on behind them. It gives the number of rows.
pub(crate) fn print_step<H: Hand, S: Sink>(
    step: u32,
    sources: &mut Vec<Source<H>>,
    dates: &mut Dates,
    page: &mut Page,
    out: &mut S,
) -> Result<u64, Stop>
    requires first { 1 ≤ step }
    requires last { step ≤ last_day + 1 }
    requires sound { AllByRecursion (IsSound H.is_open H.faults) sources.old.items }
    requires ahead { AllAhead step sources.old.items }
    requires room { HasRoom page.old }
    requires few { length sources.old.items ≤ 64 }
    ensures same { length sources.new.items ≡ length sources.old.items }
    ensures sound { AllByRecursion (IsSound H.is_open H.faults) sources.new.items }
    ensures past { OnOk result (AllPast step sources.new.items) }
    ensures follows { OnOk result ((f : Files) (k : ℕ) (all : List Security) → k < step
        → AllZip (Follows H.files H.rest f k) all sources.old.items
        → AllZip (Follows H.files H.rest f step) all sources.new.items) }
    ensures counted { IfOk result (λ rows. rows ≡ length (all_rows_now step sources.old.items)) }
    ensures few { IfOk result (λ rows. rows ≤ 64) }
    ensures prints { Prints S.told S.faults out.old out.new page.old page.new
        (tape_text (all_rows_now step sources.old.items)) result }
{
    let date = Day(step as i32 - 1).digits();
    let mut rows: u64 = 0;
    for place in 0..sources.len() {
        let source = &mut sources[place];
        match print_source(step, &date, source, dates, page, out) {
            Ok(printed) => rows += printed,
            Err(stop) => return Err(stop),
        }
    }
    Ok(rows)
}

fn trades_of(row: &Row) -> Trades
    ensures { result ≡ trades_of row.now }
{
    Trades {
        opening: row.opening,
        high: row.high,
        low: row.low,
        closing: row.closing,
        volume: row.volume,
    }
}
