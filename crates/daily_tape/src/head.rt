//! What the daily file of a security says next.
ghost use Rattle.std.specs.Prelude.{◌≡◌, ◌≤◌, true, Some, Ok};
ghost use Rattle.lean_io.specs.Told.{Files};
ghost use Rattle.line_source.specs.Reader.{hand_of, number_of, lines_left};
ghost use Rattle.equity_csv.specs.Rows.{dated_row};
ghost use Rattle.daily_tape.specs.DailyFile.{bad_line, starts_after, sheet_after};
ghost use Rattle.daily_tape.specs.Head.{plain, plain_result, said_behind, IsSaid, still_to_come, IfKnown, MayGoOn, HasCause, step_before, StandsPast};
ghost use Rattle.clock_feeds.specs.Entries.{checked};

use crate::daily_row::DailyRow;
use equity_csv::{Dates, read_dated_by};
use lean_fixed::Resolution;
use lean_io::Hand;
use lean_items::{Bad, Reason};
use line_source::{Line, Lines};

/// The first thing that a daily file says behind the rows that were printed.
#[derive(Clone, Copy, Debug)]
pub enum Head {
    Row(DailyRow),
    /// A malformed line.
    Bad(Bad),
    /// A failed read.
    Faulted,
    End,
}

/// Reads what the open file says behind a row of it.
pub fn read_head<H: Hand>(dates: &mut Dates, lines: &mut Lines<H>, before: Option<DailyRow>) -> Head
    requires open { H.is_open (hand_of lines.old) ≡ true }
    requires few { number_of lines.old ≤ 10_000_000 }
    ensures told { (f : Files) → H.files (hand_of lines.old) ≡ Some f
        → IfKnown result (sheet_after (plain before) (lines_left H.rest lines.old)
        ≡ still_to_come result (lines_left H.rest lines.new)) }
    ensures past { StandsPast (step_before before) result }
    ensures open { MayGoOn (H.is_open (hand_of lines.new)) (number_of lines.new) result }
    ensures cause { HasCause (H.faults (hand_of lines.old)) (H.faults (hand_of lines.new)) result }
    ensures kept { H.files (hand_of lines.new) ≡ H.files (hand_of lines.old) }
    ensures grows { H.faults (hand_of lines.old) ≤ H.faults (hand_of lines.new) }
{
    match lines.next() {
        Line::Text => read_text(dates, lines.number(), lines.text(), before),
        Line::Long => bad_head(lines.number(), Reason::Long),
        Line::Many => bad_head(lines.number(), Reason::Many),
        Line::End => Head::End,
        Line::Faulted => Head::Faulted,
    }
}

// What the text of a line says behind a row.
fn read_text(dates: &mut Dates, number: u32, text: &[u8], before: Option<DailyRow>) -> Head
    ensures said { IsSaid number (said_behind (plain before) text.now) result }
    ensures past { StandsPast (step_before before) result }
{
    match read_daily_row(dates, text) {
        Ok(row) => row_head(number, row, before),
        Err(reason) => bad_head(number, reason),
    }
}

fn bad_head(number: u32, reason: Reason) -> Head
    ensures { result ≡ Head.Bad (bad_line number reason) }
{
    Head::Bad(Bad {
        file: 0,
        line: number,
        reason,
    })
}

fn row_head(number: u32, row: DailyRow, before: Option<DailyRow>) -> Head
    ensures said { IsSaid number (checked starts_after (plain before) (Ok row.row)) result }
    ensures past { StandsPast (step_before before) result }
{
    match before {
        Some(last) => {
            if last.row.start < row.row.start {
                Head::Row(row)
            } else {
                bad_head(number, Reason::Order)
            }
        }
        None => Head::Row(row),
    }
}

fn read_daily_row(dates: &mut Dates, text: &[u8]) -> Result<DailyRow, Reason>
    ensures { plain_result result ≡ dated_row Resolution.Daily text.now }
{
    let row = read_dated_by(dates, Resolution::Daily, text)?;
    Ok(DailyRow { row })
}
