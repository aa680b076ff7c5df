//! A security of the daily tape, read row by row.
ghost use Rattle.std.specs.Prelude.{◌≡◌, Some, option_map};
ghost use Rattle.lean_io.specs.Told.{Files};
ghost use Rattle.line_source.specs.Lines.{lines as file_lines};
ghost use Rattle.line_source.specs.Reader.{hand_of, number_of, lines_left};
ghost use Rattle.daily_tape.specs.DailyFile.{file_sheet, with_row};
ghost use Rattle.daily_tape.specs.DailyTape.{step_of};
ghost use Rattle.daily_tape.specs.Head.{still_to_come, IfKnown, MayGoOn, HasCause, StandsPast};
ghost use Rattle.daily_tape.specs.Source.{to_come, IsSound};

use crate::daily_row::DailyRow;
use crate::head::{Head, read_head};
use equity_csv::Dates;
use lean_fixed::Symbol;
use lean_io::{Failed, Hand};
use line_source::Lines;

/// A security, the reader of its daily file, and what the file says next.
#[derive(Drop)]
pub struct Source<H> {
    pub symbol: Symbol,
    pub head: Head,
    pub lines: Lines<H>,
}

impl<H: Hand> Source<H> {
    /// The security whose daily file lies at a path, read by a hand that has met no fault.
    pub fn open(symbol: Symbol, hand: H, path: &str) -> Source<H>
        requires fresh { H.faults hand ≡ 0 }
        ensures told { (f : Files) → H.files hand ≡ Some f
            → IfKnown result.head (file_sheet (option_map file_lines (f path.now)) ≡ to_come H.rest result) }
        ensures sound { IsSound H.is_open H.faults result }
        ensures past { StandsPast 0 result.head }
        ensures symbol { result.symbol ≡ symbol }
        ensures kept { H.files (hand_of result.lines) ≡ H.files hand }
    {
        let mut lines = Lines::new(hand);
        let head = first_head(&mut lines, path);
        Source {
            symbol,
            head,
            lines,
        }
    }

    /// Goes on behind the row that is the head.
    pub fn advance(&mut self, dates: &mut Dates, row: DailyRow)
        requires head { self.old.head ≡ Head.Row row }
        requires sound { IsSound H.is_open H.faults self.old }
        ensures told { (f : Files) → H.files (hand_of self.old.lines) ≡ Some f
            → IfKnown self.new.head (to_come H.rest self.old ≡ with_row row.row (to_come H.rest self.new)) }
        ensures sound { IsSound H.is_open H.faults self.new }
        ensures past { StandsPast (step_of row.row) self.new.head }
        ensures symbol { self.new.symbol ≡ self.old.symbol }
        ensures kept { H.files (hand_of self.new.lines) ≡ H.files (hand_of self.old.lines) }
    {
        self.head = read_head(dates, &mut self.lines, Some(row));
    }

    /// The hand that read the file.
    pub fn into_hand(self) -> H
        ensures { result ≡ hand_of self.lines }
    {
        self.lines.into_hand()
    }
}

// What the file at a path says first.
fn first_head<H: Hand>(lines: &mut Lines<H>, path: &str) -> Head
    ensures told { (f : Files) → H.files (hand_of lines.old) ≡ Some f
        → IfKnown result (file_sheet (option_map file_lines (f path.now)) ≡ still_to_come result (lines_left H.rest lines.new)) }
    ensures past { StandsPast 0 result }
    ensures open { MayGoOn (H.is_open (hand_of lines.new)) (number_of lines.new) result }
    ensures cause { HasCause (H.faults (hand_of lines.old)) (H.faults (hand_of lines.new)) result }
    ensures kept { H.files (hand_of lines.new) ≡ H.files (hand_of lines.old) }
{
    match lines.open_file(path) {
        Ok(true) => read_head(&mut Dates::new(), lines, None),
        Ok(false) => Head::End,
        Err(Failed) => Head::Faulted,
    }
}
