//! The rows of a security's files.

use crate::course::Course;
use crate::judged::{Judged, judge_bar};
use crate::span::{Span, end_by, session_on};
use equity_csv::laws::{dated_row_is_valid, minute_row_is_valid};
use equity_csv::{Row, read_dated, read_minute};
use exchange_hours::laws::{closings, sessions_lie};
use lean_fixed::ranges::MINUTES_PER_DAY;
use lean_fixed::{Day, Moment, Resolution};
use lean_items::{Bar, Item, Reason};

ghost use Rattle.std.specs.Prelude.{◌≡◌, ◌≤◌, pos, Some, IfOk};
ghost use Rattle.lean_fixed.specs.Calendar.{last_day};
ghost use Rattle.equity_csv.specs.Written.{IsRow};
ghost use Rattle.clock_feeds.specs.Raw.{equity_row, start_of};
ghost use Rattle.clock_feeds.specs.Kept.{bar_of};
ghost use Rattle.row_feed.specs.ToCome.{StartsIn};

impl Course {
    ghost use Rattle.std.specs.Prelude.{◌≡◌, ℕ, ◌+◌, ◌<◌, ◌≤◌, true, List, ◌∷◌, Option, Some, IfOk, option_map};
    ghost use Rattle.lean_fixed.specs.Calendar.{last_day};
    ghost use Rattle.lean_fixed.specs.Moments.{midnight, day_of, last_moment};
    ghost use Rattle.lean_io.specs.Told.{Files};
    ghost use Rattle.lean_items.specs.declared.item.Item.{Item};
    ghost use Rattle.line_source.specs.Lines.{FileLine, TextLine};
    ghost use Rattle.equity_csv.specs.declared.row.Row.{Row};
    ghost use Rattle.equity_csv.specs.Written.{IsRow};
    ghost use Rattle.exchange_hours.specs.Sessions.{session};
    ghost use Rattle.clock_feeds.specs.Entries.{checked};
    ghost use Rattle.clock_feeds.specs.Raw.{equity_row, starts_after, start_of};
    ghost use Rattle.row_feed.specs.Spans.{interval, end_by, session_for};
    ghost use Rattle.row_feed.specs.Judged.{judged_bar, bar_given, KeptWithin};
    ghost use Rattle.row_feed.specs.ToCome.{Behind, StartsIn};
    ghost use Rattle.row_feed.specs.Course.{hours_of, LeavesBars, SameFile};
    ghost use Rattle.row_feed.specs.Steps.{StepGives, StepIsOfKind, OnStepFaulted, StepWithin, resolution_of, at_after, step_fits};

    /// What the text of a line of a security's file gives.
    pub(crate) fn read_bar(
        &mut self,
        resolution: Resolution,
        number: u32,
        text: &[u8],
    ) -> Option<Item>
        requires kind { resolution_of self.old.key.kind ≡ Some resolution }
        ensures gives { (f : Files) (symbol : List ℕ) (left : List (ℕ × FileLine)) (list : List Item)
            → LeavesBars f self.old symbol resolution true ((number, TextLine text.now) ∷ left) list
            → StepGives (LeavesBars f self.new symbol resolution true left) list result }
        ensures fits { step_fits self.old.at.0 result ≡ true }
        ensures within { StepWithin (last_moment self.old.window) result }
        ensures at { self.new.at.0 ≡ at_after self.old.at.0 result }
        ensures kind { StepIsOfKind self.old.key.kind result }
        ensures faultless { OnStepFaulted result ⊥ }
        ensures same { SameFile self.old self.new }
    {
        match self.row_said(resolution, text) {
            Ok(row) => self.give_bar(resolution, row),
            Err(reason) => Some(self.bad(number, reason)),
        }
    }

    // The row of a text, held against the row before it in its file.
    fn row_said(&self, resolution: Resolution, text: &[u8]) -> Result<Row, Reason>
        ensures value { (before : Option Row) → Behind resolution self.now.file self.now.from before
            → option_map (checked starts_after before) (equity_row resolution self.now.file text.now) ≡ Some result }
        ensures row { IfOk result IsRow }
        ensures starts { IfOk result (StartsIn resolution self.now.file) }
        ensures from { IfOk result (λ row. self.now.from ≤ start_of row) }
    {
        match read_row(resolution, self.file, text) {
            Ok(row) => {
                if start_of(&row) < self.from {
                    Err(Reason::Order)
                } else {
                    Ok(row)
                }
            }
            Err(reason) => Err(reason),
        }
    }

    // Gives the bar of a row, where the row is kept, or ends where it is past the window.
    fn give_bar(&mut self, resolution: Resolution, row: Row) -> Option<Item>
        requires kind { resolution_of self.old.key.kind ≡ Some resolution }
        requires row { IsRow row }
        requires starts { StartsIn resolution self.old.file row }
        requires from { self.old.from ≤ start_of row }
        ensures value { result ≡ bar_given row (judged_bar self.old.key.start.0 (last_moment self.old.window) resolution (start_of row)
            (session_for resolution (interval self.old.session) (session (hours_of self.old) (day_of (start_of row))))) }
        ensures fits { step_fits self.old.at.0 result ≡ true }
        ensures within { StepWithin (last_moment self.old.window) result }
        ensures at { self.new.at.0 ≡ at_after self.old.at.0 result }
        ensures kind { StepIsOfKind self.old.key.kind result }
        ensures faultless { OnStepFaulted result ⊥ }
        ensures from { self.new.from ≡ start_of row + 1 }
        ensures session { self.new.session ≡ self.old.session }
        ensures same { SameFile self.old self.new }
    {
        sessions_lie(self.hours());
        closings();
        let start = start_of(&row);
        match self.judge_bar(resolution, start) {
            Judged::Kept(end) => {
                self.from = start + 1;
                self.at = moment_at(end);
                Some(Item::Bar(bar_of(row, end)))
            }
            Judged::PassedOver => {
                self.from = start + 1;
                None
            }
            Judged::PastWindow => {
                self.from = start + 1;
                Some(Item::End)
            }
        }
    }

    // What becomes of the row of a start.
    fn judge_bar(&self, resolution: Resolution, start: u64) -> Judged
        requires { start < midnight (last_day + 1) }
        ensures value { result ≡ judged_bar self.now.key.start.0 (last_moment self.now.window) resolution start
            (session_for resolution (interval self.now.session) (session (hours_of self.now) (day_of start))) }
        ensures within { KeptWithin self.now.key.start.0 (last_moment self.now.window)
            (end_by resolution start (session_for resolution (interval self.now.session) (session (hours_of self.now) (day_of start)))) result }
    {
        let session = self.session_for(resolution, start);
        let end = end_by(resolution, start, session);
        judge_bar(self.key.start, self.last(), start, end, session)
    }

    // The session of the day of a start.
    fn session_for(&self, resolution: Resolution, start: u64) -> Option<Span>
        requires { start < midnight (last_day + 1) }
        ensures { interval result
            ≡ session_for resolution (interval self.now.session) (session (hours_of self.now) (day_of start)) }
    {
        match resolution {
            Resolution::Minute => self.session,
            Resolution::Hour | Resolution::Daily => {
                session_on(self.hours(), (start / MINUTES_PER_DAY as u64) as u32)
            }
        }
    }

    /// The last moment of the window.
    pub(crate) fn last(&self) -> u64
        ensures value { result ≡ last_moment self.now.window }
        ensures most { result ≤ midnight (last_day + 1) }
    {
        self.window.last_moment().0.unsigned_abs()
    }
}

// The row that a text says in a file of a resolution.
fn read_row(resolution: Resolution, file: u32, text: &[u8]) -> Result<Row, Reason>
    requires { file ≤ last_day }
    ensures value { equity_row resolution file text.now ≡ Some result }
    ensures row { IfOk result IsRow }
    ensures starts { IfOk result (StartsIn resolution file) }
{
    minute_row_is_valid();
    dated_row_is_valid();
    match resolution {
        Resolution::Minute => read_minute(Day(file as i32), text),
        Resolution::Hour | Resolution::Daily => read_dated(resolution, text),
    }
}

// The start of a row in minutes since 1970-01-01 00:00.
fn start_of(row: &Row) -> u64
    ensures { result ≡ start_of row.now }
{
    row.start.0.unsigned_abs()
}

fn bar_of(row: Row, end: u64) -> Bar
    requires { end ≤ 121_000_000 }
    ensures { result ≡ bar_of row end }
{
    Bar {
        start: row.start,
        end: moment_at(end),
        opening: row.opening,
        high: row.high,
        low: row.low,
        closing: row.closing,
        volume: row.volume,
        real: true,
    }
}

pub(crate) fn moment_at(minute: u64) -> Moment
    requires { minute ≤ 121_000_000 }
    ensures { result.0 ≡ pos minute }
{
    Moment(minute as i64)
}
