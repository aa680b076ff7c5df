ghost use Rattle.std.specs.Prelude.{◌≡◌, Some, ◌+◌, ◌≤◌, max, unsigned_abs, option_map};
ghost use Rattle.lean_fixed.specs.Calendar.{last_day};
ghost use Rattle.lean_fixed.specs.Moments.{minutes_per_day, midnight};
ghost use Rattle.lean_fixed.specs.Ranges.{IsDay};
ghost use Rattle.exchange_hours.specs.Sessions.{moment, span_on, session, session_value, is_open_at, LieInDays};
ghost use Rattle.exchange_hours.specs.Grid.{IsGridEnd, IsClosing};
ghost use Rattle.serde_json.specs.View.{view};
ghost use Rattle.exchange_hours.specs.HoursFile.{us_equities, hours_of, hours_of_entry, IsAnswer};
ghost use Rattle.exchange_hours.specs.Next.{IsNext, IsNextFrom, IsNearest};

use crate::closed_days::{read_early_closes, read_holidays};
use crate::entries::{EarlyClose, Segment};
use crate::fault::HoursFault;
use crate::json::{market_entry, read_tree};
use crate::segments::read_week;
use crate::sessions::Session;
use crate::spans::Span;
use crate::table::spans_of_days;
use lean_fixed::ranges::{LAST_DAY, MINUTES_PER_DAY};
use lean_fixed::{Day, Moment, Resolution};
use serde_json::Value;
use std::alloc::Global;
use std::marker::Model;

// 24:00 of the last day.
const END_OF_DAYS: u32 = MINUTES_PER_DAY * (LAST_DAY as u32 + 1);

// The name of the entry of US equities.
const US_EQUITIES: &str = "Equity-usa-[*]";

/// The sessions of a market.
#[derive(Drop)]
pub struct Hours {
    segments: Vec<Segment>,
    holidays: Vec<u32>,
    early_closes: Vec<EarlyClose>,
    // What the three lists come to for each day, so that a look-up is one read.
    spans: Vec<Option<Span>>,
}

impl Model for Hours {
    ghost use Rattle.exchange_hours.specs.Entries.{Entries};
    ghost use Rattle.exchange_hours.specs.Table.{AreSpans};

    ghost Value = { Entries };

    ghost view = { λ h. record {
      segments = h.segments.items;
      holidays = h.holidays.items;
      early_closes = h.early_closes.items;
    } };

    ghost invariant = { λ h. AreSpans (record {
      segments = h.segments.items;
      holidays = h.holidays.items;
      early_closes = h.early_closes.items;
    }) h.spans.items };
}

impl Hours {
    /// The hours of US equities by the bytes of an hours file, or the first fault of the file, in the order that
    /// `HoursFault` tells. The form of the file is that of LEAN's market hours database.
    pub fn read(alloc: Global, bytes: &[u8]) -> Result<Hours, HoursFault>
        ensures { IsAnswer (hours_of us_equities bytes.now) result }
    {
        let tree = read_tree(alloc, bytes)?;
        match market_entry(&tree, US_EQUITIES) {
            Some(entry) => Hours::read_entry(alloc, entry),
            None => Err(HoursFault::NoEntry),
        }
    }

    fn read_entry(alloc: Global, entry: &Value) -> Result<Hours, HoursFault>
        ensures { IsAnswer (hours_of_entry (Some (view entry.now))) result }
    {
        let mut segments = Vec::new(alloc);
        read_week(entry, &mut segments)?;
        let mut holidays = Vec::new(alloc);
        read_holidays(entry.get("holidays"), &mut holidays)?;
        let mut early_closes = Vec::new(alloc);
        read_early_closes(entry.get("earlyCloses"), &mut early_closes)?;
        let spans = spans_of_days(alloc, &segments, &holidays, &early_closes)?;
        Ok(Hours {
            segments,
            holidays,
            early_closes,
            spans,
        })
    }

    #[tactic(auto, unfolding(crate::specs::Sessions::session))]
    /// The session of a day, or `None` exactly where the day has none.
    pub fn session(&self, day: Day) -> Option<Session>
        requires { IsDay day.0 }
        ensures { result ≡ option_map session_value (session self.now (unsigned_abs day.0)) }
    {
        let day = day.0 as u32;
        match self.span_on(day) {
            Some(span) => {
                let midnight = MINUTES_PER_DAY * day;
                Some(Session {
                    opens: moment_at(midnight + span.opens as u32),
                    closes: moment_at(midnight + span.closes as u32),
                })
            }
            None => None,
        }
    }

    #[tactic(auto, unfolding(crate::specs::Sessions::session))]
    /// Whether the exchange is open: at or after the opening of the session of the moment's day, and before its closing.
    pub fn is_open(&self, at: Moment) -> bool
        ensures { result ≡ is_open_at self.now at.0 }
    {
        match at.day() {
            Some(day) => match self.session(day) {
                Some(session) => session.opens <= at && at < session.closes,
                None => false,
            },
            None => false,
        }
    }

    /// The least grid end past `after` and not past `until`, or `None` exactly where there is none.
    /// The grid ends of a resolution are the ends of all bars that would be in session.
    pub fn grid_next(&self, resolution: Resolution, after: Moment, until: Moment) -> Option<Moment>
        ensures { IsNext (IsGridEnd self.now resolution) after.0 until.0 result }
    {
        self.sessions_lie();
        match self.end_between(resolution, minute_of(after), minute_of(until)) {
            Some(end) => Some(moment_at(end)),
            None => None,
        }
    }

    /// The least closing of a session past `after` and not past `until`, or `None` exactly where there is none.
    pub fn close_next(&self, after: Moment, until: Moment) -> Option<Moment>
        ensures { IsNext (IsClosing self.now) after.0 until.0 result }
    {
        self.sessions_lie();
        self.grid_next(Resolution::Daily, after, until)
    }

    // What the table keeps of the sessions. It does nothing.
    pub(crate) fn sessions_lie(&self)
        ensures { LieInDays self.now }
    {
        let _ = &self.spans;
    }

    // The least grid end past one moment and not past another.
    fn end_between(&self, resolution: Resolution, after: u32, until: u32) -> Option<u32>
        ensures { IsNextFrom (IsGridEnd self.now resolution) after until result }
    {
        let days = self.spans.len() as u32;
        for day in after / MINUTES_PER_DAY..days.min(until.div_ceil(MINUTES_PER_DAY)) {
            if let Some(end) = self.end_on(resolution, day, after) {
                return if end <= until { Some(end) } else { None };
            }
        }
        None
    }

    // The least grid end past a moment that lies after 00:00 of a day and not after its 24:00.
    fn end_on(&self, resolution: Resolution, day: u32, after: u32) -> Option<u32>
        requires { day ≤ last_day }
        ensures { IsNextFrom (IsGridEnd self.now resolution)
            (max after (midnight day)) (midnight day + minutes_per_day) result }
    {
        self.sessions_lie();
        let midnight = MINUTES_PER_DAY * day;
        let span = self.span_on(day)?;
        let minute = span.end_past(resolution, after.saturating_sub(midnight))?;
        Some(midnight + minute)
    }

    // The hours of a day, as minutes of the day.
    fn span_on(&self, day: u32) -> Option<Span>
        requires { day ≤ last_day }
        ensures { result ≡ span_on self.now day }
    {
        self.spans[day as usize]
    }
}

// The moment, or of those from 1970-01-01 00:00 to the end of days the one nearest to it.
fn minute_of(at: Moment) -> u32
    ensures { IsNearest at.0 result }
{
    at.0.clamp(0, END_OF_DAYS as i64).unsigned_abs() as u32
}

fn moment_at(minute: u32) -> Moment
    ensures { result ≡ moment minute }
{
    Moment(minute as i64)
}
