//! The segments of the weekdays.
ghost use Rattle.std.specs.Prelude.{◌≡◌, ◌<◌, slice_index_or, option_map, [], Ok};
ghost use Rattle.serde_json.specs.View.{view, items_view};
ghost use Rattle.exchange_hours.specs.HoursFile.{both, each, listed, timed, segment, segments, week, weekday_names, Leaves};

use crate::entries::Segment;
use crate::fault::HoursFault;
use crate::json::text_at;
use crate::times::read_time;
use serde_json::Value;

/// Appends the segments of all weekdays, from Sunday to Saturday.
pub(crate) fn read_week(entry: &Value, out: &mut Vec<Segment>) -> Result<(), HoursFault>
    ensures { Leaves (both (Ok out.old.items) (week (view entry.now))) out.new.items result }
{
    for weekday in 0..7 {
        read_weekday(weekday, entry.get(weekday_name(weekday)), out)?;
    }
    Ok(())
}

// The name of a weekday in an hours file.
fn weekday_name(weekday: u8) -> &'static str
    requires { weekday < 7 }
    ensures { result.now ≡ slice_index_or weekday_names weekday [] }
{
    match weekday {
        0 => "sunday",
        1 => "monday",
        2 => "tuesday",
        3 => "wednesday",
        4 => "thursday",
        5 => "friday",
        _ => "saturday",
    }
}

// Appends the segments of a weekday, of which there are none where it is not there.
fn read_weekday(
    weekday: u8,
    found: Option<&Value>,
    out: &mut Vec<Segment>,
) -> Result<(), HoursFault>
    ensures { Leaves
        (both (Ok out.old.items) (segments weekday (option_map (λ v. view v.now) found.entry)))
        out.new.items result }
{
    let Some(value) = found else {
        return Ok(());
    };
    match value.as_array() {
        Some(list) => append_segments(weekday, list, out),
        None => Err(HoursFault::DayForm),
    }
}

fn append_segments(weekday: u8, list: &Vec<Value>, out: &mut Vec<Segment>) -> Result<(), HoursFault>
    ensures { Leaves
        (both (Ok out.old.items) (each (segment weekday) (listed (items_view list.now.items))))
        out.new.items result }
{
    for value in list {
        append_segment(weekday, value, out)?;
    }
    Ok(())
}

fn append_segment(weekday: u8, value: &Value, out: &mut Vec<Segment>) -> Result<(), HoursFault>
    ensures { Leaves (both (Ok out.old.items) (segment weekday (view value.now)))
        out.new.items result }
{
    let (Some(start), Some(end), Some(state)) = (
        text_at(value, "start"),
        text_at(value, "end"),
        text_at(value, "state"),
    ) else {
        return Err(HoursFault::DayForm);
    };
    append_timed(
        weekday,
        state,
        read_time(start.as_bytes()),
        read_time(end.as_bytes()),
        out,
    )
}

fn append_timed(
    weekday: u8,
    state: &str,
    start: Option<u16>,
    end: Option<u16>,
    out: &mut Vec<Segment>,
) -> Result<(), HoursFault>
    ensures { Leaves (both (Ok out.old.items) (timed weekday state.now start end))
        out.new.items result }
{
    let (Some(start), Some(end)) = (start, end) else {
        return Err(HoursFault::TimeForm);
    };
    if start >= end {
        return Err(HoursFault::DayForm);
    }
    let is_market = state == "market";
    out.push(Segment {
        weekday,
        is_market,
        start,
        end,
    })?;
    Ok(())
}
