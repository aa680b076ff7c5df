//! The days on which the exchange is closed, or closes early.
ghost use Rattle.std.specs.Prelude.{Ok, option_map};
ghost use Rattle.serde_json.specs.View.{view, items_view, members_view};
ghost use Rattle.exchange_hours.specs.Times.{civil};
ghost use Rattle.exchange_hours.specs.HoursFile.{both, each, listed, named, holiday_on, holiday, holidays, close_on, early_close, early_closes, Leaves};

use crate::dates::{day_within, read_date};
use crate::entries::EarlyClose;
use crate::fault::HoursFault;
use crate::times::read_time;
use jiff_core::civil::Date;
use serde_json::{Map, Value};

/// Appends the days of the holidays, where they lie from 1970 to 2199.
pub(crate) fn read_holidays(found: Option<&Value>, out: &mut Vec<u32>) -> Result<(), HoursFault>
    ensures { Leaves (both (Ok out.old.items) (holidays (option_map (λ v. view v.now) found.entry)))
        out.new.items result }
{
    let Some(value) = found else {
        return Ok(());
    };
    match value.as_array() {
        Some(list) => append_holidays(list, out),
        None => Err(HoursFault::Holiday),
    }
}

fn append_holidays(list: &Vec<Value>, out: &mut Vec<u32>) -> Result<(), HoursFault>
    ensures { Leaves (both (Ok out.old.items) (each holiday (listed (items_view list.now.items))))
        out.new.items result }
{
    for value in list {
        append_holiday(value, out)?;
    }
    Ok(())
}

fn append_holiday(value: &Value, out: &mut Vec<u32>) -> Result<(), HoursFault>
    ensures { Leaves (both (Ok out.old.items) (holiday (view value.now))) out.new.items result }
{
    let date = match value.as_str() {
        Some(text) => read_date(text),
        None => None,
    };
    append_holiday_on(date, out)
}

fn append_holiday_on(date: Option<Date>, out: &mut Vec<u32>) -> Result<(), HoursFault>
    ensures { Leaves (both (Ok out.old.items) (holiday_on (option_map civil date)))
        out.new.items result }
{
    let Some(date) = date else {
        return Err(HoursFault::Holiday);
    };
    if let Some(day) = day_within(date) {
        out.push(day)?;
    }
    Ok(())
}

/// Appends the early closes of the days from 1970 to 2199.
pub(crate) fn read_early_closes(
    found: Option<&Value>,
    out: &mut Vec<EarlyClose>,
) -> Result<(), HoursFault>
    ensures { Leaves
        (both (Ok out.old.items) (early_closes (option_map (λ v. view v.now) found.entry)))
        out.new.items result }
{
    let Some(value) = found else {
        return Ok(());
    };
    match value.as_object() {
        Some(members) => append_closes(members, out),
        None => Err(HoursFault::EarlyClose),
    }
}

fn append_closes(members: &Map<String, Value>, out: &mut Vec<EarlyClose>) -> Result<(), HoursFault>
    ensures { Leaves
        (both (Ok out.old.items) (each early_close (named (members_view members.now.entries))))
        out.new.items result }
{
    for (date, time) in members {
        append_close(date.as_str(), time, out)?;
    }
    Ok(())
}

fn append_close(date: &str, time: &Value, out: &mut Vec<EarlyClose>) -> Result<(), HoursFault>
    ensures { Leaves (both (Ok out.old.items) (early_close (date.now, view time.now)))
        out.new.items result }
{
    let Some(time) = time.as_str() else {
        return Err(HoursFault::EarlyClose);
    };
    append_close_on(read_date(date), read_time(time.as_bytes()), out)
}

fn append_close_on(
    date: Option<Date>,
    minute: Option<u16>,
    out: &mut Vec<EarlyClose>,
) -> Result<(), HoursFault>
    ensures { Leaves (both (Ok out.old.items) (close_on (option_map civil date) minute))
        out.new.items result }
{
    let (Some(date), Some(minute)) = (date, minute) else {
        return Err(HoursFault::EarlyClose);
    };
    if let Some(day) = day_within(date) {
        out.push(EarlyClose { day, minute })?;
    }
    Ok(())
}
