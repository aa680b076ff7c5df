//! The hours of each day, in a table by its number.
ghost use Rattle.std.specs.Prelude.{◌≡◌, ℕ, ◌+◌, ◌<◌, ◌==◌, if◌then◌else◌, length, Some, None, IfErr, IfOk};
ghost use Rattle.std.specs.List.{list_any};
ghost use Rattle.lean_fixed.specs.Calendar.{last_day, weekday as day_of_week};
ghost use Rattle.exchange_hours.specs.Table.{span_at};
ghost use Rattle.exchange_hours.specs.Sessions.{widened, usual_span, early_close, shortened, span_on};
ghost use Rattle.exchange_hours.specs.declared.fault.HoursFault.TheVariants.{NoMemory};

use crate::entries::{EarlyClose, Segment};
use crate::fault::HoursFault;
use crate::spans::Span;
use lean_fixed::ranges::LAST_DAY;
use std::alloc::Global;

const DAYS: usize = LAST_DAY as usize + 1;

/// The hours of each day from 1970-01-01 to 2199-12-31.
pub(crate) fn spans_of_days(
    alloc: Global,
    segments: &[Segment],
    holidays: &[u32],
    early_closes: &[EarlyClose],
) -> Result<Vec<Option<Span>>, HoursFault>
    ensures whole { IfOk result (λ table. length table.items ≡ last_day + 1) }
    ensures each { IfOk result (λ table. (day : ℕ) → span_at table.items day ≡ span_on
        (record {
          segments = segments.now;
          holidays = holidays.now;
          early_closes = early_closes.now;
        }) day) }
    ensures refused { IfErr result (λ fault. fault ≡ NoMemory) }
{
    let mut table = usual_spans(alloc, segments)?;
    close_early(&mut table, early_closes);
    close_on_holidays(&mut table, holidays);
    Ok(table)
}

// The usual hours of each day's weekday.
fn usual_spans(alloc: Global, segments: &[Segment]) -> Result<Vec<Option<Span>>, HoursFault>
    ensures whole { IfOk result (λ table. length table.items ≡ last_day + 1) }
    ensures each { IfOk result (λ table. (day : ℕ) → day < last_day + 1
        → span_at table.items day ≡ usual_span segments.now (day_of_week day)) }
    ensures refused { IfErr result (λ fault. fault ≡ NoMemory) }
{
    let week = usual_week(segments);
    let mut table = Vec::with_capacity(alloc, DAYS)?;
    for day in 0..DAYS {
        table.push(week[(day + 4) % 7])?;
    }
    Ok(table)
}

fn usual_week(segments: &[Segment]) -> [Option<Span>; 7]
    ensures { (weekday : ℕ) → weekday < 7
        → span_at result weekday ≡ usual_span segments.now weekday }
{
    let mut week = [None; 7];
    for weekday in 0..7 {
        week[weekday] = usual_span(segments, weekday as u8);
    }
    week
}

// From the least start to the greatest end of a weekday's market segments.
fn usual_span(segments: &[Segment], weekday: u8) -> Option<Span>
    ensures { result ≡ usual_span segments.now weekday }
{
    segments
        .iter()
        .filter(|s| s.weekday == weekday && s.is_market)
        .fold(None, widened)
}

fn widened(span: Option<Span>, segment: &Segment) -> Option<Span>
    ensures { result ≡ widened span segment.now }
{
    match span {
        Some(span) => Some(Span {
            opens: span.opens.min(segment.start),
            closes: span.closes.max(segment.end),
        }),
        None => Some(Span {
            opens: segment.start,
            closes: segment.end,
        }),
    }
}

// Ends the hours of each day at its early close.
fn close_early(table: &mut [Option<Span>], closes: &[EarlyClose])
    ensures { (day : ℕ) → span_at table.new day
        ≡ shortened (span_at table.old day) (early_close closes.now day) }
{
    for close in closes {
        shorten(table, *close);
    }
}

fn shorten(table: &mut [Option<Span>], close: EarlyClose)
    ensures { (day : ℕ) → span_at table.new day
        ≡ (if close.day == day then shortened (span_at table.old day) (Some close.minute)
        else span_at table.old day) }
{
    let day = close.day as usize;
    if day < table.len() {
        table[day] = shortened(table[day], close.minute);
    }
}

fn shortened(span: Option<Span>, minute: u16) -> Option<Span>
    ensures { result ≡ shortened span (Some minute) }
{
    match span {
        Some(span) if span.opens < minute => Some(Span {
            opens: span.opens,
            closes: span.closes.min(minute),
        }),
        _ => None,
    }
}

// Leaves no hours on a holiday.
fn close_on_holidays(table: &mut [Option<Span>], holidays: &[u32])
    ensures { (day : ℕ) → span_at table.new day
        ≡ (if list_any (λ holiday. holiday == day) holidays.now then None
        else span_at table.old day) }
{
    for holiday in holidays {
        close(table, *holiday);
    }
}

fn close(table: &mut [Option<Span>], holiday: u32)
    ensures { (day : ℕ) → span_at table.new day
        ≡ (if holiday == day then None else span_at table.old day) }
{
    let day = holiday as usize;
    if day < table.len() {
        table[day] = None;
    }
}
