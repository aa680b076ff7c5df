//! The writers of rows.

ghost use Rattle.std.specs.Prelude.{◌≡◌, pos, ◌+◌, ◌*◌, ◌/◌, ◌%◌, ◌≤◌, ◌<◌, [], ◌∷◌, ◌++◌, length, unsigned_abs, OnOk, OnErr, IsTrue, vec_len, vec_capacity};
ghost use Rattle.lean_fixed.specs.Printed.{day_text};
ghost use Rattle.lean_fixed.specs.Ranges.{IsDay};
ghost use Rattle.lean_fixed.specs.declared.resolution.Resolution.{Resolution};
ghost use Rattle.equity_csv.specs.Rows.{minute_row, dated_row};
ghost use Rattle.equity_csv.specs.Written.{IsRow, day_of_row, minute_of_row, values_text, hour_text, minute_line, dated_line, is_text};

use crate::minute::MINUTE;
use crate::row::Row;
use itoa::Buffer;
use lean_fixed::laws::{day_reads_back, number_reads_back};
use lean_fixed::{Day, NoMemory};

/// Appends the plainest line of the row in the minute file of its day, and an LF: whole numbers without leading zeros,
/// joined by commas. At `NoMemory` the vector is as it was.
pub fn write_minute(row: &Row, out: &mut Vec<u8>) -> Result<(), NoMemory>
    requires { IsRow row.now }
    ensures ok { OnOk result (out.new.items ≡ out.old.items ++ minute_line row.now ++ 10 ∷ []) }
    ensures err { OnErr result (out.new.items ≡ out.old.items) }
    ensures full { OnErr result
        (vec_capacity out.old < vec_len out.old + length (minute_line row.now) + 1) }
    ensures capacity { vec_capacity out.old ≤ vec_capacity out.new }

    // The line is read as this row, is short, and has no LF or CR in it.
    ensures read { minute_row (day_of_row row.now) (minute_line row.now) ≡ Ok row.now }
    ensures short { length (minute_line row.now) ≤ 73 }
    ensures text { IsTrue (is_text (minute_line row.now)) }
{
    number_reads_back();
    let mut time = Buffer::new();
    append_line(
        time.format(row.start.minute_of_day() as u64 * MINUTE)
            .as_bytes(),
        row,
        out,
    )
}

/// Appends the plainest line of the row in a file of hour or daily bars, and an LF. The row starts at a whole hour. At
/// `NoMemory` the vector is as it was.
pub fn write_dated(row: &Row, out: &mut Vec<u8>) -> Result<(), NoMemory>
    requires row { IsRow row.now }
    requires whole { minute_of_row row.now % 60 ≡ 0 }
    ensures ok { OnOk result (out.new.items ≡ out.old.items ++ dated_line row.now ++ 10 ∷ []) }
    ensures err { OnErr result (out.new.items ≡ out.old.items) }
    ensures full { OnErr result
        (vec_capacity out.old < vec_len out.old + length (dated_line row.now) + 1) }
    ensures capacity { vec_capacity out.old ≤ vec_capacity out.new }

    // The line is read as this row, as a daily one too where it starts at 00:00, is short, and has no LF or CR in it.
    ensures read { dated_row Resolution.Hour (dated_line row.now) ≡ Ok row.now }
    ensures daily { minute_of_row row.now ≡ 0
        → dated_row Resolution.Daily (dated_line row.now) ≡ Ok row.now }
    ensures short { length (dated_line row.now) ≤ 79 }
    ensures text { IsTrue (is_text (dated_line row.now)) }
{
    day_reads_back();
    number_reads_back();
    append_line(
        &dated_time(day_of(row), row.start.minute_of_day() / 60),
        row,
        out,
    )
}

fn day_of(row: &Row) -> Day
    requires { IsRow row.now }
    ensures day { result.0 ≡ pos (day_of_row row.now) }
    ensures range { IsDay result.0 }
{
    match row.start.day() {
        Some(day) => day,
        None => unreachable!(),
    }
}

// The day, a space, and the hour with its minutes, which are 00.
fn dated_time(day: Day, hour: u32) -> [u8; 14]
    requires day { IsDay day.0 }
    requires hour { hour < 24 }
    ensures { result ≡ day_text (unsigned_abs day.0) ++ hour_text hour }
{
    let [y1, y2, y3, y4, m1, m2, d1, d2] = day.digits();
    let tens = b'0' + (hour / 10 % 10) as u8;
    let ones = b'0' + (hour % 10) as u8;
    [
        y1, y2, y3, y4, m1, m2, d1, d2, b' ', tens, ones, b':', b'0', b'0',
    ]
}

// Appends the time, the values and an LF.
fn append_line(time: &[u8], row: &Row, out: &mut Vec<u8>) -> Result<(), NoMemory>
    requires { length time.now ≤ 40 }
    ensures ok { OnOk result (out.new.items ≡ out.old.items ++ time.now ++ values_text row.now ++ 10 ∷ []) }
    ensures err { OnErr result (out.new.items ≡ out.old.items) }
    ensures full { OnErr result
        (vec_capacity out.old < vec_len out.old + length time.now + length (values_text row.now) + 1) }
    ensures capacity { vec_capacity out.old ≤ vec_capacity out.new }
{
    let mut opening = Buffer::new();
    let mut high = Buffer::new();
    let mut low = Buffer::new();
    let mut closing = Buffer::new();
    let mut volume = Buffer::new();
    append_fields(
        time,
        opening.format(row.opening.0.unsigned_abs()).as_bytes(),
        high.format(row.high.0.unsigned_abs()).as_bytes(),
        low.format(row.low.0.unsigned_abs()).as_bytes(),
        closing.format(row.closing.0.unsigned_abs()).as_bytes(),
        volume.format(row.volume.0.unsigned_abs()).as_bytes(),
        out,
    )
}

// Appends six fields with a comma between each two, and an LF.
fn append_fields(
    time: &[u8],
    opening: &[u8],
    high: &[u8],
    low: &[u8],
    closing: &[u8],
    volume: &[u8],
    out: &mut Vec<u8>,
) -> Result<(), NoMemory>
    requires time { length time.now ≤ 40 }
    requires opening { length opening.now ≤ 40 }
    requires high { length high.now ≤ 40 }
    requires low { length low.now ≤ 40 }
    requires closing { length closing.now ≤ 40 }
    requires volume { length volume.now ≤ 40 }
    ensures ok { OnOk result (out.new.items ≡ out.old.items ++ time.now
        ++ (44 ∷ opening.now ++ 44 ∷ high.now ++ 44 ∷ low.now ++ 44 ∷ closing.now ++ 44 ∷ volume.now)
        ++ 10 ∷ []) }
    ensures err { OnErr result (out.new.items ≡ out.old.items) }
    ensures full { OnErr result (vec_capacity out.old < vec_len out.old + length time.now
        + length (44 ∷ opening.now ++ 44 ∷ high.now ++ 44 ∷ low.now ++ 44 ∷ closing.now ++ 44 ∷ volume.now)
        + 1) }
    ensures capacity { vec_capacity out.old ≤ vec_capacity out.new }
{
    let digits = time.len() + opening.len() + high.len() + low.len() + closing.len() + volume.len();
    out.reserve(digits + 6)?;
    out.extend_from_slice(time).unwrap();
    append_field(opening, out);
    append_field(high, out);
    append_field(low, out);
    append_field(closing, out);
    append_field(volume, out);
    out.extend_from_slice(b"\n").unwrap();
    Ok(())
}

fn append_field(digits: &[u8], out: &mut Vec<u8>)
    requires { vec_len out.old + 1 + length digits.now ≤ vec_capacity out.old }
    ensures items { out.new.items ≡ out.old.items ++ 44 ∷ digits.now }
    ensures len { vec_len out.new ≡ vec_len out.old + 1 + length digits.now }
    ensures capacity { vec_capacity out.old ≤ vec_capacity out.new }
{
    out.extend_from_slice(b",").unwrap();
    out.extend_from_slice(digits).unwrap();
}
