//! The rows of equity files: what each text is read as, and what is written for a row. A case is a line: the text of a row
//! and, behind ` = `, its start in minutes since 1970-01-01 00:00, its prices and its volume, or the word of the reason.

use equity_csv::laws::{dated_row_is_valid, minute_row_is_valid};
use equity_csv::{Row, read_dated, read_minute, write_dated, write_minute};
use lean_fixed::{Day, NoMemory, Resolution};
use lean_items::Reason;
use std::alloc::{AllocError, Global};
use std::str;
use std::test::Fail;
use test_cases::cases::check;

// The worked lines, and what the format allows: a point and zeros, leading zeros, and further fields.
// In each text `~`, `^` and `|` stand for LF, CR and tab.
const MINUTE_LINES: &str = "\
34200000,100,110,90,105,10 = 23018970 100 110 90 105 10
34200000.0,100,110.00,90,105.,10,x = 23018970 100 110 90 105 10
34200000,100,110,90,105 = fields
34200001,100,110,90,105,10 = time
86400000,100,110,90,105,10 = time
34200000,0,110,90,105,10 = price
34200000,100,10000000001,90,105,10 = price
34200000,100,110,90,1.5,10 = price
34200000,100,110,90,105,1000000000000001 = volume
34200000,100,104,90,105,10 = range
34200000.,100.,110.,90.,105.,10. = 23018970 100 110 90 105 10
34200000.000,100.0,110.0,90.0,105.00000000000000000000000,10.00 = 23018970 100 110 90 105 10
0034200000,000000000000000000000000100,0110,090,00105,010, = 23018970 100 110 90 105 10
34200000,100,110,90,105,10,,, = 23018970 100 110 90 105 10
34200000,100,110,90,105,10,-1,0.5, ,^ = 23018970 100 110 90 105 10
 = fields
x = fields
34200000 = fields
,,,, = fields
,,,,, = time
34200000,,,,, = price
34200000;100;110;90;105;10 = fields
34200000, 100,110,90,105,10 = price
34200000,100^,110,90,105,10 = price
34200000,100,110,90,105,10^ = volume
34200000,100,110,90,105,10~ = volume
34200000,\"100\",110,90,105,10 = price
";

const MINUTE_TIMES: &str = "\
0,1,1,1,1,0 = 23018400 1 1 1 1 0
0.0,1,1,1,1,0 = 23018400 1 1 1 1 0
60000,1,1,1,1,0 = 23018401 1 1 1 1 0
86340000,1,1,1,1,0 = 23019839 1 1 1 1 0
1,1,1,1,1,0 = time
59999,1,1,1,1,0 = time
86399999,1,1,1,1,0 = time
86400000,1,1,1,1,0 = time
86460000,1,1,1,1,0 = time
18446744073743751616,1,1,1,1,0 = time
340282366920938463463374607431802411456,1,1,1,1,0 = time
,1,1,1,1,0 = time
.0,1,1,1,1,0 = time
34200000.5,1,1,1,1,0 = time
 34200000,1,1,1,1,0 = time
34200000 ,1,1,1,1,0 = time
-60000,1,1,1,1,0 = time
+60000,1,1,1,1,0 = time
20131007 09:30,1,1,1,1,0 = time
";

const VALUES: &str = "\
0,10000000000,10000000000,1,10000000000,1000000000000000 = 23018400 10000000000 10000000000 1 10000000000 1000000000000000
0,1,10000000000,1,1,0 = 23018400 1 10000000000 1 1 0
0,110,110,90,90,10 = 23018400 110 110 90 90 10
0,90,110,90,110,10 = 23018400 90 110 90 110 10
0,0,1,1,1,0 = price
0,1,0,1,1,0 = price
0,1,1,0,1,0 = price
0,1,1,1,0,0 = price
0,10000000001,10000000000,1,1,0 = price
0,1,10000000001,1,1,0 = price
0,10000000000,10000000000,10000000001,10000000000,0 = price
0,1,10000000000,1,10000000001,0 = price
0,,110,90,105,10 = price
0,100,.0,90,105,10 = price
0,100,110,90.0.0,105,10 = price
0,100,110,90,105.01,10 = price
0,-100,110,90,105,10 = price
0,100,+110,90,105,10 = price
0,100,110,9/,105,10 = price
0,100,110,90,10:,10 = price
0,100,110,90,1e2,10 = price
0,100,110,90,18446744073709551721,10 = price
0,100,110,90,105,1000000000000001 = volume
0,100,110,90,105,18446744073709551626 = volume
0,100,110,90,105, = volume
0,100,110,90,105,-1 = volume
0,100,110,90,105,10.5 = volume
0,100,110,90,105,10  = volume
0,100,110,90,105,1e3 = volume
0,100,110,90,105,x,10 = volume
0,111,110,90,105,10 = range
0,89,110,90,105,10 = range
0,100,110,90,111,10 = range
0,100,110,90,89,10 = range
";

// Of several reasons of one line the first counts.
const FIRST_REASONS: &str = "\
x,100,110,90,105 = fields
34200001,0,110,90,105 = fields
34200000,100,110,90,x = fields
34200000,111,110,90,105 = fields
34200001,0,110,90,105,10 = time
34200001,100,110,90,105,x = time
34200001,111,110,90,105,10 = time
x,0,0,0,0,x = time
34200000,100,110,90,0,x = price
34200000,111,110,90,0,10 = price
34200000,111,110,90,105,x = volume
";

const DAILY_LINES: &str = "\
20131007 00:00,1672000,1680000,1670000,1675000,1234 = 23018400 1672000 1680000 1670000 1675000 1234
20131008 00:00,1675000.0,1676000,1650000,1652000,2000,7 = 23019840 1675000 1676000 1650000 1652000 2000
19700101 00:00,1,1,1,1,1 = 0 1 1 1 1 1
20000229 00:00,1,1,1,1,1 = 15863040 1 1 1 1 1
21991231 00:00,1,1,1,1,1 = 120967200 1 1 1 1 1
19691231 00:00,1,1,1,1,1 = time
22000101 00:00,1,1,1,1,1 = time
20130229 00:00,1,1,1,1,1 = time
21000229 00:00,1,1,1,1,1 = time
20131007 01:00,1,1,1,1,1 = time
20131007 15:00,1,1,1,1,1 = time
20131007 24:00,1,1,1,1,1 = time
20131007,1,1,1,1,1 = time
20131007 00:00 = fields
20131007 01:00,1,1,1,1 = fields
20131007 01:00,0,1,1,1,x = time
20131007 00:00,0,1,1,1,x = price
";

const HOUR_LINES: &str = "\
19700101 00:00,1,1,1,1,1 = 0 1 1 1 1 1
20131007 00:00,1,1,1,1,1 = 23018400 1 1 1 1 1
20131007 09:00,1.0,1,1,1,1.,x = 23018940 1 1 1 1 1
20131007 15:00,1,1,1,1,1 = 23019300 1 1 1 1 1
20131007 19:00,1,1,1,1,1 = 23019540 1 1 1 1 1
20131007 23:00,1,1,1,1,1 = 23019780 1 1 1 1 1
21991231 23:00,1,1,1,1,1 = 120968580 1 1 1 1 1
22000101 00:00,1,1,1,1,1 = time
20131007 24:00,1,1,1,1,1 = time
20131007 30:00,1,1,1,1,1 = time
20131007 9:00,1,1,1,1,1 = time
20131007  9:00,1,1,1,1,1 = time
20131007 -9:00,1,1,1,1,1 = time
20131007 0::00,1,1,1,1,1 = time
20131007 09:30,1,1,1,1,1 = time
20131007 09:01,1,1,1,1,1 = time
20131007 09:0,1,1,1,1,1 = time
20131007 09.00,1,1,1,1,1 = time
20131007 09:00:00,1,1,1,1,1 = time
20131007 09:00.0,1,1,1,1,1 = time
20131007 09:00 ,1,1,1,1,1 = time
 20131007 09:00,1,1,1,1,1 = time
20131007  09:00,1,1,1,1,1 = time
20131007|09:00,1,1,1,1,1 = time
20131007T09:00,1,1,1,1,1 = time
2013107 09:00,1,1,1,1,1 = time
20130229 09:00,1,1,1,1,1 = time
20131307 09:00,1,1,1,1,1 = time
20131000 09:00,1,1,1,1,1 = time
34200000,1,1,1,1,1 = time
,1,1,1,1,1 = time
20131007 09:00;1,1,1,1,1 = fields
 = fields
20131007 09:00,1,1,1,0,1 = price
20131007 09:00,1,1,1,1, = volume
20131007 09:00,1,1,2,1,1 = range
";

// A line in another spelling, and what is written for its row.
const WRITTEN_MINUTES: &str = "\
34200000,1000000,1000045,998955,999000,745 = 34200000,1000000,1000045,998955,999000,745
00034200000.0,100.,0110,90.00,105,010.0,x = 34200000,100,110,90,105,10
00.0,01,1.,1,1,00 = 0,1,1,1,1,0
86340000.,10000000000.0,10000000000,1,010000000000,1000000000000000., = 86340000,10000000000,10000000000,1,10000000000,1000000000000000
";

const WRITTEN_DATES: &str = "\
20131007 00:00,1672000,1680000,1670000,1675000,1234 = 20131007 00:00,1672000,1680000,1670000,1675000,1234
20131008 00:00,1675000,1676000,1650000,1652000,2000 = 20131008 00:00,1675000,1676000,1650000,1652000,2000
20131008 15:00,0100,110.0,90,105.,10,x = 20131008 15:00,100,110,90,105,10
20131008 09:00,1,1,1,1,1 = 20131008 09:00,1,1,1,1,1
19700101 00:00,1,1,1,1,0 = 19700101 00:00,1,1,1,1,0
21991231 23:00,10000000000,10000000000,1,1,1000000000000000 = 21991231 23:00,10000000000,10000000000,1,1,1000000000000000
";

fn byte_of(letter: u8) -> u8 {
    match letter {
        b'~' => b'\n',
        b'^' => b'\r',
        b'|' => b'\t',
        _ => letter,
    }
}

// The bytes of a text of a table.
fn bytes_of(alloc: Global, text: &str) -> Result<Vec<u8>, AllocError> {
    let mut bytes = Vec::new(alloc);
    for letter in text.as_bytes() {
        bytes.push(byte_of(*letter))?;
    }
    Ok(bytes)
}

fn answer_of(alloc: Global, answer: Result<Row, Reason>) -> Result<String, AllocError> {
    match answer {
        Ok(row) => format!(in alloc;
            "{} {} {} {} {} {}",
            row.start.0, row.opening.0, row.high.0, row.low.0, row.closing.0, row.volume.0
        ),
        Err(reason) => String::from_str(alloc, reason.word()),
    }
}

// A line of the minute file of 20131007.
fn minute(alloc: Global, text: &str) -> Result<String, Fail> {
    let bytes = bytes_of(alloc, text)?;
    Ok(answer_of(alloc, read_minute(Day(15_985), &bytes))?)
}

fn hour(alloc: Global, text: &str) -> Result<String, Fail> {
    let bytes = bytes_of(alloc, text)?;
    Ok(answer_of(alloc, read_dated(Resolution::Hour, &bytes))?)
}

fn daily(alloc: Global, text: &str) -> Result<String, Fail> {
    let bytes = bytes_of(alloc, text)?;
    Ok(answer_of(alloc, read_dated(Resolution::Daily, &bytes))?)
}

#[test]
fn minute_lines_are_read(rt: HostRuntime) -> Result<(), Fail> {
    check(rt.alloc(), MINUTE_LINES, minute)
}

#[test]
fn minute_times_are_read(rt: HostRuntime) -> Result<(), Fail> {
    check(rt.alloc(), MINUTE_TIMES, minute)
}

#[test]
fn values_are_read(rt: HostRuntime) -> Result<(), Fail> {
    check(rt.alloc(), VALUES, minute)
}

#[test]
fn the_first_reason_counts(rt: HostRuntime) -> Result<(), Fail> {
    check(rt.alloc(), FIRST_REASONS, minute)
}

#[test]
fn hour_lines_are_read(rt: HostRuntime) -> Result<(), Fail> {
    check(rt.alloc(), HOUR_LINES, hour)
}

#[test]
fn daily_lines_are_read(rt: HostRuntime) -> Result<(), Fail> {
    check(rt.alloc(), DAILY_LINES, daily)
}

// The minute files of the first and of the last day.
const OUTER_MINUTES: &str = "\
0 0,1,1,1,1,0 = 0 1 1 1 1 0
84005 86340000,1,1,1,1,0 = 120968639 1 1 1 1 0
";

fn outer_minute(alloc: Global, text: &str) -> Result<String, Fail> {
    let (day, text) = text.split_once(' ').ok_or("a day")?;
    let day = if day == "0" { Day(0) } else { Day(84_005) };
    Ok(answer_of(alloc, read_minute(day, text.as_bytes()))?)
}

#[test]
fn first_and_last_minute(rt: HostRuntime) -> Result<(), Fail> {
    check(rt.alloc(), OUTER_MINUTES, outer_minute)
}

// Appends the line that is written for the row of a text. `None`: the text has no row.
fn write_minute_of(text: &str, out: &mut Vec<u8>) -> Result<Option<Row>, NoMemory> {
    minute_row_is_valid();
    match read_minute(Day(15_985), text.as_bytes()) {
        Ok(row) => match write_minute(&row, out) {
            Ok(()) => Ok(Some(row)),
            Err(NoMemory) => Err(NoMemory),
        },
        Err(_) => Ok(None),
    }
}

fn write_hour_of(text: &str, out: &mut Vec<u8>) -> Result<Option<Row>, NoMemory> {
    dated_row_is_valid();
    match read_dated(Resolution::Hour, text.as_bytes()) {
        Ok(row) => match write_dated(&row, out) {
            Ok(()) => Ok(Some(row)),
            Err(NoMemory) => Err(NoMemory),
        },
        Err(_) => Ok(None),
    }
}

// What was written behind a text, without its LF.
fn line_behind<'a>(text: &str, out: &'a [u8]) -> Result<&'a str, Fail> {
    let said = str::from_utf8(out)?;
    let line = said.strip_prefix(text).ok_or("another text")?;
    Ok(line.strip_suffix("\n").ok_or("no LF")?)
}

// What is written behind a text for its row, where it is read as the same row.
fn written_minute(alloc: Global, text: &str) -> Result<String, Fail> {
    let mut out = Vec::from_slice(alloc, text.as_bytes())?;
    let row = write_minute_of(text, &mut out)?.ok_or("a text without a row")?;
    let line = line_behind(text, &out)?;
    if read_minute(Day(15_985), line.as_bytes()) != Ok(row) {
        return Err("another row")?;
    }
    Ok(String::from_str(alloc, line)?)
}

fn written_hour(alloc: Global, text: &str) -> Result<String, Fail> {
    let mut out = Vec::from_slice(alloc, text.as_bytes())?;
    let row = write_hour_of(text, &mut out)?.ok_or("a text without a row")?;
    let line = line_behind(text, &out)?;
    if read_dated(Resolution::Hour, line.as_bytes()) != Ok(row) {
        return Err("another row")?;
    }
    Ok(String::from_str(alloc, line)?)
}

#[test]
fn minute_rows_are_written(rt: HostRuntime) -> Result<(), Fail> {
    check(rt.alloc(), WRITTEN_MINUTES, written_minute)
}

#[test]
fn dated_rows_are_written(rt: HostRuntime) -> Result<(), Fail> {
    check(rt.alloc(), WRITTEN_DATES, written_hour)
}
