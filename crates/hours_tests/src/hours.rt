use exchange_hours::{Hours, Session};
use lean_fixed::{Day, Moment, Resolution};
use std::alloc::{AllocError, Global};
use std::test::Fail;
use test_cases::cases::{check, none};

// The text with each ' as a ".
fn quoted(alloc: Global, text: &str) -> Result<String, AllocError> {
    let mut out = String::new(alloc);
    for letter in text.chars() {
        out.push(if letter == '\'' { '"' } else { letter })?;
    }
    Ok(out)
}

// The text of a file whose market entry has these members.
fn file_of(alloc: Global, members: &str) -> Result<String, AllocError> {
    let members = quoted(alloc, members)?;
    format!(in alloc; "{{\"entries\":{{\"Equity-usa-[*]\":{{{members}}}}}}}")
}

// Market hours from 09:30 to 16:00 on each day from Monday to Friday, and then further members.
pub(crate) fn usual_file(alloc: Global, more: &str) -> Result<String, AllocError> {
    let day = "[{'start':'09:30:00','end':'16:00:00','state':'market'}]";
    let members = format!(in alloc;
        "'monday':{day},'tuesday':{day},'wednesday':{day},'thursday':{day},'friday':{day}{more}"
    )?;
    file_of(alloc, members.as_str())
}

fn read_usual(alloc: Global, more: &str) -> Result<Hours, Fail> {
    let file = usual_file(alloc, more)?;
    Ok(Hours::read(alloc, file.as_bytes())?)
}

fn fault_of(alloc: Global, bytes: &[u8]) -> Result<String, Fail> {
    match Hours::read(alloc, bytes) {
        Ok(_) => none(alloc),
        Err(fault) => Ok(format!(in alloc; "{fault:?}")?),
    }
}

// Whole files.
const FILES: &str = "\
{'entries':  = Json
 = Json
[] = NoEntry
{} = NoEntry
{'entries': []} = NoEntry
{'entries': {}} = NoEntry
{'entries': {'Equity-usa-[*]': []}} = NoEntry
{'entries': {'Equity-usa-SPY': {}}} = NoEntry
{'entries': {'Equity-usa-[*]': {}}} = none
";

fn file_fault(alloc: Global, text: &str) -> Result<String, Fail> {
    fault_of(alloc, quoted(alloc, text)?.as_bytes())
}

#[test]
fn refuses_files_without_entry(rt: HostRuntime) -> Result<(), Fail> {
    check(rt.alloc(), FILES, file_fault)
}

#[test]
fn refuses_bytes_that_are_no_text(rt: HostRuntime) -> Result<(), Fail> {
    let fault = fault_of(rt.alloc(), b"{\"entries\": \"\xff\"}")?;
    assert_eq!(rt; fault.as_str(), "Json");
    Ok(())
}

// The members of the market's entry.
const FAULTS: &str = "\
'monday':{},'holidays':{} = DayForm
'monday':['09:30:00'] = DayForm
'monday':[{'start':930,'end':'16:00:00','state':'market'}] = DayForm
'monday':[{'start':'09:30:00','end':'16:00:00'}] = DayForm
'monday':[{'start':'x','state':'market'}] = DayForm
'monday':[{'start':'9:30:00','end':'16:00:00','state':'market'}] = TimeForm
'monday':[{'start':'09:30:00','end':'16:00:01','state':'market'}] = TimeForm
'monday':[{'start':'16:00','end':'24:01','state':''}] = TimeForm
'monday':[{'start':'09:30','end':'09:30:00','state':'closed'}] = DayForm
'sunday':[{'start':'','end':'','state':''}],'friday':1 = TimeForm
'monday':1,'saturday':[{'start':'','end':'','state':''}] = DayForm
'monday':[{'start':'','end':'','state':''},1] = TimeForm
'holidays':{},'earlyCloses':[] = Holiday
'holidays':[20131007] = Holiday
'holidays':['10/7/2013','13/7/2013'] = Holiday
'holidays':['2/29/1900'] = Holiday
'holidays':['2/29/1904','1/1/2200','10/007/2013'] = Holiday
'earlyCloses':[] = EarlyClose
'earlyCloses':{'monday':'13:00:00'} = EarlyClose
'earlyCloses':{'10/7/2013':'noon'} = EarlyClose
'earlyCloses':{'10/7/2013':780} = EarlyClose
'monday':1,'sunday':[{'start':'','end':'','state':''}] = TimeForm
'monday':[{'start':'16:00','end':'09:30','state':'market'},{'start':'','end':'','state':''}] = DayForm
'monday':[{'start':'','end':'','state':1}] = DayForm
'monday':[{'start':'24:00','end':'1.00:00:00','state':'market'}] = DayForm
'monday':null = DayForm
'holidays':1,'saturday':1 = DayForm
'earlyCloses':[],'friday':[{'start':'','end':'','state':''}] = TimeForm
'earlyCloses':[],'holidays':[''] = Holiday
'holidays':['1/1/1900'],'earlyCloses':{'':'13:00'} = EarlyClose
";

fn entry_fault(alloc: Global, members: &str) -> Result<String, Fail> {
    fault_of(alloc, file_of(alloc, members)?.as_bytes())
}

// As a holiday and as the date of an early close.
const DATES: &str = "\
2/29/2100 = Holiday EarlyClose
2/30/2012 = Holiday EarlyClose
0/7/2013 = Holiday EarlyClose
10/0/2013 = Holiday EarlyClose
010/7/2013 = Holiday EarlyClose
10/7/13 = Holiday EarlyClose
10/7/02013 = Holiday EarlyClose
10/7 = Holiday EarlyClose
/7/2013 = Holiday EarlyClose
10//2013 = Holiday EarlyClose
10/7/2013/ = Holiday EarlyClose
10/7/2013  = Holiday EarlyClose
+1/7/2013 = Holiday EarlyClose
10-7-2013 = Holiday EarlyClose
2/29/2012 = none none
";

fn date_faults(alloc: Global, date: &str) -> Result<String, Fail> {
    let holiday = format!(in alloc; "'holidays':['{date}']")?;
    let holiday = entry_fault(alloc, holiday.as_str())?;
    let close = format!(in alloc; "'earlyCloses':{{'{date}':'13:00'}}")?;
    let close = entry_fault(alloc, close.as_str())?;
    Ok(format!(in alloc; "{holiday} {close}")?)
}

// As the time of an early close.
const TIMES: &str = "\
24:01 = EarlyClose
24:00:01 = EarlyClose
24:00:00:00 = EarlyClose
1.00:00 = EarlyClose
1.00:00:00:00 = EarlyClose
2.00:00:00 = EarlyClose
09:60 = EarlyClose
9:30 = EarlyClose
009:30 = EarlyClose
09:30:01 = EarlyClose
09:3 = EarlyClose
09.30 = EarlyClose
 09:30 = EarlyClose
+9:30 = EarlyClose
24:00 = none
";

fn time_fault(alloc: Global, time: &str) -> Result<String, Fail> {
    let close = format!(in alloc; "'earlyCloses':{{'10/7/2013':'{time}'}}")?;
    entry_fault(alloc, close.as_str())
}

#[test]
fn names_the_first_fault(rt: HostRuntime) -> Result<(), Fail> {
    check(rt.alloc(), FAULTS, entry_fault)
}

#[test]
fn names_faults_of_dates(rt: HostRuntime) -> Result<(), Fail> {
    check(rt.alloc(), DATES, date_faults)
}

#[test]
fn names_faults_of_times(rt: HostRuntime) -> Result<(), Fail> {
    check(rt.alloc(), TIMES, time_fault)
}

// The minutes of Monday 2013-10-07 between which its session is, by further members behind the usual week.
const MONDAYS: &str = "\
,'holidays':['10/14/2013','1/1/1900'] = 570 960
 = 570 960
,'holidays':['10/07/2013'] = none
,'earlyCloses':{'10/7/2013':'09:00'} = none
,'earlyCloses':{'10/7/2013':'09:30:00'} = none
,'earlyCloses':{'10/7/2013':'09:31:00'} = 570 571
,'earlyCloses':{'10/7/2013':'13:00:00'} = 570 780
,'earlyCloses':{'10/7/2013':'16:00:00'} = 570 960
,'earlyCloses':{'10/7/2013':'1.00:00:00'} = 570 960
,'earlyCloses':{'10/7/2013':'13:00','10/07/2013':'14:00'} = 570 780
,'earlyCloses':{'10/7/2013':'14:00','10/07/2013':'13:00'} = 570 780
,'earlyCloses':{'10/7/2013':'15:59'} = 570 959
,'earlyCloses':{'10/7/2013':'16:01'} = 570 960
,'earlyCloses':{'10/7/2013':'00:00'} = none
,'earlyCloses':{'10/8/2013':'13:00','12/31/1969':'13:00','1/1/2200':'09:00'} = 570 960
,'earlyCloses':{'10/7/2013':'13:00'},'holidays':['10/7/2013'] = none
,'monday':[{'start':'04:00','end':'20:00','state':'premarket'}] = none
,'monday':[{'start':'13:00','end':'16:30','state':'market'},{'start':'20:00','end':'24:00','state':'postmarket'},{'start':'09:00','end':'12:00','state':'market'}] = 540 990
,'monday':[{'start':'00:00','end':'1.00:00:00','state':'market'}] = 0 1440
,'monday':[] = none
,'monday':[{'start':'09:30','end':'16:00','state':'Market'}] = none
,'monday':[{'start':'10:00','end':'11:00','state':'market'},{'start':'11:00','end':'12:00','state':'closed'},{'start':'12:00','end':'13:00','state':'market'}] = 600 780
,'monday':[{'start':'09:00','end':'17:00','state':'market'},{'start':'10:00','end':'11:00','state':'market'}] = 540 1020
,'monday':[{'start':'23:59:00','end':'24:00:00','state':'market'}] = 1439 1440
";

// A session as minutes from a moment.
fn minutes(alloc: Global, session: Option<Session>, from: i64) -> Result<String, Fail> {
    let Some(session) = session else {
        return none(alloc);
    };
    let opens = session.opens.0.wrapping_sub(from);
    let closes = session.closes.0.wrapping_sub(from);
    Ok(format!(in alloc; "{opens} {closes}")?)
}

fn monday(alloc: Global, more: &str) -> Result<String, Fail> {
    let hours = read_usual(alloc, more)?;
    minutes(alloc, hours.session(Day(15_985)), 23_018_400)
}

#[test]
fn gives_sessions(rt: HostRuntime) -> Result<(), Fail> {
    check(rt.alloc(), MONDAYS, monday)
}

fn resolution_of(word: &str) -> Result<Resolution, Fail> {
    match word {
        "minute" => Ok(Resolution::Minute),
        "hour" => Ok(Resolution::Hour),
        "daily" => Ok(Resolution::Daily),
        _ => Err("a resolution")?,
    }
}

fn moment_after(from: i64, minute: &str) -> Result<Moment, Fail> {
    let minute: i64 = minute.parse()?;
    Ok(Moment(from.wrapping_add(minute)))
}

// A moment as minutes from another.
fn minute(alloc: Global, moment: Option<Moment>, from: i64) -> Result<String, Fail> {
    match moment {
        Some(moment) => Ok(format!(in alloc; "{}", moment.0.wrapping_sub(from))?),
        None => none(alloc),
    }
}

// The next grid end, by a resolution and two moments as minutes from another.
fn grid_end(alloc: Global, hours: &Hours, from: i64, text: &str) -> Result<String, Fail> {
    let (word, rest) = text.split_once(' ').ok_or("a resolution")?;
    let (after, until) = rest.split_once(' ').ok_or("two moments")?;
    let resolution = resolution_of(word)?;
    let end = hours.grid_next(
        resolution,
        moment_after(from, after)?,
        moment_after(from, until)?,
    );
    minute(alloc, end, from)
}

// 00:00 of Friday 2013-10-04.
const FRIDAY: i64 = 23_014_080;

const USUAL_ENDS: &str = "\
minute 0 10000 = 571
minute 570 571 = 571
minute 0 570 = none
minute 959 10000 = 960
minute 960 10000 = 4891
minute 960 4890 = none
hour 0 10000 = 600
hour 600 10000 = 660
hour 959 960 = 960
hour 960 10000 = 4920
daily 0 10000 = 960
daily 960 10000 = 5280
daily 100 100 = none
";

fn usual_end(alloc: Global, text: &str) -> Result<String, Fail> {
    grid_end(alloc, &read_usual(alloc, "")?, FRIDAY, text)
}

// Friday closes at 13:30, and Monday is a holiday.
const CLOSED_ENDS: &str = "\
minute 809 10000 = 810
minute 810 10000 = 6331
hour 780 840 = 840
hour 780 839 = none
hour 840 10000 = 6360
hour 840 6359 = none
daily 0 810 = 810
daily 0 809 = none
daily 810 10000 = 6720
daily 810 6719 = none
daily 10000 0 = none
";

fn closed_end(alloc: Global, text: &str) -> Result<String, Fail> {
    let closed = ",'holidays':['10/7/2013'],'earlyCloses':{'10/4/2013':'13:30'}";
    grid_end(alloc, &read_usual(alloc, closed)?, FRIDAY, text)
}

// The first day is a Thursday and the last one a Tuesday, which is open round the clock here.
const ALL_TUESDAY: &str = ",'tuesday':[{'start':'00:00','end':'24:00','state':'market'}]";

const OUTER_ENDS: &str = "\
minute -1 121000000 = 571
hour -9223372036854775808 9223372036854775807 = 600
daily -1440 960 = 960
daily -9223372036854775808 -1 = none
minute 120968639 9223372036854775807 = 120968640
hour 120968580 120968640 = 120968640
hour 120968580 120968639 = none
daily 120967200 120968640 = 120968640
minute 120968640 9223372036854775807 = none
daily 9223372036854775807 9223372036854775807 = none
";

fn outer_end(alloc: Global, text: &str) -> Result<String, Fail> {
    grid_end(alloc, &read_usual(alloc, ALL_TUESDAY)?, 0, text)
}

#[test]
fn finds_grid_ends_of_the_usual_week(rt: HostRuntime) -> Result<(), Fail> {
    check(rt.alloc(), USUAL_ENDS, usual_end)
}

#[test]
fn finds_grid_ends_around_closed_days(rt: HostRuntime) -> Result<(), Fail> {
    check(rt.alloc(), CLOSED_ENDS, closed_end)
}

#[test]
fn finds_the_first_and_the_last_grid_ends(rt: HostRuntime) -> Result<(), Fail> {
    check(rt.alloc(), OUTER_ENDS, outer_end)
}

const CLOSINGS: &str = "\
-10000 121000000 = 960
-10000 0 = none
120968159 121000000 = 120968160
120968160 121000000 = none
";

fn closing(alloc: Global, text: &str) -> Result<String, Fail> {
    let hours = read_usual(alloc, "")?;
    let (after, until) = text.split_once(' ').ok_or("two moments")?;
    minute(
        alloc,
        hours.close_next(moment_after(0, after)?, moment_after(0, until)?),
        0,
    )
}

// By the usual week, and with Tuesdays that are open round the clock.
const OPENINGS: &str = "\
23018969 = false false
23018970 = true true
23019359 = true true
23019360 = false false
23017530 = false false
-870 = false false
120969210 = false false
120967200 = false true
120968639 = false true
120968640 = false false
-9223372036854775808 = false false
9223372036854775807 = false false
";

fn openness(alloc: Global, text: &str) -> Result<String, Fail> {
    let at = moment_after(0, text)?;
    let usual = read_usual(alloc, "")?.is_open(at);
    let all_tuesday = read_usual(alloc, ALL_TUESDAY)?.is_open(at);
    Ok(format!(in alloc; "{usual} {all_tuesday}")?)
}

fn cross_threads<T: Send + Sync>(_: &T) {}

#[test]
fn finds_closings(rt: HostRuntime) -> Result<(), Fail> {
    check(rt.alloc(), CLOSINGS, closing)
}

#[test]
fn tells_when_the_exchange_is_open(rt: HostRuntime) -> Result<(), Fail> {
    check(rt.alloc(), OPENINGS, openness)
}

// The sessions of the first and of the last day.
fn outer_sessions(alloc: Global) -> Result<String, Fail> {
    let hours = read_usual(alloc, ALL_TUESDAY)?;
    cross_threads(&hours);
    let first = minutes(alloc, hours.session(Day(0)), 0)?;
    let last = minutes(alloc, hours.session(Day(84_005)), 120_967_200)?;
    Ok(format!(in alloc; "{first}, {last}")?)
}

#[test]
fn gives_the_first_and_the_last_session(rt: HostRuntime) -> Result<(), Fail> {
    let said = outer_sessions(rt.alloc())?;
    assert_eq!(rt; said.as_str(), "570 960, 0 1440");
    Ok(())
}

// Appends a text so many times.
fn push_times(text: &mut String, part: &str, times: u32) -> Result<(), AllocError> {
    for _ in 0..times {
        text.push_str(part)?;
    }
    Ok(())
}

// A long text that is not looked at, and many holidays.
fn many_members(alloc: Global) -> Result<String, AllocError> {
    let mut more = String::from_str(alloc, ",'comment':'")?;
    push_times(&mut more, "ten bytes ", 60_000)?;
    more.push_str("','holidays':['10/7/2013'")?;
    push_times(&mut more, ",'1/2/1970'", 40_000)?;
    more.push_str("]")?;
    Ok(more)
}

// Whether a file has over a million bytes, and whether the exchange is open on the Monday and on the Tuesday.
fn large_file(alloc: Global) -> Result<String, Fail> {
    let more = many_members(alloc)?;
    let hours = read_usual(alloc, &more)?;
    let monday = hours.is_open(Moment(23_018_970));
    let tuesday = hours.is_open(Moment(23_020_410));
    Ok(format!(in alloc; "{} {monday} {tuesday}", more.len() > 1_000_000)?)
}

// A file of a mebibyte is read.
#[test]
fn reads_a_large_file(rt: HostRuntime) -> Result<(), Fail> {
    let said = large_file(rt.alloc())?;
    assert_eq!(rt; said.as_str(), "true false true");
    Ok(())
}
