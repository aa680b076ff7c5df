//! Worked session tapes through both top calls, over folders and sinks in memory that fail at chosen calls.
use crate::tests::{check_tapes, check_writes, failing_folder, offline};
use std::test::Fail;
use test_cases::cases::{compare, parts_of};

const TAPES: &str = "\
tape minute 20131007 20131007 SPY, hours:usual 07/spy:34140000*1;34200000*2;57540000*3;57600000*4; = 0 20131007 09:31 SPY*2;20131007 16:00 SPY*3;end 2 rows;
tape minute 20131007 20131007 SPY AAPL, hours:usual 07/spy:57540000*1; 07/aapl:34200000*1;57540000*1; = 0 20131007 09:31 AAPL*1;20131007 16:00 SPY*1;20131007 16:00 AAPL*1;end 3 rows;
tape minute 20131007 20131007 SPY AAPL, hours:usual 07/spy:36000000*1;36060000*1;36120000*1; 07/aapl:36000000*1;36060000*1;36120000,abc,1,1,1,1; = 3 20131007 10:01 SPY*1;20131007 10:01 AAPL*1;20131007 10:02 SPY*1;20131007 10:02 AAPL*1;data equity/usa/minute/aapl/20131007_aapl_minute_trade.csv line 3 price;
tape minute 20131007 20131007 SPY AAPL, hours:usual 07/spy:36000000*1; 07/aapl:;x = 3 data equity/usa/minute/aapl/20131007_aapl_minute_trade.csv line 2 fields;
tape minute 20131007 20131008 SPY AAPL, hours:usual 07/spy:36000000*1; 08/spy:x 08/aapl:36000000*2; = 3 20131007 10:01 SPY*1;data equity/usa/minute/spy/20131008_spy_minute_trade.csv line 1 fields;
tape minute 20131005 20131008 AAPL SPY, hours:usual 07/spy:36000000*1; 08/spy:36000000*3 08/aapl:36000000*2; = 0 20131007 10:01 SPY*1;20131008 10:01 AAPL*2;20131008 10:01 SPY*3;end 3 rows;
tape hour 20131007 20131007 SPY, hours:usual hour/spy:20131007_08:00*1;20131007_09:00*2;20131007_15:00*3;20131007_16:00*4;20131008_10:00*5;x = 0 20131007 10:00 SPY*2;20131007 16:00 SPY*3;end 2 rows;
tape daily 20131007 20131008 SPY, hours:usual daily/spy:20131006_00:00*1;20131007_00:00*2;20131008_00:00*3;20131009_00:00*4; = 0 20131007 16:00 SPY*2;20131008 16:00 SPY*3;end 2 rows;
tape daily 20131007 20131008 SPY, daily/spy:20131007_00:00*2; = 2 hours missing file;
tape daily 20131007 20131008 SPY, hours:{} daily/spy:20131007_00:00*2; = 2 hours no-entry;
tape daily 20131007 20131008 SPY, hours:{ daily/spy:20131007_00:00*2; = 2 hours json;
tape daily 20131007 20131008 SPY, hours:early daily/spy:20131007_00:00*2;20131008_00:00*3; = 0 20131007 13:00 SPY*2;end 1 rows;
tape hour 20131008 20131007 SPY, hours:usual daily/spy: = 1 usage;
tape hour 20131007 20131007, hours:usual daily/spy: = 1 usage;
tape day 20131007 20131007 SPY, hours:usual daily/spy: = 1 usage;
tape hour 19700101 20131007 SPY, hours:usual daily/spy: = 1 usage;
tape hour 20131007 21991231 SPY, hours:usual daily/spy: = 1 usage;
";

#[test]
fn worked_session_tapes(rt: HostRuntime) -> Result<(), Fail> {
    check_tapes(&rt, TAPES)
}

const WORDS: &str = "tape minute 20131007 20131007 SPY AAPL";

const FILES: &str = "hours:usual 07/spy:36000000*1;36060000*1; 07/aapl:36000000*1;36060000*1;";

// The call of a file that fails: the opening is call 0, and the first read gives the whole file. The bars of a minute are
// printed before a failed read stops the tape.
const FAILING_READS: &str = "\
hours 0 = 4 
hours 1 = 4 
07/spy 0 = 4 
07/spy 1 = 4 
07/spy 2 = 4 20131007 10:01 SPY*1;20131007 10:01 AAPL*1;20131007 10:02 SPY*1;20131007 10:02 AAPL*1;
07/spy 3 = 0 20131007 10:01 SPY*1;20131007 10:01 AAPL*1;20131007 10:02 SPY*1;20131007 10:02 AAPL*1;end 4 rows;
07/aapl 0 = 4 
07/aapl 2 = 4 20131007 10:01 SPY*1;20131007 10:01 AAPL*1;20131007 10:02 SPY*1;20131007 10:02 AAPL*1;
";

#[test]
fn failing_session_reads(rt: HostRuntime) -> Result<(), Fail> {
    let alloc = rt.alloc();
    for case in FAILING_READS.lines() {
        let (input, wanted) = parts_of(case)?;
        let (name, call) = input.split_once(' ').ok_or("no number")?;
        let mut folder = failing_folder(alloc, FILES, name, call)?;
        compare(
            alloc,
            input,
            &offline(alloc, WORDS, &mut folder, 65_536)?,
            wanted,
        )?;
    }
    Ok(())
}

const WHOLE: &str = "\
20131007 10:01 SPY 167.2000 168.0000 167.0000 167.5000 1
20131007 10:01 AAPL 167.2000 168.0000 167.0000 167.5000 1
20131007 10:02 SPY 167.2000 168.0000 167.0000 167.5000 1
20131007 10:02 AAPL 167.2000 168.0000 167.0000 167.5000 1
end 4 rows
";

#[test]
fn failing_session_writes(rt: HostRuntime) -> Result<(), Fail> {
    check_writes(rt.alloc(), WORDS, FILES, WHOLE, 16)
}
