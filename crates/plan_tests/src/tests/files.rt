//! Algorithm files of whole backtests, and the plans that they are.

use crate::tests::cases::{check, compare};
use crate::tests::texts::plan_text;
use std::alloc::Global;
use std::fmt::Write;
use std::test::Fail;
use test_words::plans::file_of;

const FILES: &str = r#"
start = "20131007"
end = "20131007"
cash = "1000"
[[securities]]
symbol = "SPY"
resolution = "minute"
fill-forward = false
[[rules]]
when = "close > sma(3)"
do = "order"
kind = "market"
quantity = "0"
= 15985 15985 10000000 2 0 0 0 SPY:minute:false:- any:market:1
run 20131007 20131008 100000
filled SPY
market 10 when time == 780 and position == 0
= 15985 15986 1000000000 2 0 0 0 SPY:minute:true:- any:market:0
run 20131007 20131007 1000
filled SPY
market 0 when volume == 0 and time < 607
= 15985 15985 10000000 2 0 0 0 SPY:minute:true:- any:market:0
run 20131007 20131008 1000
= 15985 15986 10000000 2 0 0 0
run 20131007 20131007 600000000000000
bars SPY
market 1000000000 when time == 601
market 1000000000 when time == 601
= 15985 15985 6000000000000000000 2 0 0 0 SPY:minute:false:- any:market:0 any:market:0
run 20131007 20131007 10000
fees 0.005 1
bars SPY
limit 10 at 99 when time == 601
= 15985 15985 100000000 2 50 10000 0 SPY:minute:false:- any:limit:0
run 20131007 20131007 10000
slippage = 100
bars SPY
market 10 when time == 601
stop -10 at 95 when time == 601
= 15985 15985 100000000 2 0 0 100 SPY:minute:false:- any:market:0 any:stop:0
run 20131007 20131011 100000
fees 0.005 1
merged SPY 15
market 100 when close > sma(4) and position == 0
market 0 - position when close < sma(4) and position > 0
= 15985 15989 1000000000 2 50 10000 0 SPY:minute:true:15 any:market:1 any:market:1
run 20131007 20131007 10000
fee-per-share = "0.01"
bars SPY
market 10 when time == 601
market -20 when time == 602
= 15985 15985 100000000 2 100 0 0 SPY:minute:false:- any:market:0 any:market:0
run 20131007 20131008 1000
choose 1
market 10 when time == 601 and position == 0 for AAA
market 0 - position when time == 605 and position > 0 for AAA
= 15985 15986 10000000 2 0 0 0 universe:minute:false:-:1:0:0:0 AAA:market:0 AAA:market:0
run 20131007 20131007 10000
bars SPY
limit 10 at 90 when time == 601
update at 95 when time == 602
cancel when time == 603
= 15985 15985 100000000 2 0 0 0 SPY:minute:false:- any:limit:0 any:update:0 any:cancel:0
run 20131007 20131018 1000000
fees 0.005 1
slippage = 10
merged S0 15
merged S1 15
merged S2 15
merged S3 15
merged S4 15
merged S5 15
merged S6 15
merged S7 15
merged S8 15
merged S9 15
merged S10 15
merged S11 15
merged S12 15
merged S13 15
merged S14 15
merged S15 15
market 100 when sma(4) > sma(12) and position == 0 and orders == 0
market 0 - position when sma(4) < sma(12) and position > 0
limit 0 - position at close + 1 when position > 0 and orders == 0
cancel when position == 0 and orders > 0
= 15985 15996 10000000000 2 50 10000 10 S0:minute:true:15 S1:minute:true:15 S2:minute:true:15 S3:minute:true:15 S4:minute:true:15 S5:minute:true:15 S6:minute:true:15 S7:minute:true:15 S8:minute:true:15 S9:minute:true:15 S10:minute:true:15 S11:minute:true:15 S12:minute:true:15 S13:minute:true:15 S14:minute:true:15 S15:minute:true:15 any:market:2 any:market:2 any:limit:0 any:cancel:0
run 20131007 20131011 100000
fees 0.005 1
merged SPY 15
market 100 when close >
market 0 - position when close < sma(4) and position > 0
= rule 1 when syntax 7
run 20131007 20131011 100000
fees 0.005 1
merged SPY 15
market 100 when close + (1 < 2)
market 0 - position when close < sma(4) and position > 0
= rule 1 when type 6
run 20131007 20131011 100000
fees 0.005 1
merged SPY 15
market 100 when close
market 0 - position when close < sma(4) and position > 0
= rule 1 when type 0
run 20131007 20131011 100000
fees 0.005 1
merged SPY 15
market 100 when close > foo
market 0 - position when close < sma(4) and position > 0
= rule 1 when token 8
run 20131007 20131007 10000
bars SPY
stop-limit -10 at 99 when time == 601
limit = "0"
stop-limit -10 at 99 when time == 601
limit = "98.5"
= 15985 15985 100000000 2 0 0 0 SPY:minute:false:- any:stop-limit:0 any:stop-limit:0
run 20131007 20131007 10000
bars SPY
market 10 when time == 601
stop-limit 10 at 102 when time == 601
limit = "101.5"
= 15985 15985 100000000 2 0 0 0 SPY:minute:false:- any:market:0 any:stop-limit:0
run 20131007 20131007 10000
bars SPY
stop-limit -10 at 99 when time == 601
stop-limit -10 at 99 when time == 601
limit = "98.5"
= missing limit
run 20131007 20131009 1000
choose 1
market 0 when sma(2) > 0
= 15985 15987 10000000 2 0 0 0 universe:minute:false:-:1:0:0:0 any:market:1
run 20131007 20131007 1000
[[markets]]
name = "usa"
zone = "EST5EDT,M3.2.0,M11.1.0"
[[securities]]
symbol = "SAP"
market = "xetra"
resolution = "minute"
market 1 when time == 931 for SAP
= unknown markets
"#;

// The plan that a file in short is, or its first fault.
fn short_text(alloc: Global, short: &str) -> Result<String, Fail> {
    plan_text(alloc, &file_of(alloc, short)?)
}

#[test]
fn reads_files_of_backtests(rt: HostRuntime) -> Result<(), Fail> {
    check(rt.alloc(), FILES, short_text)
}

const WINDOW: &str = "start = '20131007'\nend = '20131231'\ncash = '1000'\n";

const UNIVERSE: &str = "[universe]\nresolution = 'minute'\ntop = 1\n";

const RULE: &str = "[[rules]]\nwhen = '1 == 1'\ndo = 'order'\nkind = 'market'\nquantity = '0'\n";

// Appends so many securities to a file, and to the text of the plan that it is.
fn append_securities(count: u32, file: &mut String, plan: &mut String) -> Result<(), Fail> {
    for number in 0..count {
        writeln!(
            file,
            "[[securities]]\nsymbol = 'A{number}'\nresolution = 'minute'"
        )?;
        write!(plan, " A{number}:minute:true:-")?;
    }
    Ok(())
}

// Appends the greatest number of rules.
fn append_rules(file: &mut String, plan: &mut String) -> Result<(), Fail> {
    for _ in 0..64 {
        file.push_str(RULE)?;
        plan.push_str(" any:market:0")?;
    }
    Ok(())
}

// That a file of so many securities, perhaps with a universe, and 64 rules is read as its plan.
fn read_large(alloc: Global, securities: u32, universe: bool) -> Result<(), Fail> {
    let mut file = String::from_str(alloc, WINDOW)?;
    let mut plan = String::from_str(alloc, "15985 16070 10000000 2 0 0 0")?;
    append_securities(securities, &mut file, &mut plan)?;
    if universe {
        file.push_str(UNIVERSE)?;
        plan.push_str(" universe:minute:true:-:1:0:0:0")?;
    }
    append_rules(&mut file, &mut plan)?;
    let read = plan_text(alloc, &file)?;
    compare(alloc, &file, &read, &plan)
}

#[test]
fn reads_large_files(rt: HostRuntime) -> Result<(), Fail> {
    let alloc = rt.alloc();
    read_large(alloc, 1, false)?;
    read_large(alloc, 255, true)?;
    read_large(alloc, 256, true)
}
