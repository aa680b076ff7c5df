//! At most 256 securities are active.

use crate::tests::lines::report;
use std::alloc::Global;
use std::fmt::Write;
use std::test::Fail;

const SELECTED: &str = "\
run 20131007 20131008 1000
choose 256
";

const BESIDE: &str = "\
run 20131007 20131008 1000
bars SPY
choose 256
";

// A moment at which 256 securities are selected, and another of one that is none of them.
fn many_rows(alloc: Global) -> Result<String, Fail> {
    let mut moments = String::from_str(alloc, "0")?;
    for n in 0..256 {
        write!(moments, "; row 0 A{n} 10000 1000")?;
    }
    moments.push_str("\n1440; row 0 B 10000 1000\n")?;
    Ok(moments)
}

// How many of the selected securities are added, and what is printed last.
fn outcome(alloc: Global, plan: &str) -> Result<String, Fail> {
    let said = report(alloc, plan, &many_rows(alloc)?)?;
    let mut added = 0;
    let mut last = "";
    for line in said.lines() {
        if line.starts_with("20131007 00:00 add A") && added < 1000 {
            added += 1;
        }
        last = line;
    }
    Ok(format!(in alloc; "{added} {last}")?)
}

#[test]
fn most_securities(rt: HostRuntime) -> Result<(), Fail> {
    assert_eq!(rt;
        outcome(rt.alloc(), SELECTED)?.as_str(),
        "256 too many securities"
    );
    assert_eq!(rt;
        outcome(rt.alloc(), BESIDE)?.as_str(),
        "255 too many securities"
    );
    Ok(())
}
