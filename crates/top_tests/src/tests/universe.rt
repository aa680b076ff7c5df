//! The worked report of a universe whose one security changes, where a call of one of its files fails.

use crate::tests::folders::{add, begun, path_of};
use crate::tests::running::with_failing_call;
use std::alloc::Global;
use std::collections::BTreeMap;
use std::test::Fail;
use test_cases::cases::check;

const PLAN: &str = "\
run 20131007 20131008 1000
choose 1
market 10 when time == 601 and position == 0 for AAA
market 0 - position when time == 605 and position > 0 for AAA
";

// Each file has one row. BBB has none.
const ROWS: &str = "\
coarse/20131006 = AAA 1,AAA,10,1000,10000
coarse/20131007 = BBB 1,BBB,10,1000,20000
aaa/20131007 = 36000000,100000,100000,100000,100000,100
aaa/20131008 = 36240000,110000,110000,110000,110000,100
";

// The lines of six moments, and the summary.
const REPORT: &str = "\
20131007 00:00 add AAA

20131007 10:01 order 1 AAA submitted market 10 -
20131007 10:01 order 1 AAA filled 10 10.0000 fee 0.0000

20131007 16:00 close cash 900.0000 equity 1000.0000

20131008 00:00 add BBB

20131008 10:05 order 2 AAA submitted market -10 -
20131008 10:05 order 2 AAA filled -10 11.0000 fee 0.0000
20131008 10:05 remove AAA

20131008 16:00 close cash 1010.0000 equity 1010.0000

end 2 orders 2 fills 0 open
fees 0.0000
realised 10.0000
cash 1010.0000
equity 1010.0000
drawdown 0.0000";

fn files_of_universe(alloc: Global) -> Result<BTreeMap<String, Vec<u8>>, Fail> {
    let mut files = begun(alloc, PLAN)?;
    for file in ROWS.lines() {
        let (name, row) = file.split_once(" = ").ok_or("no row")?;
        let path = path_of(alloc, name)?;
        let text = format!(in alloc; "{row}\n")?;
        add(alloc, &mut files, &path, &text)?;
    }
    Ok(files)
}

// The call of a file that fails, the status, and the number of moments whose lines were printed. The opening is call 0, call 1 reads
// the row, and call 2 finds the end. A coarse file is read on while a moment's rows are taken, and then no line of that moment is
// printed; behind a failed read of a security's file the lines of the moment are printed. A security that is removed at the moment
// stops nothing.
const FAILING_CALLS: &str = "\
coarse/20131006 0 = 4 0
coarse/20131006 1 = 4 0
coarse/20131006 2 = 4 0
coarse/20131006 3 = 0 whole
coarse/20131007 0 = 4 0
coarse/20131007 1 = 4 0
coarse/20131007 2 = 4 3
coarse/20131007 3 = 0 whole
aaa/20131007 0 = 4 1
aaa/20131007 1 = 4 1
aaa/20131007 2 = 4 2
aaa/20131007 3 = 0 whole
aaa/20131008 0 = 4 2
aaa/20131008 1 = 4 2
aaa/20131008 2 = 0 whole
bbb/20131008 0 = 4 4
bbb/20131008 1 = 0 whole
";

fn failing_call(alloc: Global, input: &str) -> Result<String, Fail> {
    let (name, call) = input.split_once(' ').ok_or("no number")?;
    let files = files_of_universe(alloc)?;
    with_failing_call(alloc, files, name, call.parse()?, REPORT)
}

#[test]
fn failing_reads_of_a_universe(rt: HostRuntime) -> Result<(), Fail> {
    check(rt.alloc(), FAILING_CALLS, failing_call)
}
