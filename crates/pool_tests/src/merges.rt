//! Merges of two feeds of a pool, moment after moment.
ghost use Rattle.std.specs.Prelude.{◌≡◌};
ghost use Rattle.lean_fixed.specs.Ranges.{IsMoment};

use crate::MemPool;
use crate::folders::{Case, folder_of, key_of, kind_of};
use crate::merging::{begin, leave};
use crate::said::arrivals_text;
use crate::scripts::script_of;
use feed_pool::SerialPool;
use frontier_sync::Heads;
use lean_fixed::NoMemory;
use lean_items::{Arrival, FeedKey, FeedKind, FeedNo, Item, Pool};
use std::alloc::Global;
use std::test::Fail;
use test_cases::cases::check;

// All that two feeds give, up to the end or to the first malformed line or failed read, which is told last. One feed leaves
// behind the first moment.
fn merged<P: Pool>(
    alloc: Global,
    pool: &mut P,
    first: FeedKey,
    second: FeedKey,
    leaves: FeedNo,
) -> Result<Vec<Arrival>, NoMemory>
    requires added { P.added pool.old ≡ 0 }
    requires first { IsMoment first.start.0 }
    requires second { IsMoment second.start.0 }
{
    let mut out = Vec::new(alloc);
    let mut heads = Heads::new(alloc);
    let _ = begin(alloc, pool, &mut heads, first)?;
    let _ = begin(alloc, pool, &mut heads, second)?;
    'moments: for moment in 0..1_000 {
        if let Some(stop) = heads.stop() {
            out.push(stop)?;
            break;
        }
        match heads.next_frontier() {
            Some(at) => heads.slice(pool, at, &mut out)?,
            None => break,
        }
        if moment == 0 {
            leave(pool, &mut heads, *&leaves);
        }
    }
    let _ = pool.finish();
    Ok(out)
}

// The feeds begin at the first and at the second item of a script, and that of a number leaves.
const SCRIPTS: &str = "\
9: 1001 1002 1003 = 0:07.1001 5 v1, 0:07.1002 5 v1, 1:07.1002 5 v1, 0:07.1003 5 v1, 1:07.1003 5 v1
9: 1001 1002 1001 1002 1003 = 0:07.1001 5 v1, 0:07.1002 5 v1, 1:07.1002 5 v1, 0:07.1003 5 v1, 1:07.1003 5 v1
9: 1001 1003 1002 = 0:07.1001 5 v1, 0:07.1003 5 v1, 1:07.1003 5 v1
9: A B 1001 = 0:07.0000 A 10000 2 3, 0:07.0000 B 10000 2 3, 1:07.0000 B 10000 2 3, 0:07.1001 5 v1, 1:07.1001 5 v1
9: 1001 1002 bad = 0:07.1001 5 v1, 0:07.1002 5 v1, 1:07.1002 5 v1, 0:bad 15985:9 fields
9: 1001 1002 faulted = 0:07.1001 5 v1, 0:07.1002 5 v1, 1:07.1002 5 v1, 0:faulted
9: 1001 bad = 1:bad 15985:9 fields
9: 1001 end = 0:07.1001 5 v1
0: 1001 1002 1003 = 0:07.1001 5 v1, 1:07.1002 5 v1, 1:07.1003 5 v1
1: 1001 1002 1003 = 0:07.1001 5 v1, 0:07.1002 5 v1, 0:07.1003 5 v1
0: 1001 1002 bad = 0:07.1001 5 v1, 1:07.1002 5 v1, 1:bad 15985:9 fields
1: 1001 bad = 1:bad 15985:9 fields
";

fn scripts(alloc: Global, input: &str) -> Result<String, Fail> {
    let (leaves, words) = input.split_once(": ").ok_or("no number")?;
    let leaves = FeedNo(leaves.parse()?);
    let script = script_of(alloc, words)?;
    let mut faults = 0;
    let mut pool = MemPool::new(alloc, script, &mut faults);
    let first = key_of(FeedKind::Coarse, 6, 0, true);
    let second = key_of(FeedKind::Coarse, 6, 0, false);
    let out = merged(alloc, &mut pool, first, second, leaves)?;
    Ok(arrivals_text(alloc, &out)?)
}

// SPY is feed 0 and AAPL is feed 1, over files of 2013-10-07.
const FILES: &str = "\
SPY.07:57540000,1,1,1,1,1; | AAPL.07:34200000,2,2,2,2,1;57540000,2,2,2,2,1; = 1:07.0931 2 v1, 0:07.1600 1 v1, 1:07.1600 2 v1
SPY.07:36000000,1,1,1,1,1;36060000,1,1,1,1,1;36120000,1,1,1,1,1; | AAPL.07:36000000,1,1,1,1,1;36060000,1,1,1,1,1;36120000,abc,1,1,1,1; = 0:07.1001 1 v1, 1:07.1001 1 v1, 0:07.1002 1 v1, 1:07.1002 1 v1, 1:bad 15985:3 price
SPY.07:36000000,1,1,1,1,1;x; | AAPL.07:36060000,1,1,1,1,1; = 0:07.1001 1 v1, 0:bad 15985:2 fields
SPY.07:x; | AAPL.07:36060000,1,1,1,1,1; = 0:bad 15985:1 fields
SPY.08:x; | AAPL.07:36060000,1,1,1,1,1; = 1:07.1002 1 v1
";

fn files(alloc: Global, files: &str) -> Result<String, Fail> {
    let mut folder = folder_of(alloc, files, "none", 0)?;
    let case = Case::read(alloc, "usual SPY.minute 07 07 0")?;
    let second = key_of(kind_of("AAPL.minute")?, 7, 0, false);
    let first = case.key(false);
    let window = case.window();
    let mut pool = SerialPool::new(alloc, &mut folder, window, case.hours)?;
    let out = merged(alloc, &mut pool, first, second, FeedNo(9))?;
    Ok(arrivals_text(alloc, &out)?)
}

#[test]
fn merges_by_ends_and_by_feeds(rt: HostRuntime) -> Result<(), Fail> {
    check(rt.alloc(), SCRIPTS, scripts)?;
    check(rt.alloc(), FILES, files)
}
