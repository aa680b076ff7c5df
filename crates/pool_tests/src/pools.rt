//! A feed and a pool in memory, and a pool over a folder on one thread: what is taken of their feeds, and what is left when feeds
//! are removed.
ghost use Rattle.std.specs.Prelude.{◌≡◌};
ghost use Rattle.lean_fixed.specs.Ranges.{IsMoment};

use crate::folders::{Case, folder_of, key_of, kind_of};
use crate::said::items_text;
use crate::scripts::script_of;
use crate::taking::{take_all, take_feed};
use crate::{MemFeed, MemPool};
use feed_pool::SerialPool;
use lean_fixed::NoMemory;
use lean_items::{FeedKey, FeedKind, FeedNo, Item, Pool};
use std::alloc::Global;
use std::test::Fail;
use test_cases::cases::check;

// What a feed in memory gives, and then what the feeds of a pool in memory give from the first and from the second item on.
const SCRIPTS: &str = "\
1001 1002 = 07.1001 5 v1, 07.1002 5 v1, end; the same; 07.1002 5 v1, end
1001 bad 1002 = 07.1001 5 v1, bad 15985:9 fields; the same; bad 15985:9 fields
1001 faulted 1002 = 07.1001 5 v1, faulted; the same; faulted
1001 end 1002 = 07.1001 5 v1, end; the same; end
A B 1001 = 07.0000 A 10000 2 3, 07.0000 B 10000 2 3, 07.1001 5 v1, end; the same; 07.0000 B 10000 2 3, 07.1001 5 v1, end
end = end; the same; end
";

fn fed(alloc: Global, words: &str) -> Result<String, Fail> {
    let mut feed = MemFeed::new(script_of(alloc, words)?);
    let items = take_feed(alloc, &mut feed)?;
    Ok(items_text(alloc, &items)?)
}

fn pooled(alloc: Global, words: &str, fill: bool) -> Result<String, Fail> {
    let script = script_of(alloc, words)?;
    let mut faults = 0;
    let mut pool = MemPool::new(alloc, script, &mut faults);
    let items = take_all(alloc, &mut pool, key_of(FeedKind::Coarse, 7, 0, fill))?;
    Ok(items_text(alloc, &items)?)
}

fn given(alloc: Global, words: &str) -> Result<String, Fail> {
    let whole = fed(alloc, words)?;
    let mut said = String::from_str(alloc, whole.as_str())?;
    let first = pooled(alloc, words, true)?;
    said.push_str("; ")?;
    said.push_str(if first == whole {
        "the same"
    } else {
        first.as_str()
    })?;
    said.push_str("; ")?;
    said.push_str(pooled(alloc, words, false)?.as_str())?;
    Ok(said)
}

#[test]
fn takes_the_items_of_scripts(rt: HostRuntime) -> Result<(), Fail> {
    check(rt.alloc(), SCRIPTS, given)
}

// Takes an item of each of two feeds, removes the first one twice and one that was never added, and takes an item of a third
// feed, which has the key of the first. An end stands behind these items where the numbers of the feeds are 0, 1 and 2, and
// three were added.
fn story<P: Pool>(
    alloc: Global,
    pool: &mut P,
    first: FeedKey,
    second: FeedKey,
) -> Result<Vec<Item>, NoMemory>
    requires added { P.added pool.old ≡ 0 }
    requires first { IsMoment first.start.0 }
    requires second { IsMoment second.start.0 }
{
    let mut items = Vec::new(alloc);
    let one = pool.add(alloc, *&first)?;
    let two = pool.add(alloc, second)?;
    items.push(pool.take(*&one))?;
    items.push(pool.take(*&two))?;
    pool.remove(*&one);
    pool.remove(*&one);
    pool.remove(FeedNo(99));
    let three = pool.add(alloc, first)?;
    items.push(pool.take(*&three))?;
    let finished = pool.finish();
    if one == FeedNo(0) && two == FeedNo(1) && three == FeedNo(2) && finished.feeds == 3 {
        items.push(Item::End)?;
    }
    Ok(items)
}

fn story_of_script(alloc: Global) -> Result<String, Fail> {
    let script = script_of(alloc, "1001 1002 1003")?;
    let mut faults = 0;
    let mut pool = MemPool::new(alloc, script, &mut faults);
    let first = key_of(FeedKind::Coarse, 7, 0, true);
    let second = key_of(FeedKind::Coarse, 7, 0, false);
    let items = story(alloc, &mut pool, first, second)?;
    Ok(items_text(alloc, &items)?)
}

fn story_of_folder(alloc: Global) -> Result<String, Fail> {
    let files = "SPY.07:36000000,5,5,5,5,1;36060000,6,6,6,6,1; | AAPL.07:36120000,7,7,7,7,1;";
    let mut folder = folder_of(alloc, files, "none", 0)?;
    let case = Case::read(alloc, "usual SPY.minute 07 07 0")?;
    let second = key_of(kind_of("AAPL.minute")?, 7, 0, false);
    let first = case.key(false);
    let window = case.window();
    let mut pool = SerialPool::new(alloc, &mut folder, window, case.hours)?;
    let items = story(alloc, &mut pool, first, second)?;
    Ok(items_text(alloc, &items)?)
}

#[test]
fn removes_feeds_and_adds_more(rt: HostRuntime) -> Result<(), Fail> {
    let of_script = story_of_script(rt.alloc())?;
    assert_eq!(rt;
        of_script.as_str(),
        "07.1001 5 v1, 07.1002 5 v1, 07.1001 5 v1, end"
    );
    let of_folder = story_of_folder(rt.alloc())?;
    assert_eq!(rt;
        of_folder.as_str(),
        "07.1001 5 v1, 07.1003 7 v1, 07.1001 5 v1, end"
    );
    Ok(())
}
