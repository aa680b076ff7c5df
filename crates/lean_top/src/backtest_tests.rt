//! The words of backtests, and the refusals of the files that they read first, through both top calls.
use crate::tests::{check_tapes, check_writes, failing_folder, offline};
use lean_io::MemFolder;
use std::alloc::Global;
use std::collections::BTreeMap;
use std::test::Fail;
use test_cases::cases::{compare, parts_of};

// Words that are taken find no algorithm file.
const WORDS: &str = "\
backtest a.toml, daily/spy: = 2 algorithm missing file;
backtest a.toml --workers 8, daily/spy: = 2 algorithm missing file;
backtest --workers 8 a.toml, daily/spy: = 2 algorithm missing file;
backtest a.toml --workers=8, daily/spy: = 2 algorithm missing file;
backtest --workers=8 a.toml, daily/spy: = 2 algorithm missing file;
backtest a.toml --workers 0, daily/spy: = 2 algorithm missing file;
backtest a.toml --workers=64, daily/spy: = 2 algorithm missing file;
backtest --workers 08 a.toml, daily/spy: = 2 algorithm missing file;
backtest workers --workers 1, daily/spy: = 2 algorithm missing file;
backtest 8 --workers 8, daily/spy: = 2 algorithm missing file;
backtest backtest, daily/spy: = 2 algorithm missing file;
backtest, plan:x daily/spy: = 1 usage;
backtest , plan:x daily/spy: = 1 usage;
backtest a.toml b.toml, plan:x daily/spy: = 1 usage;
backtest a.toml -x, plan:x daily/spy: = 1 usage;
backtest -x, plan:x daily/spy: = 1 usage;
backtest -, plan:x daily/spy: = 1 usage;
backtest --help, plan:x daily/spy: = 1 usage;
backtest --workers a.toml, plan:x daily/spy: = 1 usage;
backtest a.toml --workers, plan:x daily/spy: = 1 usage;
backtest a.toml --workers=, plan:x daily/spy: = 1 usage;
backtest a.toml --workers 65, plan:x daily/spy: = 1 usage;
backtest a.toml --workers=65, plan:x daily/spy: = 1 usage;
backtest a.toml --workers 008, plan:x daily/spy: = 1 usage;
backtest a.toml --workers -8, plan:x daily/spy: = 1 usage;
backtest a.toml --workers +8, plan:x daily/spy: = 1 usage;
backtest a.toml --workers 8 --workers 8, plan:x daily/spy: = 1 usage;
backtest --workers=8 a.toml --workers=8, plan:x daily/spy: = 1 usage;
backtest --workers=8 --workers=8, plan:x daily/spy: = 1 usage;
backtest --workers 8, plan:x daily/spy: = 1 usage;
backtest --workers=8, plan:x daily/spy: = 1 usage;
backtest --workers 8 -x, plan:x daily/spy: = 1 usage;
backtest --worker 8 a.toml, plan:x daily/spy: = 1 usage;
backtest --workers 8 a.toml b.toml, plan:x daily/spy: = 1 usage;
Backtest a.toml, plan:x daily/spy: = 1 usage;
--workers 8 backtest a.toml, plan:x daily/spy: = 1 usage;
";

#[test]
fn words_of_backtests(rt: HostRuntime) -> Result<(), Fail> {
    check_tapes(&rt, WORDS)
}

// The first fault of the algorithm file is told, also where the hours file is missing.
const REFUSALS: &str = r#"
backtest a.toml, plan:x = 2 algorithm toml;
backtest a.toml, hours:usual plan:start='20131007';end='20131008' = 2 algorithm missing cash;
backtest a.toml, hours:usual plan:zone=1 = 2 algorithm unknown zone;
backtest a.toml, hours:usual plan:start=1 = 2 algorithm value start;
backtest a.toml, hours:usual plan:start='19700102';end='20241005' = 2 algorithm limit end;
backtest a.toml, hours:usual plan:aaaaaaaaaabbbbbbbbbbccccccccccddddddddddeeeeeeeeeeffffffffffgggggggggg=1 = 2 algorithm unknown aaaaaaaaaabbbbbbbbbbccccccccccddddddddddeeeeeeeeeeffffffffffgggg;
backtest a.toml, hours:usual plan:"a_\u001fé~\u007f"=1 = 2 algorithm unknown a ???~?;
backtest a.toml, hours:usual plan:start='20131007';end='20131008';cash='1';[[rules]];when='close_>';do='cancel' = 2 algorithm rule 1 when syntax 7;
backtest a.toml, hours:usual plan:start='20131007';end='20131008';cash='1';[[rules]];when='close_+_(1_>_2)';do='cancel' = 2 algorithm rule 1 when type 6;
backtest a.toml, hours:usual plan:start='20131007';end='20131008';cash='1';[[rules]];when='close';do='cancel' = 2 algorithm rule 1 when type 0;
backtest a.toml, hours:usual plan:start='20131007';end='20131008';cash='1';[[rules]];when='close_>_average(4)';do='cancel' = 2 algorithm rule 1 when token 8;
backtest a.toml, hours:usual plan:start='20131007';end='20131008';cash='1';[[rules]];when='1>0';do='order';kind='market';quantity='sma(0)' = 2 algorithm rule 1 quantity number 4;
backtest a.toml, hours:usual plan:start='20131007';end='20131008';cash='1';[[rules]];when='1>0';do='cancel';[[rules]];when='1>0';do='update';price='--------------------------------(1)' = 2 algorithm rule 2 price depth 32;
backtest a.toml, hours:usual plan:start='20131007';end='20131008';cash='1';[[rules]];when='1>0';do='order';kind='stop-limit';quantity='1';price='1';limit='' = 2 algorithm rule 1 limit syntax 0;
backtest a.toml, hours:usual plan:start='20131007';end='20131008';cash='1';[[rules]];when='1>0';do='order';kind='stop-limit';quantity='1';price='1' = 2 algorithm missing limit;
backtest a.toml, plan:start='20131007';end='20131008';cash='1' = 2 hours missing file;
backtest a.toml --workers 8, hours:{} plan:start='20131007';end='20131008';cash='1' = 2 hours no-entry;
"#;

#[test]
fn refusals_of_backtests(rt: HostRuntime) -> Result<(), Fail> {
    check_tapes(&rt, REFUSALS.trim_start())
}

// The file of so many bytes.
fn answer_of_length(alloc: Global, length: usize) -> Result<String, Fail> {
    let mut bytes = Vec::new(alloc);
    bytes.resize(length, b'#')?;
    let mut map = BTreeMap::new(alloc);
    let _ = map.insert(String::from_str(alloc, "a.toml")?, bytes)?;
    let mut folder = MemFolder::new(alloc, map, Vec::new(alloc))?;
    offline(alloc, "backtest a.toml", &mut folder, 65_536)
}

#[test]
fn largest_algorithm_file(rt: HostRuntime) -> Result<(), Fail> {
    let alloc = rt.alloc();
    let most = answer_of_length(alloc, 1_048_576)?;
    compare(alloc, "most", &most, "2 algorithm missing start;")?;
    let more = answer_of_length(alloc, 1_048_577)?;
    compare(alloc, "more", &more, "2 algorithm large;")
}

// The call of a file that fails: the opening is call 0. Nothing is printed.
const FAILING_READS: &str = "\
plan 0 = 4 
plan 1 = 4 
hours 0 = 4 
hours 1 = 4 
";

const FILES: &str = "hours:usual plan:start='20131007';end='20131008';cash='1'";

#[test]
fn failing_reads_of_backtests(rt: HostRuntime) -> Result<(), Fail> {
    let alloc = rt.alloc();
    for case in FAILING_READS.lines() {
        let (input, wanted) = parts_of(case)?;
        let (name, call) = input.split_once(' ').ok_or("no number")?;
        let mut folder = failing_folder(alloc, FILES, name, call)?;
        compare(
            alloc,
            input,
            &offline(alloc, "backtest a.toml", &mut folder, 65_536)?,
            wanted,
        )?;
    }
    Ok(())
}

#[test]
fn failing_writes_of_refusals(rt: HostRuntime) -> Result<(), Fail> {
    check_writes(
        rt.alloc(),
        "backtest a.toml",
        "plan:",
        "algorithm missing start\n",
        2,
    )
}
