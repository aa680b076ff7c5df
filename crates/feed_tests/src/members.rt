use crate::selection::spelled;
use lean_fixed::Symbol;
use lean_items::FeedNo;
use std::alloc::Global;
use std::test::Fail;
use test_cases::cases::{compare, none, parts_of};
use universe_state::{ChooseRefusal, Universe};

// SPY is listed, AAA is chosen on the first day and BBB on the second; AAA leaves and comes back.
const CALLS: &str = "\
count = 0
list SPY 1 = done
count = 1
feed SPY = 1
feed AAA = none
choose AAA SPY = AAA
join AAA 2 = done
marked SPY = false
marked AAA = false
choose BBB = BBB
join BBB 3 = done
count = 3
marked SPY = false
marked AAA = true
marked BBB = false
feed AAA = 2
choose AAA BBB = none
marked AAA = false
choose BBB BBB CCC CCC = CCC
marked AAA = true
leave AAA = done
count = 2
feed AAA = none
marked AAA = false
leave AAA = done
choose AAA = AAA
join AAA 4 = done
feed AAA = 4
marked AAA = false
marked BBB = true
choose = none
marked SPY = false
marked AAA = true
";

fn symbol_of(text: &str) -> Result<Symbol, Fail> {
    Ok(Symbol::read(text.as_bytes()).ok_or("no symbol")?)
}

fn chosen(alloc: Global, universe: &mut Universe, symbols: &[Symbol]) -> Result<String, Fail> {
    match universe.choose(symbols) {
        Ok(added) => spelled(alloc, &added),
        Err(ChooseRefusal::TooMany(first)) => {
            let first = spelled(alloc, &first)?;
            Ok(format!(in alloc; "too many after {first}")?)
        }
        Err(ChooseRefusal::NoMemory) => Err(Fail::from("no memory")),
    }
}

fn called(alloc: Global, universe: &mut Universe, call: &str) -> Result<String, Fail> {
    let mut words = call.split_whitespace();
    let name = words.next().ok_or("no call")?;
    if name == "choose" {
        let mut symbols = Vec::new(alloc);
        for word in words {
            symbols.push(symbol_of(word)?)?;
        }
        return chosen(alloc, universe, &symbols);
    }
    if name == "count" {
        return Ok(format!(in alloc; "{}", universe.len())?);
    }
    let symbol = symbol_of(words.next().ok_or("no symbol")?)?;
    if name == "marked" {
        return Ok(format!(in alloc; "{}", universe.is_marked(symbol))?);
    }
    if name == "feed" {
        return match universe.feed_of(symbol) {
            Some(feed) => Ok(format!(in alloc; "{}", feed.0)?),
            None => none(alloc),
        };
    }
    if name == "leave" {
        universe.leave(symbol);
    } else {
        let feed = FeedNo(words.next().ok_or("no feed")?.parse::<u64>()?);
        if name == "list" {
            universe.list(symbol, feed)?;
        } else {
            universe.join(symbol, feed)?;
        }
    }
    Ok(String::from_str(alloc, "done")?)
}

#[test]
fn keeps_the_active_securities(rt: HostRuntime) -> Result<(), Fail> {
    let mut universe = Universe::new(rt.alloc());
    for line in CALLS.lines() {
        let (call, wanted) = parts_of(line)?;
        let answer = called(rt.alloc(), &mut universe, call)?;
        compare(rt.alloc(), call, &answer, wanted)?;
    }
    Ok(())
}

#[test]
fn refuses_security_257(rt: HostRuntime) -> Result<(), Fail> {
    let alloc = rt.alloc();
    let mut universe = Universe::new(alloc);
    for number in 0..254u64 {
        let name = format!(in alloc; "S{number}")?;
        universe.join(symbol_of(name.as_str())?, FeedNo(number))?;
    }
    let three = [symbol_of("AAA")?, symbol_of("BBB")?, symbol_of("CCC")?];
    assert_eq!(rt;
        chosen(alloc, &mut universe, &three)?.as_str(),
        "too many after AAA BBB"
    );
    assert!(rt; !universe.is_marked(symbol_of("S0")?));
    assert_eq!(rt;
        chosen(alloc, &mut universe, &three[..2])?.as_str(),
        "AAA BBB"
    );
    assert!(rt; universe.is_marked(symbol_of("S0")?));
    universe.join(three[0], FeedNo(254))?;
    universe.join(three[1], FeedNo(255))?;
    assert_eq!(rt;
        chosen(alloc, &mut universe, &three)?.as_str(),
        "too many after none"
    );
    universe.leave(symbol_of("S0")?);
    assert_eq!(rt; chosen(alloc, &mut universe, &three)?.as_str(), "CCC");
    Ok(())
}
