//! Commands to a new book through a desk: what is heard of them, ticket by ticket.
ghost use Rattle.std.specs.Prelude.{◌≡◌, ◌≤◌, false, vec_len, IfOk};
ghost use Rattle.std.specs.List.{All};
ghost use Rattle.clock_book.specs.Books.{Book as ClockBook};
ghost use Rattle.clock_book.specs.Fitting.{IsFitting};
ghost use Rattle.order_book.specs.Kept.{order_count};
ghost use Rattle.order_book.specs.Stands.{StandsFor};
ghost use Rattle.desk_tests.specs.Calls.{orders_of};

use crate::serving::serve;
use exchange_hours::Hours;
use lean_fixed::{Moment, Money, NoMemory, Price, Shares, Symbol, laws};
use lean_orders::{Command, Heard, Kind, OrderEvent, PriceBar, Reply, Request, What};
use order_book::Book;
use order_desk::{Desk, NoGate, SerialDesk, ThreadDesk};
use std::alloc::Global;
use std::fmt::Write;
use std::str;
use std::sync::{Arc, Wait};
use std::test::Fail;
use std::thread::Threads;
use test_words::{HOURS, cause_word};
use trade_costs::Costs;

// An unknown id, a symbol without a price, no quantity, and then an order that was refused, and the account.
const REFUSED: &str = "\
cancel 1
buy 10
buy 0
";

const CLOSED: &str = "\
update 1 100
account
";

const REFUSALS: &str = "\
1 order 1 - unknown
1 done
2 order 1 SPY no-price
2 done
3 order 2 SPY quantity
3 done
4 order 1 SPY closed
4 done
5 account 10000000 10000000
5 done
";

// A symbol with a price, a market order while the exchange is open, and the account.
const BOUGHT: &str = "\
mark 100
buy 10
";

const ASKED: &str = "\
account
";

const FILLS: &str = "\
1 done
2 order 1 SPY submitted 10
2 order 1 SPY filled 10 100
2 done
3 account 9999000 10000000
3 done
";

// Monday, 2013-10-07 10:00.
pub(crate) const MOMENT: i64 = 23_019_000;

fn number(text: Option<&str>) -> Result<u32, Fail> {
    Ok(text.ok_or("a number")?.parse::<u32>()?)
}

fn spider() -> Result<Symbol, Fail> {
    Ok(Symbol::read(b"SPY").ok_or("a symbol")?)
}

// A bar of one price at which the symbol is marked.
fn mark(price: u32) -> Result<Command, Fail>
    ensures { IfOk result IsFitting }
{
    if price == 0 {
        return Err(Fail::from("a price"));
    }
    let price = Price(price as i64);
    let bar = PriceBar {
        start: Moment(MOMENT - 1),
        end: Moment(MOMENT),
        opening: price,
        high: price,
        low: price,
        closing: price,
        volume: Shares(1),
        real: true,
    };
    Ok(Command::Mark(Moment(MOMENT), spider()?, bar))
}

fn buy(quantity: u32) -> Result<Command, Fail>
    ensures { IfOk result IsFitting }
{
    let request = Request {
        symbol: spider()?,
        kind: Kind::Market,
        quantity: Shares(quantity as i64),
        price: None,
        limit: None,
    };
    Ok(Command::Submit(Moment(MOMENT), request))
}

fn command(text: &str) -> Result<Command, Fail>
    ensures { IfOk result IsFitting }
{
    let mut words = text.split(' ');
    let word = words.next();
    if word == Some("mark") {
        mark(number(words.next())?)
    } else if word == Some("buy") {
        buy(number(words.next())?)
    } else if word == Some("update") {
        let id = number(words.next())?;
        let price = Price(number(words.next())? as i64);
        Ok(Command::Update(Moment(MOMENT), id, price))
    } else if word == Some("cancel") {
        Ok(Command::Cancel(Moment(MOMENT), number(words.next())?))
    } else {
        Ok(Command::Account(Moment(MOMENT)))
    }
}

// The commands of some lines, of which there are not too many.
fn commands(alloc: Global, lines: &str) -> Result<Vec<Command>, Fail>
    ensures fitting { IfOk result (λ commands. All IsFitting commands.items) }
    ensures few { IfOk result (λ commands. vec_len commands ≤ 1000) }
    ensures orders { IfOk result (λ commands. orders_of commands.items ≤ 1000) }
{
    let mut commands = Vec::new(alloc);
    'lines: for line in lines.lines() {
        if commands.len() >= 1000 {
            return Err(Fail::from("fewer commands"));
        }
        commands.push(command(line)?)?;
    }
    Ok(commands)
}

// A book with a cash of 10,000,000 units, without fees.
pub(crate) fn new_book(alloc: Global) -> Result<Book, Fail>
    ensures stands { IfOk result (λ book. (s : ClockBook) × StandsFor book s) }
    ensures count { IfOk result (λ book. order_count book ≡ 0) }
{
    let hours = Arc::new(alloc, Hours::read(alloc, HOURS.as_bytes())?)?;
    let costs = Costs {
        per_share: Money(0),
        least: Money(0),
        slip: 0,
    };
    Ok(Book::new(alloc, Money(10_000_000), costs, 1, hours))
}

fn say_what(what: &What, said: &mut String) -> Result<(), Fail> {
    match what {
        What::Submitted(_, quantity, _, _) => writeln!(said, "submitted {}", quantity.0)?,
        What::Updated(price) => writeln!(said, "updated {}", price.0)?,
        What::Filled(fill) => writeln!(said, "filled {} {}", fill.quantity.0, fill.price.0)?,
        What::Canceled => writeln!(said, "canceled")?,
        What::Invalid(cause) => writeln!(said, "{}", cause_word(*cause))?,
    }
    Ok(())
}

fn say_event(event: &OrderEvent, said: &mut String) -> Result<(), Fail> {
    let id = event.id;
    match event.symbol {
        None => write!(said, "order {id} - ")?,
        Some(symbol) => {
            laws::symbol_is_short(symbol);
            let name = str::from_utf8(symbol.bytes())?;
            write!(said, "order {id} {name} ")?;
        }
    }
    say_what(&event.what, said)
}

pub(crate) fn say(heard: &Heard, said: &mut String) -> Result<(), Fail> {
    write!(said, "{} ", heard.ticket.0)?;
    match &heard.reply {
        Reply::Event(event) => say_event(event, said)?,
        Reply::Account(cash, equity) => writeln!(said, "account {} {}", cash.0, equity.0)?,
        Reply::Done => writeln!(said, "done")?,
    }
    Ok(())
}

// What is heard of some commands through a new desk, and then of others.
fn heard_of<D: Desk + Drop>(
    alloc: Global,
    desk: D,
    first: &str,
    second: &str,
) -> Result<String, Fail>
    requires fed { D.starved desk ≡ false }
    requires submitted { D.submitted desk ≡ 0 }
    requires answered { D.answered desk ≡ 0 }
    requires orders { D.orders desk ≡ 0 }
{
    let first = commands(alloc, first)?;
    let second = commands(alloc, second)?;
    let outcome = serve(alloc, desk, first, second)?;
    let mut said = String::new(alloc);
    for heard in outcome.early.iter() {
        say(heard, &mut said)?;
    }
    for heard in outcome.late.iter() {
        say(heard, &mut said)?;
    }
    Ok(said)
}

fn heard(alloc: Global, first: &str, second: &str) -> Result<String, Fail> {
    let book = new_book(alloc)?;
    heard_of(alloc, SerialDesk::new(alloc, book), first, second)
}

// The same where a thread serves the book.
fn heard_afar<R: Threads + Wait + Copy + Send + 'static>(
    rt: &R,
    alloc: Global,
    first: &str,
    second: &str,
) -> Result<String, Fail> {
    let book = new_book(alloc)?;
    match ThreadDesk::new(rt, alloc, book, NoGate) {
        Ok(desk) => heard_of(alloc, desk, first, second),
        Err(NoMemory) => Err(Fail::from("memory")),
    }
}

#[test]
fn refusals(rt: HostRuntime) -> Result<(), Fail> {
    assert_eq!(rt; heard(rt.alloc(), REFUSED, CLOSED)?.as_str(), REFUSALS);
    Ok(())
}

#[test]
fn fills(rt: HostRuntime) -> Result<(), Fail> {
    assert_eq!(rt; heard(rt.alloc(), BOUGHT, ASKED)?.as_str(), FILLS);
    Ok(())
}

#[test]
fn refusals_of_a_thread(rt: HostRuntime) -> Result<(), Fail> {
    let said = heard_afar(&rt, rt.alloc(), REFUSED, CLOSED)?;
    assert_eq!(rt; said.as_str(), REFUSALS);
    Ok(())
}

#[test]
fn fills_of_a_thread(rt: HostRuntime) -> Result<(), Fail> {
    let said = heard_afar(&rt, rt.alloc(), BOUGHT, ASKED)?;
    assert_eq!(rt; said.as_str(), FILLS);
    Ok(())
}

// A mark, and orders by turns with accounts: more than the lanes hold at once.
fn many(alloc: Global) -> Result<String, Fail> {
    let mut lines = String::new(alloc);
    lines.push_str("mark 100\n")?;
    for _ in 0..300u32 {
        lines.push_str("buy 1\naccount\ncancel 7\n")?;
    }
    Ok(lines)
}

#[test]
fn more_than_the_lanes_hold(rt: HostRuntime) -> Result<(), Fail> {
    let lines = many(rt.alloc())?;
    let near = heard(rt.alloc(), lines.as_str(), ASKED)?;
    let far = heard_afar(&rt, rt.alloc(), lines.as_str(), ASKED)?;
    assert!(rt; near.len() > 10000);
    assert_eq!(rt; far.as_str(), near.as_str());
    Ok(())
}
