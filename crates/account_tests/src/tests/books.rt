ghost use Rattle.std.specs.Prelude.{◌<◌, IfOk};
ghost use Rattle.lean_fixed.specs.Ranges.{IsMoment, IsStartingCash};
ghost use Rattle.trade_costs.specs.Fees.{IsCosts};
ghost use Rattle.clock_book.specs.Fitting.{IsFitting, IsPriceBar};

use crate::tests::cases::{number, price, symbol, within};
use exchange_hours::Hours;
use lean_fixed::{Moment, Money, NoMemory, Price, Shares, Symbol, laws};
use lean_orders::{Command, Kind, OrderEvent, PriceBar, Reply, Request, What};
use order_book::Book;
use std::alloc::Global;
use std::fmt::Write;
use std::str;
use std::sync::Arc;
use std::test::Fail;
use test_cases::cases::check;
use test_words::{HOURS, cause_word, kind_word};
use trade_costs::Costs;

// 00:00 of Monday, 2013-10-07, and the minute before it.
const MONDAY: i64 = 23_018_400;

const BEFORE: i64 = 23_018_399;

// Commands to a book of 10,000,000 units of cash, a fee of 1 unit a share, a slip of 2 and a leverage of 2, each with the minute
// since Monday 00:00. A mark is by a bar of the minute before, with the first, the greatest, the least and the last price; one
// that is repeated is not real. The answer is all replies, and then what the book has at the end.
const BOOKS: &str = "\
600 cancel 1; 600 market SPY 10; 600 market SPY 0; 600 update 1 100; 600 account = 1 - invalid unknown, done, 1 SPY invalid no-price, done, 2 SPY invalid quantity, done, 1 SPY invalid closed, done, cash 10000000 equity 10000000, done; orders 2 fills 0 fees 0 realised 0
601 mark SPY 100 100 98 100; 601 limit SPY 10 99; 601 match; 602 match; 602 mark SPY 100 100 98 100; 602 match; 602 market SPY -10; 602 account = done, 1 SPY submitted limit 10 99, done, done, done, done, 1 SPY filled 10 99 fee 10, done, 2 SPY submitted market -10 -, 2 SPY filled -10 98 fee 10, done, cash 9999970 equity 9999970, done; orders 2 fills 2 fees 20 realised -10
601 limit SPY 0; 601 limit SPY 1000000001; 601 limit SPY 1; 601 mark SPY 100 100 100 100; 601 limit SPY 1000000000; 601 limit SPY 1000000000 0; 601 stop SPY 1000000000 10000000001; 601 stop SPY -1000000000 10000000000; 601 stop SPY -1 10000000000; 601 open SPY 1 0 = 1 SPY invalid quantity, done, 2 SPY invalid quantity, done, 3 SPY invalid no-price, done, done, 4 SPY invalid price, done, 5 SPY invalid price, done, 6 SPY invalid price, done, 7 SPY invalid buying-power, done, 8 SPY submitted stop -1 10000000000, done, 9 SPY submitted open 1 -, done; orders 9 fills 0 fees 0 realised 0
601 mark SPY 100 100 100 100; 601 limit SPY 198019 100; 601 limit SPY 198020 100 = done, 1 SPY submitted limit 198019 100, done, 2 SPY invalid buying-power, done; orders 2 fills 0 fees 0 realised 0
601 mark SPY 100 100 100 100; 601 open SPY 10; 601 limit SPY 10 90; 601 update 3 95; 601 update 1 95; 601 update 2 0; 601 update 2 10000000001; 601 update 2 95; 601 cancel 2; 601 update 2 0; 601 cancel 2; 601 cancel 0; 601 update 0 95 = done, 1 SPY submitted open 10 -, done, 2 SPY submitted limit 10 90, done, 3 - invalid unknown, done, 1 SPY invalid price, done, 2 SPY invalid price, done, 2 SPY invalid price, done, 2 SPY updated 95, done, 2 SPY canceled, done, 2 SPY invalid closed, done, 2 SPY invalid closed, done, 0 - invalid unknown, done, 0 - invalid unknown, done; orders 2 fills 0 fees 0 realised 0
601 mark SPY 100 100 100 100; 601 market SPY 10; 601 cancel 1; 601 update 1 100 = done, 1 SPY submitted market 10 -, 1 SPY filled 10 102 fee 10, done, 1 SPY invalid closed, done, 1 SPY invalid closed, done; orders 1 fills 1 fees 10 realised 0
960 mark SPY 100 100 100 100; 960 market SPY 10; 960 match; 2011 mark SPY 110 120 100 115; 2011 match; 2011 account = done, 1 SPY submitted open 10 -, done, done, done, 1 SPY filled 10 112 fee 10, done, cash 9998870 equity 10000020, done; orders 1 fills 1 fees 10 realised 0
569 mark SPY 100 100 100 100; 569 market SPY 10; 571 open SPY 5; 571 mark SPY 110 110 110 110; 571 match; 2011 mark SPY 120 120 120 120; 2011 match = done, 1 SPY submitted open 10 -, done, 2 SPY submitted open 5 -, done, done, 1 SPY filled 10 112 fee 10, done, done, 2 SPY filled 5 122 fee 5, done; orders 2 fills 2 fees 15 realised 0
961 mark SPY 100 100 100 100; 961 limit SPY 10 99; 7801 mark SPY 90 90 90 90; 7801 match; 10651 mark SPY 98 98 98 98; 10651 match = done, 1 SPY submitted limit 10 99, done, done, done, done, 1 SPY filled 10 98 fee 10, done; orders 1 fills 1 fees 10 realised 0
601 mark SPY 100 100 100 100; 601 limit SPY 10 101; 601 limit SPY 20 99; 601 limit SPY 5 50; 602 mark SPY 100 103 98 102; 602 match; 602 match; 603 account = done, 1 SPY submitted limit 10 101, done, 2 SPY submitted limit 20 99, done, 3 SPY submitted limit 5 50, done, done, 1 SPY filled 10 101 fee 10, 2 SPY filled 20 99 fee 20, done, done, cash 9996980 equity 10000040, done; orders 3 fills 2 fees 30 realised 0
601 mark SPY 100 100 100 100; 602 mark SPY 90 90 90 90; 602 match; 602 limit SPY 10 99; 603 match; 603 repeat SPY 95 95 95 95; 603 match; 603 account; 603 market SPY 1 = done, done, done, 1 SPY submitted limit 10 99, done, done, done, done, cash 10000000 equity 10000000, done, 2 SPY submitted market 1 -, 2 SPY filled 1 97 fee 1, done; orders 2 fills 1 fees 1 realised 0
601 mark A 10 10 10 10; 601 mark B 20 20 20 20; 601 limit A 1 9; 601 limit B 1 25; 602 mark A 8 8 8 8; 602 repeat A 9 9 9 9; 602 mark B 22 22 22 22; 602 match = done, done, 1 A submitted limit 1 9, done, 2 B submitted limit 1 25, done, done, done, done, 1 A filled 1 8 fee 1, 2 B filled 1 22 fee 1, done; orders 2 fills 2 fees 2 realised 0
601 mark SPY 100 100 100 100; 601 market SPY 10; 601 stop SPY -10 95; 602 mark SPY 96 96 94 94; 602 match; 602 account = done, 1 SPY submitted market 10 -, 1 SPY filled 10 102 fee 10, done, 2 SPY submitted stop -10 95, done, done, 2 SPY filled -10 92 fee 10, done, cash 9999880 equity 9999880, done; orders 2 fills 2 fees 20 realised -100
601 mark SPY 100 100 100 100; 601 limit SPY 10 90; 601 match; 602 mark SPY 100 100 100 100; 602 update 1 101; 602 match = done, 1 SPY submitted limit 10 90, done, done, done, 1 SPY updated 101, done, 1 SPY filled 10 100 fee 10, done; orders 1 fills 1 fees 10 realised 0
601 mark SPY 100 100 100 100; 601 stop-limit SPY 10 102; 601 stop-limit SPY 10 102 0; 601 stop-limit SPY 10 0 101; 601 stop-limit SPY 10 102 10000000001; 601 stop-limit SPY 10 10000000001 101; 601 limit SPY 10 99 0; 601 update 6 98; 601 stop-limit SPY 10 10000000000 1; 601 update 7 0; 601 update 7 101 = done, 1 SPY invalid price, done, 2 SPY invalid price, done, 3 SPY invalid price, done, 4 SPY invalid price, done, 5 SPY invalid price, done, 6 SPY submitted limit 10 99, done, 6 SPY updated 98, done, 7 SPY submitted stop-limit 10 10000000000 1, done, 7 SPY invalid price, done, 7 SPY updated 101, done; orders 7 fills 0 fees 0 realised 0
601 mark SPY 100 100 100 100; 601 stop-limit SPY 10 100 120; 602 mark SPY 100 100 90 95; 602 match; 603 mark SPY 101 101 101 101; 602 stop-limit SPY 1 100 110; 603 stop-limit SPY 1 100 110; 603 match; 604 mark SPY 100 100 100 100; 604 match = done, 1 SPY submitted stop-limit 10 100 120, done, done, done, done, 2 SPY submitted stop-limit 1 100 110, done, 3 SPY submitted stop-limit 1 100 110, done, 1 SPY filled 10 101 fee 10, 2 SPY filled 1 101 fee 1, done, done, done; orders 3 fills 2 fees 11 realised 0
601 mark SPY 100 100 100 100; 601 stop-limit SPY 10 102 101; 602 mark SPY 101 103 100 102; 602 match; 602 update 1 200; 603 repeat SPY 90 90 90 90; 603 match; 604 mark SPY 102 102 100 100; 604 match = done, 1 SPY submitted stop-limit 10 102 101, done, done, done, 1 SPY updated 200, done, done, done, done, 1 SPY filled 10 101 fee 10, done; orders 1 fills 1 fees 10 realised 0
601 mark SPY 100 100 100 100; 601 stop-limit SPY -10 99 98; 602 mark SPY 99 99 97 97; 602 match; 602 cancel 1; 603 mark SPY 100 100 100 100; 603 match = done, 1 SPY submitted stop-limit -10 99 98, done, done, done, 1 SPY canceled, done, done, done; orders 1 fills 0 fees 0 realised 0
961 mark SPY 100 100 100 100; 961 stop-limit SPY 10 102 99; 7801 mark SPY 103 103 103 103; 7801 match; 10651 mark SPY 98 98 98 98; 10651 match = done, 1 SPY submitted stop-limit 10 102 99, done, done, done, done, done; orders 1 fills 0 fees 0 realised 0
";

// The same, to a book of 100,000,000 units of cash without costs, where a stop-limit order is triggered by one bar and filled
// by the next, and where one is triggered and filled by the same bar.
const FREE_BOOKS: &str = "\
601 mark SPY 1000000 1000000 1000000 1000000; 601 match; 601 market SPY 10; 601 stop-limit SPY 10 1020000 1015000; 602 mark SPY 1010000 1030000 1000000 1020000; 602 match; 603 mark SPY 1020000 1020000 1000000 1010000; 603 match; 960 account = done, done, 1 SPY submitted market 10 -, 1 SPY filled 10 1000000 fee 0, done, 2 SPY submitted stop-limit 10 1020000 1015000, done, done, done, done, 2 SPY filled 10 1015000 fee 0, done, cash 79850000 equity 100050000, done; orders 2 fills 2 fees 0 realised 0
601 mark SPY 1000000 1000000 1000000 1000000; 601 match; 601 stop-limit SPY -10 990000 0; 601 stop-limit SPY -10 990000 985000; 602 mark SPY 1000000 1000000 980000 990000; 602 match; 960 account = done, done, 1 SPY invalid price, done, 2 SPY submitted stop-limit -10 990000 985000, done, done, 2 SPY filled -10 985000 fee 0, done, cash 109850000 equity 99950000, done; orders 2 fills 1 fees 0 realised 0
";

// The word at a place of a command.
fn field(text: &str, place: usize) -> Option<&str> {
    text.split(' ').nth(place)
}

fn moment(text: &str) -> Result<Moment, Fail>
    ensures { IfOk result (λ at. IsMoment at.0) }
{
    Ok(Moment(MONDAY + within(field(text, 0), 1, 20_000)? as i64))
}

// The minute before a command's.
fn minute_before(text: &str) -> Result<Moment, Fail>
    ensures { IfOk result (λ at. IsMoment at.0) }
{
    Ok(Moment(BEFORE + within(field(text, 0), 1, 20_000)? as i64))
}

fn bar(text: &str, at: Moment, real: bool) -> Result<PriceBar, Fail>
    requires { IsMoment at.0 }
    ensures { IfOk result IsPriceBar }
{
    let start = minute_before(text)?;
    let opening = price(field(text, 3))?;
    let high = price(field(text, 4))?;
    let low = price(field(text, 5))?;
    let closing = price(field(text, 6))?;
    Ok(PriceBar {
        start,
        end: at,
        opening,
        high,
        low,
        closing,
        volume: Shares(1),
        real,
    })
}

fn mark(text: &str, at: Moment, real: bool) -> Result<Command, Fail>
    requires { IsMoment at.0 }
    ensures { IfOk result IsFitting }
{
    let symbol = symbol(field(text, 2))?;
    Ok(Command::Mark(at, symbol, bar(text, at, real)?))
}

// Any price, or none.
fn asked(text: Option<&str>) -> Result<Option<Price>, Fail> {
    match text {
        Some(_) => Ok(Some(Price(i64::try_from(number(text)?)?))),
        None => Ok(None),
    }
}

fn submit(text: &str, at: Moment, kind: Kind) -> Result<Command, Fail>
    requires { IsMoment at.0 }
    ensures { IfOk result IsFitting }
{
    let request = Request {
        symbol: symbol(field(text, 2))?,
        kind,
        quantity: Shares(i64::try_from(number(field(text, 3))?)?),
        price: asked(field(text, 4))?,
        limit: asked(field(text, 5))?,
    };
    Ok(Command::Submit(at, request))
}

fn id(text: &str) -> Result<u32, Fail> {
    Ok(within(field(text, 2), 0, 1_000)? as u32)
}

fn update(text: &str, at: Moment) -> Result<Command, Fail>
    requires { IsMoment at.0 }
    ensures { IfOk result IsFitting }
{
    let price = Price(i64::try_from(number(field(text, 3))?)?);
    Ok(Command::Update(at, id(text)?, price))
}

pub fn command(text: &str) -> Result<Command, Fail>
    ensures { IfOk result IsFitting }
{
    let at = moment(text)?;
    match field(text, 1) {
        Some("mark") => mark(text, at, true),
        Some("repeat") => mark(text, at, false),
        Some("match") => Ok(Command::Match(at)),
        Some("market") => submit(text, at, Kind::Market),
        Some("limit") => submit(text, at, Kind::Limit),
        Some("stop") => submit(text, at, Kind::Stop),
        Some("open") => submit(text, at, Kind::AtOpen),
        Some("stop-limit") => submit(text, at, Kind::StopLimit),
        Some("update") => update(text, at),
        Some("cancel") => Ok(Command::Cancel(at, id(text)?)),
        Some("account") => Ok(Command::Account(at)),
        _ => Err(Fail::from("a command")),
    }
}

pub fn handle(book: &mut Book, command: &Command, out: &mut Vec<Reply>) -> Result<(), Fail>
    requires { IsFitting command.now }
{
    if book.orders().len() >= 1_000_000 {
        return Err(Fail::from("too many orders"));
    }
    match book.handle(command, out) {
        Ok(()) => Ok(()),
        Err(NoMemory) => Err(Fail::from("memory")),
    }
}

fn say_symbol(symbol: Option<Symbol>, said: &mut String) -> Result<(), Fail> {
    match symbol {
        Some(symbol) => {
            laws::symbol_is_short(symbol);
            write!(said, " {}", str::from_utf8(symbol.bytes())?)?;
        }
        None => write!(said, " -")?,
    }
    Ok(())
}

fn say_price(price: Option<Price>, said: &mut String) -> Result<(), Fail> {
    match price {
        Some(price) => write!(said, " {}", price.0)?,
        None => write!(said, " -")?,
    }
    Ok(())
}

fn say_limit(limit: Option<Price>, said: &mut String) -> Result<(), Fail> {
    match limit {
        Some(limit) => write!(said, " {}", limit.0)?,
        None => {}
    }
    Ok(())
}

fn say_what(what: &What, said: &mut String) -> Result<(), Fail> {
    match what {
        What::Submitted(kind, quantity, price, limit) => {
            write!(said, " submitted {} {}", kind_word(*kind), quantity.0)?;
            say_price(*price, said)?;
            say_limit(*limit, said)?;
        }
        What::Updated(price) => write!(said, " updated {}", price.0)?,
        What::Filled(fill) => {
            let price = fill.price.0;
            write!(
                said,
                " filled {} {price} fee {}",
                fill.quantity.0, fill.fee.0
            )?;
        }
        What::Canceled => write!(said, " canceled")?,
        What::Invalid(cause) => write!(said, " invalid {}", cause_word(*cause))?,
    }
    Ok(())
}

fn say_event(event: &OrderEvent, said: &mut String) -> Result<(), Fail> {
    write!(said, "{}", event.id)?;
    say_symbol(event.symbol, said)?;
    say_what(&event.what, said)
}

fn say_reply(reply: &Reply, said: &mut String) -> Result<(), Fail> {
    match reply {
        Reply::Event(event) => say_event(event, said),
        Reply::Account(cash, equity) => {
            write!(said, "cash {} equity {}", cash.0, equity.0)?;
            Ok(())
        }
        Reply::Done => {
            write!(said, "done")?;
            Ok(())
        }
    }
}

fn say_replies(replies: &[Reply], said: &mut String) -> Result<(), Fail> {
    for place in 0..replies.len() {
        if place > 0 {
            write!(said, ", ")?;
        }
        say_reply(&replies[place], said)?;
    }
    Ok(())
}

fn say_book(book: &Book, said: &mut String) -> Result<(), Fail> {
    let orders = book.orders().len();
    let fills = book.fills().len();
    let fees = book.portfolio().fees().0;
    let realised = book.portfolio().realised().0;
    write!(
        said,
        "; orders {orders} fills {fills} fees {fees} realised {realised}"
    )?;
    Ok(())
}

fn new_book(alloc: Global, cash: Money, costs: Costs) -> Result<Book, Fail>
    requires cash { IsStartingCash cash.0 }
    requires costs { IsCosts costs }
{
    let hours = match Hours::read(alloc, HOURS.as_bytes()) {
        Ok(hours) => Arc::new(alloc, hours)?,
        Err(_) => return Err(Fail::from("hours")),
    };
    Ok(Book::new(alloc, cash, costs, 2, hours))
}

// A book of 10,000,000 units of cash, a fee of 1 unit a share, and a slip of 2.
pub fn one_a_share(alloc: Global) -> Result<Book, Fail> {
    let costs = Costs {
        per_share: Money(1),
        least: Money(0),
        slip: 2,
    };
    new_book(alloc, Money(10_000_000), costs)
}

fn replies_of(alloc: Global, text: &str) -> Result<String, Fail> {
    replies_by(alloc, one_a_share(alloc)?, text)
}

fn free_replies_of(alloc: Global, text: &str) -> Result<String, Fail> {
    let costs = Costs {
        per_share: Money(0),
        least: Money(0),
        slip: 0,
    };
    replies_by(alloc, new_book(alloc, Money(100_000_000), costs)?, text)
}

fn replies_by(alloc: Global, book: Book, text: &str) -> Result<String, Fail> {
    let mut book = book;
    let mut replies = Vec::new(alloc);
    for text in text.split("; ") {
        handle(&mut book, &command(text)?, &mut replies)?;
    }
    let mut said = String::new(alloc);
    say_replies(&replies, &mut said)?;
    say_book(&book, &mut said)?;
    Ok(said)
}

#[test]
fn books(rt: HostRuntime) -> Result<(), Fail> {
    check(rt.alloc(), BOOKS, replies_of)
}

#[test]
fn free_books(rt: HostRuntime) -> Result<(), Fail> {
    check(rt.alloc(), FREE_BOOKS, free_replies_of)
}
