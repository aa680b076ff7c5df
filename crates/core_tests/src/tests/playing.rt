//! A core whose commands a book handles, moment by moment.
ghost use Rattle.std.specs.Prelude.{IfOk, IfSome};
ghost use Rattle.lean_fixed.specs.Ranges.{IsPrintedMoment};
ghost use Rattle.clock_book.specs.Fitting.{IsFitting};
ghost use Rattle.rule_strategy.specs.Validity.{IsPlan};

use crate::tests::slices::symbol;
use backtest_core::{Core, Phase, Stop};
use exchange_hours::Hours;
use lean_fixed::{Moment, NoMemory, Symbol};
use lean_items::{Arrival, FeedKey, FeedKind, FeedNo};
use lean_orders::{Command, Heard, Reply, Ticket};
use order_book::Book;
use rule_strategy::Plan;
use std::alloc::Global;
use std::sync::Arc;
use std::test::Fail;
use test_words::HOURS;
use test_words::plans::file_of;

/// A core and its book. The number of the feed that was named last is kept; 0 is that of the coarse rows.
#[derive(Drop)]
pub struct Game {
    pub core: Core,
    pub book: Book,
    pub feeds: u64,
}

/// A core of a plan in short and its book, before the first moment. What the plan lists has its feeds.
pub fn begin(alloc: Global, plan: &str) -> Result<Game, Fail> {
    begin_file(alloc, &file_of(alloc, plan)?)
}

fn begin_file(alloc: Global, file: &str) -> Result<Game, Fail> {
    let mut game = unnamed(alloc, file)?;
    for listed in file.split("[[securities]]\nsymbol = \"").skip(1) {
        name_listed(&mut game, listed)?;
    }
    Ok(game)
}

// A security that a plan lists, up to its quotation mark, gets its feed.
fn name_listed(game: &mut Game, listed: &str) -> Result<(), Fail> {
    let word = listed.split('"').next().ok_or("a symbol")?;
    name(game, symbol(word)?)?;
    Ok(())
}

// A core of a plan and its book, before any feed has its number.
fn unnamed(alloc: Global, plan: &str) -> Result<Game, Fail> {
    match Plan::read(alloc, plan.as_bytes()) {
        Ok(plan) => game_of(alloc, plan),
        Err(_) => Err(Fail::from("a plan")),
    }
}

fn game_of(alloc: Global, plan: Plan) -> Result<Game, Fail>
    requires { IsPlan plan }
{
    let book = Book::new(alloc, plan.cash, plan.costs, plan.leverage, hours(alloc)?);
    let core = Core::begin(alloc, plan, hours(alloc)?)?;
    Ok(Game {
        core,
        book,
        feeds: 0,
    })
}

fn hours(alloc: Global) -> Result<Arc<Hours>, Fail> {
    let hours = Hours::read(alloc, HOURS.as_bytes())?;
    Ok(Arc::new(alloc, hours)?)
}

/// A security gets the next number of a feed.
pub fn name(game: &mut Game, symbol: Symbol) -> Result<FeedNo, Fail> {
    game.feeds = game.feeds.saturating_add(1);
    let feed = FeedNo(game.feeds);
    game.core.named(symbol, feed)?;
    Ok(feed)
}

/// The symbol of a feed of bars.
pub fn symbol_of(key: &FeedKey) -> Result<Symbol, Fail> {
    match key.kind {
        FeedKind::Equity(symbol, _) => Ok(symbol),
        FeedKind::Coarse => Err(Fail::from("a feed of bars")),
    }
}

/// One moment up to its close: the slice, and then the phases. The answer is why it can't go on, if so.
pub fn trade(
    alloc: Global,
    game: &mut Game,
    at: Moment,
    slice: &[Arrival],
) -> Result<Option<Stop>, Fail>
    requires { IsPrintedMoment at.0 }
{
    match game.core.arrive(at, slice) {
        Err(stop) => Ok(Some(stop)),
        Ok(()) => trade_all(alloc, game),
    }
}

fn trade_all(alloc: Global, game: &mut Game) -> Result<Option<Stop>, Fail> {
    for phase in [Phase::Prices, Phase::Rules, Phase::Close] {
        if let Some(stop) = trade_in(alloc, game, phase)? {
            return Ok(Some(stop));
        }
    }
    Ok(None)
}

// All commands of a phase are handled, and then the replies are heard.
fn trade_in(alloc: Global, game: &mut Game, phase: Phase) -> Result<Option<Stop>, Fail> {
    let mut replies = Vec::new(alloc);
    let stop = handle_all(game, phase, &mut replies)?;
    for reply in &replies {
        hear(&mut game.core, *reply)?;
    }
    Ok(stop)
}

/// A core hears a reply.
pub fn hear(core: &mut Core, reply: Reply) -> Result<(), Fail> {
    let heard = Heard {
        ticket: Ticket(1),
        reply,
    };
    core.hear(&heard)?;
    Ok(())
}

fn handle_all(game: &mut Game, phase: Phase, out: &mut Vec<Reply>) -> Result<Option<Stop>, Fail> {
    for _ in 0..1000 {
        match next(&mut game.core, phase) {
            Err(stop) => return Ok(Some(stop)),
            Ok(None) => return Ok(None),
            Ok(Some(command)) => handle(&mut game.book, &command, out)?,
        }
    }
    Err(Fail::from("fewer commands"))
}

fn next(core: &mut Core, phase: Phase) -> Result<Option<Command>, Stop>
    ensures { IfOk result (λ command. IfSome command IsFitting) }
{
    core.next_command(phase)
}

fn handle(book: &mut Book, command: &Command, out: &mut Vec<Reply>) -> Result<(), Fail>
    requires { IsFitting command.now }
{
    if book.orders().len() >= 1_000_000 {
        return Err(Fail::from("fewer orders"));
    }
    match book.handle(command, out) {
        Ok(()) => Ok(()),
        Err(NoMemory) => Err(Fail::from("memory")),
    }
}
