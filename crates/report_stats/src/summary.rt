ghost use Rattle.std.specs.Prelude.{◌≡◌, pos, not, ◌++◌, ◌∷◌, [], ℤ, ◌-ℤ◌, List, OnOk, OnErr, IfOk, length, filter, flat_map};
ghost use Rattle.std.specs.Int.{int_max};
ghost use Rattle.std.specs.Ordering.{int_eq};
ghost use Rattle.lean_orders.specs.declared.event.Fill.{Fill};
ghost use Rattle.portfolio.specs.Sums.{Mark, position};
ghost use Rattle.portfolio.specs.Stands.{StandsFor as AccountStands};
ghost use Rattle.clock_book.specs.Books.{is_live};
ghost use Rattle.lean_fixed.specs.Ranges.{IsMoney};
ghost use Rattle.clock_book.specs.Books as clock;
ghost use Rattle.order_book.specs.Stands as kept;
ghost use Rattle.clock_run.specs.Summary.{drawdown, summary, held_symbols};
ghost use Rattle.report_stats.specs.Stands.{StandsFor};
ghost use Rattle.report_stats.specs.Pieces.{account_lines, line_of};

use crate::Stats;
use crate::text::{append_amount, append_counts, append_holding};
use lean_fixed::{Money, NoMemory, Price, Symbol};
use lean_orders::{Order, OrderState};
use order_book::Book;
use portfolio::Portfolio;
use std::alloc::Global;
use std::collections::BTreeSet;

impl Stats {
    /// The statistics of a backtest that starts with this cash, before its first close line.
    pub fn new(cash: Money) -> Stats
        requires { IsMoney cash.0 }
        ensures { StandsFor result cash.0 [] }
    {
        Stats {
            start: cash,
            peak: cash,
            drawdown: Money(0),
        }
    }

    /// Tells the equity of the next close line.
    pub fn close(&mut self, equity: Money)
        requires { IsMoney equity.0 }
        ensures { (start : ℤ) (equities : List ℤ) → StandsFor self.old start equities
            → StandsFor self.new start (equities ++ equity.0 ∷ []) }
    {
        *self = Stats {
            start: self.start,
            peak: greater(self.peak, equity),
            drawdown: greater(self.drawdown, below(self.peak, equity)),
        };
    }

    /// The greatest amount by which the equity of a close line was below the greatest of the starting cash and the equities
    /// before it, and 0 where there is none.
    pub fn drawdown(&self) -> Money
        ensures { (start : ℤ) (equities : List ℤ) → StandsFor self.now start equities
            → result.0 ≡ drawdown start equities }
    {
        self.drawdown
    }

    /// Appends the summary of a book. At `NoMemory` the vector is as it was.
    pub fn summary(&self, alloc: Global, book: &Book, out: &mut Vec<u8>) -> Result<(), NoMemory>
        ensures ok { OnOk result ((b : clock.Book) (start : ℤ) (equities : List ℤ)
            → kept.StandsFor book.now b → StandsFor self.now start equities
            → out.new.items ≡ out.old.items ++ summary start b equities) }
        ensures err { OnErr result (out.new.items ≡ out.old.items) }
    {
        let text = self.text(alloc, book)?;
        match out.extend_from_slice(&text) {
            Ok(()) => Ok(()),
            Err(_) => Err(NoMemory),
        }
    }

    #[tactic(auto, unfolding(clock_run::specs::Summary::summary))]
    fn text(&self, alloc: Global, book: &Book) -> Result<Vec<u8>, NoMemory>
        ensures { IfOk result (λ text. (b : clock.Book) (start : ℤ) (equities : List ℤ)
            → kept.StandsFor book.now b → StandsFor self.now start equities
            → text.items ≡ summary start b equities) }
    {
        let mut text = Vec::new(alloc);
        let live = live_orders(book.orders());
        append_counts(
            book.orders().len() as u64,
            book.fills().len() as u64,
            live,
            &mut text,
        )?;
        append_account(book.portfolio(), self.drawdown, &mut text)?;
        let held = held_symbols(alloc, book)?;
        append_holdings(&held, book.portfolio(), &mut text)?;
        Ok(text)
    }
}

fn greater(first: Money, second: Money) -> Money
    ensures { result.0 ≡ int_max first.0 second.0 }
{
    if second.0 > first.0 { second } else { first }
}

// By how much an equity lies below a peak.
fn below(peak: Money, equity: Money) -> Money
    requires peak { IsMoney peak.0 }
    requires equity { IsMoney equity.0 }
    ensures { result.0 ≡ (peak.0 -ℤ equity.0) }
{
    Money(peak.0 - equity.0)
}

// How many orders are live.
fn live_orders(orders: &[Order]) -> u64
    ensures { result ≡ length (filter (λ order. is_live order.state) orders.now) }
{
    let mut live = 0;
    for order in orders {
        if is_live(order.state) {
            live += 1;
        }
    }
    live
}

fn is_live(state: OrderState) -> bool
    ensures { result ≡ is_live state }
{
    match state {
        OrderState::Live => true,
        OrderState::Filled => false,
        OrderState::Canceled => false,
        OrderState::Refused => false,
    }
}

// The sums of the account, and the drawdown.
fn append_account(account: &Portfolio, drawdown: Money, out: &mut Vec<u8>) -> Result<(), NoMemory>
    ensures { OnOk result ((start : ℤ) (fills : List Fill) (marks : List Mark) → AccountStands account.now start fills marks
        → out.new.items ≡ out.old.items ++ account_lines start fills marks drawdown.0) }
{
    append_amount(b"fees", account.fees(), out)?;
    append_amount(b"realised", account.realised(), out)?;
    append_amount(b"cash", account.cash(), out)?;
    append_amount(b"equity", account.equity(), out)?;
    append_amount(b"drawdown", drawdown, out)
}

// The symbols of which something is held.
fn held_symbols(alloc: Global, book: &Book) -> Result<BTreeSet<Symbol>, NoMemory>
    ensures { IfOk result (λ held. (b : clock.Book) → kept.StandsFor book.now b → held.keys ≡ held_symbols b) }
{
    let mut held = BTreeSet::new(alloc);
    for fill in book.fills() {
        if is_held(book.portfolio(), fill.symbol) {
            held.insert(fill.symbol)?;
        }
    }
    Ok(held)
}

// Whether something is held of a symbol, or owed.
fn is_held(account: &Portfolio, symbol: Symbol) -> bool
    ensures { (start : ℤ) (fills : List Fill) (marks : List Mark) → AccountStands account.now start fills marks
        → result ≡ not (int_eq (position symbol fills) (pos 0)) }
{
    account.position(symbol).0 != 0
}

// A line for each of some symbols.
fn append_holdings(
    held: &BTreeSet<Symbol>,
    account: &Portfolio,
    out: &mut Vec<u8>,
) -> Result<(), NoMemory>
    ensures { OnOk result ((start : ℤ) (fills : List Fill) (marks : List Mark) → AccountStands account.now start fills marks
        → out.new.items ≡ out.old.items ++ flat_map (line_of fills marks) held.now.keys) }
{
    for symbol in held {
        append_held(*symbol, account, out)?;
    }
    Ok(())
}

fn append_held(symbol: Symbol, account: &Portfolio, out: &mut Vec<u8>) -> Result<(), NoMemory>
    ensures { OnOk result ((start : ℤ) (fills : List Fill) (marks : List Mark) → AccountStands account.now start fills marks
        → out.new.items ≡ out.old.items ++ line_of fills marks symbol) }
{
    let price = match account.price(symbol) {
        Some(price) => price,
        None => Price(0),
    };
    append_holding(&symbol, account.position(symbol), price, out)
}
