use crate::ledger::Ledger;
use crate::market::Market;
use crate::replies::say;
use exchange_hours::Hours;
use indexmap::IndexMap;
use lean_fixed::{Moment, Money, NoMemory};
use lean_orders::{Command, Fill, Order, Reply};
use portfolio::Portfolio;
use std::alloc::Global;
use std::marker::Model;
use std::sync::Arc;
use trade_costs::Costs;

/// The orders, the fills and the account of a backtest, after LEAN's topics "Order Management" and "Portfolio". Contracts
/// see what it keeps as a `Kept` and say for which books, with the lists of all marks, orders and fills, it stands.
#[derive(Drop)]
pub struct Book {
    pub(crate) market: Market,
    pub(crate) leverage: u32,
    pub(crate) ledger: Ledger,
    // The places of the orders that a match changes, by id: room that is used again.
    due: Vec<u32>,
}

impl Model for Book {
    ghost use Rattle.std.specs.Arc.{arc_value};
    ghost use Rattle.order_book.specs.Kept.{Kept};
    ghost use Rattle.order_book.specs.Resting.{IsKept};

    ghost Value = { Kept };

    ghost view = { λ b. record {
      costs = b.market.costs;
      leverage = b.leverage;
      hours = arc_value b.market.hours;
      account = b.ledger.portfolio;
      orders = b.ledger.orders.items;
      fills = b.ledger.fills.items;
      bars = b.market.bars.entries;
    } };

    ghost invariant = { λ b. IsKept (record {
      costs = b.market.costs;
      leverage = b.leverage;
      hours = arc_value b.market.hours;
      account = b.ledger.portfolio;
      orders = b.ledger.orders.items;
      fills = b.ledger.fills.items;
      bars = b.market.bars.entries;
    }) b.ledger.waiting.entries };
}

impl Book {
    ghost use Rattle.std.specs.Prelude.{◌≡◌, ◌+◌, ◌≤◌, List, ◌++◌, length, OnOk, OnErr};
    ghost use Rattle.std.specs.Arc.{arc_value};
    ghost use Rattle.lean_fixed.specs.Ranges.{IsStartingCash, IsLeverage};
    ghost use Rattle.lean_orders.specs.declared.desk.Reply.{Reply};
    ghost use Rattle.trade_costs.specs.Fees.{IsCosts};
    ghost use Rattle.portfolio.specs.Stands as account;
    ghost use Rattle.clock_book.specs.Books as clock;
    ghost use Rattle.clock_book.specs.Handled.{handled, handled_match};
    ghost use Rattle.order_book.specs.Serves.{Serves};
    ghost use Rattle.clock_book.specs.Fitting.{IsFitting, HasRoom, submits, most_orders};
    ghost use Rattle.order_book.specs.Kept.{order_count};
    ghost use Rattle.order_book.specs.Stands.{StandsFor};

    /// A book of this cash, from 1 to 10^20, without orders: its fills cost so much, its positions may exceed its equity so
    /// many times, from 1 to 100, and its market orders fill while the exchange is open by these hours.
    pub fn new(alloc: Global, cash: Money, costs: Costs, leverage: u32, hours: Arc<Hours>) -> Book
        requires cash { IsStartingCash cash.0 }
        requires costs { IsCosts costs }
        requires leverage { IsLeverage leverage }
        ensures stands { StandsFor result (clock.new_book cash.0 costs leverage (arc_value hours)) }
        ensures count { order_count result ≡ 0 }
    {
        Book {
            market: Market {
                costs,
                hours,
                bars: IndexMap::new(alloc),
            },
            leverage,
            ledger: Ledger {
                portfolio: Portfolio::new(alloc, cash),
                orders: Vec::new(alloc),
                fills: Vec::new(alloc),
                waiting: IndexMap::new(alloc),
            },
            due: Vec::new(alloc),
        }
    }

    /// Does what the command says and appends the replies, of which `Done` is the last and only the last. The numbers of the
    /// command are in their ranges, but for the quantity and the price of a request and the price of an update, which are
    /// tested here, and a submit is one of the first 1,000,000. At `NoMemory` the book and the replies are as they were.
    pub fn handle(&mut self, command: &Command, out: &mut Vec<Reply>) -> Result<(), NoMemory>
        requires fits { IsFitting command.now }
        requires room { HasRoom (order_count self.old) command.now }
        ensures stands { (book : clock.Book) → StandsFor self.old book
            → OnOk result (StandsFor self.new (handled book command.now).book) }
        ensures replies { (book : clock.Book) → StandsFor self.old book
            → OnOk result (out.new.items ≡ out.old.items ++ (handled book command.now).replies) }
        ensures count { OnOk result
            (order_count self.new ≡ order_count self.old + submits command.now) }
        ensures grows { (more : List Reply) × (out.new.items ≡ out.old.items ++ more) }
        ensures few { length out.new.items ≤ length out.old.items + (most_orders + 1) }
        ensures kept { OnErr result (self.new ≡ self.old) }
        ensures unsaid { OnErr result (out.new.items ≡ out.old.items) }
    {
        match command {
            Command::Mark(_, symbol, bar) => self.mark(*symbol, bar, out),
            Command::Match(at) => self.match_orders(*at, out),
            Command::Submit(at, request) => self.submit(*at, request, out),
            Command::Update(at, id, price) => self.update(*at, *id, *price, out),
            Command::Cancel(at, id) => self.cancel(*at, *id, out),
            Command::Account(_) => self.account(out),
        }
    }

    /// All orders by id: that of id 1 first. Those that were refused are among them.
    pub fn orders(&self) -> &[Order]
        ensures stands { (book : clock.Book) → StandsFor self.now book → result.now ≡ book.orders }
        ensures count { length result.now ≡ order_count self.now }
    {
        &self.ledger.orders
    }

    /// All fills, in the order in which they came.
    pub fn fills(&self) -> &[Fill]
        ensures stands { (book : clock.Book) → StandsFor self.now book → result.now ≡ book.fills }
    {
        &self.ledger.fills
    }

    /// The account: it is that of all fills, with the prices of all marks.
    pub fn portfolio(&self) -> &Portfolio
        ensures stands { (book : clock.Book) → StandsFor self.now book
            → account.StandsFor result.now book.start book.fills (clock.price_marks book) }
    {
        &self.ledger.portfolio
    }

    // Tries the live orders, by id, on the bars since they were last tried.
    fn match_orders(&mut self, at: Moment, out: &mut Vec<Reply>) -> Result<(), NoMemory>
        ensures ok { OnOk result (Serves (λ book. handled_match book at) 0
            self.old self.new out.old.items out.new.items) }
        ensures kept { OnErr result (self.new ≡ self.old) }
        ensures unsaid { OnErr result (out.new.items ≡ out.old.items) }
    {
        self.market.find_due(&mut self.ledger.waiting, &self.ledger.orders, &mut self.due)?;
        let most = self.due.len();
        out.reserve(most + 1)?;
        self.ledger.fills.reserve(most)?;
        self.market.try_all(&mut self.ledger, &self.due, at, out);
        self.market.forget();
        say(&[Reply::Done], out);
        Ok(())
    }
}
