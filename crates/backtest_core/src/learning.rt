//! What a core learns of the book: prices as they are given out, and the rest from replies alone.
ghost use Rattle.std.specs.Prelude.{◌≡◌, true, ◌↔◌};
ghost use Rattle.lean_fixed.specs.Ranges.{IsQuantity, IsFillPrice, IsFee};
ghost use Rattle.lean_orders.specs.Traded.{IsFill};

use crate::mirror::{Lives, Mirror};
use lean_fixed::ranges::{MOST_FEE, MOST_FILL_PRICE, MOST_QUANTITY};
use lean_fixed::{Money, NoMemory, Price, Shares, Symbol};
use lean_orders::{Fill, Kind, OrderEvent, Reply, Resting, What};
use portfolio::Portfolio;
use std::alloc::Global;

/// The most fills that are learnt.
const MOST_FILLS: u32 = 1_000_000;

impl Mirror {
    ghost use Rattle.std.specs.Prelude.{◌≡◌, ◌<◌, ◌++◌, ◌∷◌, [], ◌↔◌, ℕ, List, true, Some, length, option_map, OnOk};
    ghost use Rattle.lean_fixed.specs.Ranges.{IsStartingCash, IsPrice};
    ghost use Rattle.lean_orders.specs.Traded.{IsFill};
    ghost use Rattle.portfolio.specs.Stands.{fills_applied, most_fills};
    ghost use Rattle.clock_book.specs.Seen.{Seen, learnt, what_learnt, without_id};
    ghost use Rattle.clock_run.specs.Requests.{price_seen, position_seen, cash_seen, equity_seen, orders_seen};
    ghost use Rattle.backtest_core.specs.Mirror.{Sees, nothing_seen, with_mark, CanBeLearnt, CanLearn};

    /// Nothing was seen of a book that was begun with this cash, from 1 to 10^20.
    pub fn new(alloc: Global, cash: Money) -> Mirror
        requires { IsStartingCash cash.0 }
        ensures { Sees result (nothing_seen cash.0) }
    {
        Mirror {
            account: Portfolio::new(alloc, cash),
            lives: Lives::new(alloc),
        }
    }

    /// The price of a symbol is this one from now on. One that is not from 1 to 10,000,000,000 is passed over.
    pub fn mark(&mut self, symbol: Symbol, price: Price) -> Result<(), NoMemory>
        ensures { OnOk result ((seen : Seen) → Sees self.old seen → IsPrice price.0
            → Sees self.new (with_mark symbol price.0 seen)) }
    {
        if !price.is_in_range() {
            return Ok(());
        }
        self.account.hold_at(symbol, price)?;
        Ok(())
    }

    /// Learns what a reply tells. A fill whose numbers are not in their ranges, or of which 1,000,000 were learnt already, is
    /// passed over.
    pub fn hear(&mut self, reply: &Reply) -> Result<(), NoMemory>
        ensures { OnOk result ((seen : Seen) → Sees self.old seen → CanLearn seen reply.now
            → Sees self.new (learnt seen reply.now)) }
    {
        match reply {
            Reply::Event(event) => self.learn(event),
            Reply::Account(_, _) => Ok(()),
            Reply::Done => Ok(()),
        }
    }

    fn learn(&mut self, event: &OrderEvent) -> Result<(), NoMemory>
        ensures { OnOk result ((seen : Seen) → Sees self.old seen → CanBeLearnt seen event.now.symbol event.now.what
            → Sees self.new (what_learnt seen event.now.id event.now.symbol event.now.what)) }
    {
        match event.symbol {
            None => Ok(()),
            Some(symbol) => self.learn_of(event.id, symbol, &event.what),
        }
    }

    fn learn_of(&mut self, id: u32, symbol: Symbol, what: &What) -> Result<(), NoMemory>
        ensures { OnOk result ((seen : Seen) → Sees self.old seen → CanBeLearnt seen (Some symbol) what.now
            → Sees self.new (what_learnt seen id (Some symbol) what.now)) }
    {
        match what {
            What::Submitted(kind, _, _, _) => self.add(id, symbol, *kind),
            What::Updated(_) => Ok(()),
            What::Filled(fill) => self.fill(id, fill),
            What::Canceled => self.cancel(id),
            What::Invalid(_) => Ok(()),
        }
    }

    fn add(&mut self, id: u32, symbol: Symbol, kind: Kind) -> Result<(), NoMemory>
        ensures { OnOk result ((seen : Seen) → Sees self.old seen → Sees self.new
            (record seen { live = seen.live ++ record { id = id; symbol = symbol; kind = kind } ∷ [] })) }
    {
        self.lives.add(&Resting { id, symbol, kind })
    }

    fn cancel(&mut self, id: u32) -> Result<(), NoMemory>
        ensures { OnOk result ((seen : Seen) → Sees self.old seen
            → Sees self.new (record seen { live = without_id id seen.live })) }
    {
        self.lives.remove(id);
        Ok(())
    }

    fn fill(&mut self, id: u32, fill: &Fill) -> Result<(), NoMemory>
        ensures { OnOk result ((seen : Seen) → Sees self.old seen → IsFill fill.now × (length seen.fills < most_fills)
            → Sees self.new (record seen { fills = seen.fills ++ fill.now ∷ []; live = without_id id seen.live })) }
    {
        if !self.can_apply(fill) {
            return Ok(());
        }
        self.account.hold(fill.symbol)?;
        self.account.apply(fill);
        self.lives.remove(id);
        Ok(())
    }

    /// Whether a reply can be learnt: whatever it tells, but for a fill whose numbers are not in their ranges or for which there
    /// is no room.
    pub fn can_learn(&self, reply: &Reply) -> bool
        ensures { (seen : Seen) → Sees self.now seen → (result ≡ true) ↔ CanLearn seen reply.now }
    {
        match reply {
            Reply::Event(event) => self.can_be_learnt(event),
            Reply::Account(_, _) => true,
            Reply::Done => true,
        }
    }

    fn can_be_learnt(&self, event: &OrderEvent) -> bool
        ensures { (seen : Seen) → Sees self.now seen
            → (result ≡ true) ↔ CanBeLearnt seen event.now.symbol event.now.what }
    {
        match event.symbol {
            None => true,
            Some(_) => self.can_happen(&event.what),
        }
    }

    fn can_happen(&self, what: &What) -> bool
        ensures { (seen : Seen) (symbol : List ℕ) → Sees self.now seen
            → (result ≡ true) ↔ CanBeLearnt seen (Some symbol) what.now }
    {
        match what {
            What::Filled(fill) => self.can_apply(fill),
            What::Submitted(_, _, _, _) => true,
            What::Updated(_) => true,
            What::Canceled => true,
            What::Invalid(_) => true,
        }
    }

    fn can_apply(&self, fill: &Fill) -> bool
        ensures fill { result ≡ true → IsFill fill.now × (fills_applied self.now.account < most_fills) }
        ensures seen { (seen : Seen) → Sees self.now seen
            → (result ≡ true) ↔ (IsFill fill.now × (length seen.fills < most_fills)) }
    {
        self.account.fills_applied() < MOST_FILLS && is_fill(fill)
    }

    /// The last price of a symbol. `None` exactly where it was never marked.
    pub fn price(&self, symbol: Symbol) -> Option<Price>
        ensures { (seen : Seen) → Sees self.now seen
            → result ≡ option_map (λ price. record { 0 = price }) (price_seen seen symbol) }
    {
        self.account.price(symbol)
    }

    /// The shares that are held of a symbol, negative where they are owed.
    pub fn position(&self, symbol: Symbol) -> Shares
        ensures { (seen : Seen) → Sees self.now seen → result.0 ≡ position_seen seen symbol }
    {
        self.account.position(symbol)
    }

    pub fn cash(&self) -> Money
        ensures { (seen : Seen) → Sees self.now seen → result.0 ≡ cash_seen seen }
    {
        self.account.cash()
    }

    /// The cash and what the positions are worth.
    pub fn equity(&self) -> Money
        ensures { (seen : Seen) → Sees self.now seen → result.0 ≡ equity_seen seen }
    {
        self.account.equity()
    }

    /// The live orders of a symbol, in the order in which they came. They are found in one step.
    pub fn orders_of(&self, symbol: Symbol) -> &[Resting]
        ensures { (seen : Seen) → Sees self.now seen → result.now ≡ orders_seen seen symbol }
    {
        self.lives.of_symbol(symbol)
    }
}

// Whether the numbers of a fill are in their ranges.
fn is_fill(fill: &Fill) -> bool
    ensures { (result ≡ true) ↔ IsFill fill.now }
{
    is_quantity(fill.quantity) && is_fill_price(fill.price) && is_fee(fill.fee)
}

fn is_quantity(quantity: Shares) -> bool
    ensures { (result ≡ true) ↔ IsQuantity quantity.0 }
{
    quantity.0 != 0 && -MOST_QUANTITY <= quantity.0 && quantity.0 <= MOST_QUANTITY
}

fn is_fill_price(price: Price) -> bool
    ensures { (result ≡ true) ↔ IsFillPrice price.0 }
{
    1 <= price.0 && price.0 <= MOST_FILL_PRICE
}

fn is_fee(fee: Money) -> bool
    ensures { (result ≡ true) ↔ IsFee fee.0 }
{
    0 <= fee.0 && fee.0 <= MOST_FEE
}
