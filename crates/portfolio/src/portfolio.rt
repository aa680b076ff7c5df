use crate::holdings::{Holdings, add, holding_in, is_held, key_at, set_lot, set_price};
use crate::totals::Totals;
use indexmap::IndexMap;
use lean_fixed::{Money, NoMemory, Price, Shares, Symbol};
use lean_orders::Fill;
use std::alloc::Global;
use std::marker::Model;

/// The cash and the positions of an account, after LEAN's topic "Portfolio". Contracts see what it keeps as an `Account`
/// and say for which lists of fills and marks it stands. All money is in 1/10000 dollar.
#[derive(Drop)]
pub struct Portfolio {
    totals: Totals,
    holdings: Holdings,
}

impl Model for Portfolio {
    ghost use Rattle.portfolio.specs.Account.{Account};
    ghost use Rattle.portfolio.specs.Stands.{IsKept};

    ghost Value = { Account };

    ghost view = { λ p. record { totals = p.totals; entries = p.holdings.entries } };

    ghost invariant = { λ p. IsKept (record { totals = p.totals; entries = p.holdings.entries }) };
}

impl Portfolio {
    ghost use Rattle.std.specs.Prelude.{◌≡◌, ◌+◌, ◌<◌, ◌≤◌, ℤ, length, List, [], ◌∷◌, ◌++◌, true, false, Option, OnOk, OnErr, option_map, slice_get, if◌then◌else◌};
    ghost use Rattle.lean_fixed.specs.Ranges.{IsStartingCash, IsMoney, IsPosition, IsPrice};
    ghost use Rattle.lean_orders.specs.declared.event.Fill.{Fill};
    ghost use Rattle.lean_orders.specs.Traded.{IsFill};
    ghost use Rattle.std.specs.List.{IsDistinct};
    ghost use Rattle.portfolio.specs.Symbols.{same_symbol, is_among};
    ghost use Rattle.portfolio.specs.Sums.{Mark, cash, position, fees, realised, last_mark, equity, gross_without};
    ghost use Rattle.portfolio.specs.Account.{held, holding_in};
    ghost use Rattle.portfolio.specs.Stands.{StandsFor, fills_applied, most_fills};
    ghost use Rattle.portfolio.specs.Small.{IsSmall, IsPriced, IsSmallHolding};

    /// A portfolio of this cash, from 1 to 10^20, without fills and marks.
    pub fn new(alloc: Global, cash: Money) -> Portfolio
        requires { IsStartingCash cash.0 }
        ensures stands { StandsFor result cash.0 [] [] }
        ensures held { held result ≡ [] }
        ensures count { fills_applied result ≡ 0 }
    {
        Portfolio {
            totals: Totals::starting(cash.0),
            holdings: IndexMap::new(alloc),
        }
    }

    /// Makes an entry of position 0 for the symbol where there is none, and otherwise changes nothing. At `NoMemory` the
    /// portfolio is as it was.
    pub fn hold(&mut self, symbol: Symbol) -> Result<(), NoMemory>
        ensures stands { (start : ℤ) (fills : List Fill) (marks : List Mark)
            → StandsFor self.old start fills marks → StandsFor self.new start fills marks }
        ensures held { OnOk result (held self.new ≡ (if is_among symbol (held self.old)
            then held self.old else held self.old ++ symbol ∷ [])) }
        ensures count { fills_applied self.new ≡ fills_applied self.old }
        ensures there { OnOk result (is_among symbol (held self.new) ≡ true) }
        ensures err { OnErr result (self.new ≡ self.old) }
    {
        if is_held(&self.holdings, &symbol) {
            return Ok(());
        }
        add(&mut self.holdings, symbol)
    }

    /// Whether the symbol has an entry.
    pub fn is_held(&self, symbol: Symbol) -> bool
        ensures { result ≡ is_among symbol (held self.now) }
    {
        is_held(&self.holdings, &symbol)
    }

    /// The number of fills that were applied, at most 1,000,000.
    pub fn fills_applied(&self) -> u32
        ensures count { result ≡ fills_applied self.now }
        ensures few { result ≤ most_fills }
        ensures stands { (start : ℤ) (fills : List Fill) (marks : List Mark)
            → StandsFor self.now start fills marks → result ≡ length fills }
    {
        self.check_totals();
        self.totals.fills
    }

    /// The price of the symbol is this one from now on. The symbol has an entry.
    pub fn mark(&mut self, symbol: Symbol, price: Price)
        requires held { is_among symbol (held self.old) ≡ true }
        requires price { IsPrice price.0 }
        ensures stands { (start : ℤ) (fills : List Fill) (marks : List Mark)
            → StandsFor self.old start fills marks
            → StandsFor self.new start fills (marks ++ record { symbol = symbol; price = price.0 } ∷ []) }
        ensures held { held self.new ≡ held self.old }
        ensures count { fills_applied self.new ≡ fills_applied self.old }
    {
        let _marked = self.mark_held(symbol, price);
    }

    /// Makes an entry for the symbol where there is none, and its price is this one from now on: `hold` and `mark`, by one step
    /// in the table where the symbol has an entry. At `NoMemory` the portfolio is as it was.
    pub fn hold_at(&mut self, symbol: Symbol, price: Price) -> Result<(), NoMemory>
        requires price { IsPrice price.0 }
        ensures stands { OnOk result ((start : ℤ) (fills : List Fill) (marks : List Mark)
            → StandsFor self.old start fills marks
            → StandsFor self.new start fills (marks ++ record { symbol = symbol; price = price.0 } ∷ [])) }
        ensures held { OnOk result (held self.new ≡ (if is_among symbol (held self.old)
            then held self.old else held self.old ++ symbol ∷ [])) }
        ensures count { fills_applied self.new ≡ fills_applied self.old }
        ensures there { OnOk result (is_among symbol (held self.new) ≡ true) }
        ensures err { OnErr result (self.new ≡ self.old) }
    {
        if self.mark_held(symbol, price) {
            return Ok(());
        }
        self.hold(symbol)?;
        self.mark(symbol, price);
        Ok(())
    }

    // The price of a symbol that has an entry is this one from now on. False exactly where it has none, and then nothing has
    // changed.
    fn mark_held(&mut self, symbol: Symbol, price: Price) -> bool
        requires { IsPrice price.0 }
        ensures stands { result ≡ true → (start : ℤ) (fills : List Fill) (marks : List Mark)
            → StandsFor self.old start fills marks
            → StandsFor self.new start fills (marks ++ record { symbol = symbol; price = price.0 } ∷ []) }
        ensures held { held self.new ≡ held self.old }
        ensures count { fills_applied self.new ≡ fills_applied self.old }
        ensures there { result ≡ is_among symbol (held self.old) }
        ensures kept { result ≡ false → self.new ≡ self.old }
    {
        self.check_totals();
        self.check(&symbol);
        match set_price(&mut self.holdings, &symbol, price) {
            Some(before) => {
                self.totals = self.totals.marked(&before, price);
                true
            }
            None => false,
        }
    }

    /// Applies a fill. Its symbol has an entry, and fewer than 1,000,000 fills were applied.
    pub fn apply(&mut self, fill: &Fill)
        requires held { is_among fill.now.symbol (held self.old) ≡ true }
        requires fewer { fills_applied self.old < most_fills }
        requires fill { IsFill fill.now }
        ensures stands { (start : ℤ) (fills : List Fill) (marks : List Mark)
            → StandsFor self.old start fills marks
            → StandsFor self.new start (fills ++ fill.now ∷ []) marks }
        ensures held { held self.new ≡ held self.old }
        ensures count { fills_applied self.new ≡ fills_applied self.old + 1 }
    {
        self.check_totals();
        self.check(&fill.symbol);
        let before = holding_in(&self.holdings, &fill.symbol);
        let after = before.lot.filled(fill.quantity.0, fill.price.0);
        set_lot(&mut self.holdings, &fill.symbol, after);
        self.totals = self.totals.applied(&before, &after, fill);
    }

    /// The last price at which the symbol was marked. `None` exactly where it was never marked.
    pub fn price(&self, symbol: Symbol) -> Option<Price>
        ensures stands { (start : ℤ) (fills : List Fill) (marks : List Mark)
            → StandsFor self.now start fills marks
            → result ≡ option_map (λ price. record { 0 = price }) (last_mark symbol marks) }
        ensures range { IsPriced result }
    {
        self.check(&symbol);
        holding_in(&self.holdings, &symbol).price
    }

    /// The starting cash less what all fills cost: quantity times price, and the fee.
    pub fn cash(&self) -> Money
        ensures stands { (start : ℤ) (fills : List Fill) (marks : List Mark)
            → StandsFor self.now start fills marks → result.0 ≡ cash start fills }
        ensures range { IsMoney result.0 }
    {
        self.check_totals();
        Money(self.totals.cash)
    }

    /// The shares that are held of the symbol, negative where they are owed, and 0 where it has no entry.
    pub fn position(&self, symbol: Symbol) -> Shares
        ensures stands { (start : ℤ) (fills : List Fill) (marks : List Mark)
            → StandsFor self.now start fills marks → result.0 ≡ position symbol fills }
        ensures range { IsPosition result.0 }
    {
        self.check(&symbol);
        Shares(holding_in(&self.holdings, &symbol).lot.position)
    }

    /// The cash and the value of all positions by their last prices. A symbol that was never marked adds nothing.
    pub fn equity(&self) -> Money
        ensures stands { (start : ℤ) (fills : List Fill) (marks : List Mark)
            → StandsFor self.now start fills marks → result.0 ≡ equity start fills marks }
        ensures range { IsMoney result.0 }
    {
        self.check_totals();
        Money(self.totals.equity())
    }

    /// The sum of all fees.
    pub fn fees(&self) -> Money
        ensures stands { (start : ℤ) (fills : List Fill) (marks : List Mark)
            → StandsFor self.now start fills marks → result.0 ≡ fees fills }
        ensures range { IsMoney result.0 }
    {
        self.check_totals();
        Money(self.totals.fees)
    }

    /// The realised profit of all fills, before fees.
    pub fn realised(&self) -> Money
        ensures stands { (start : ℤ) (fills : List Fill) (marks : List Mark)
            → StandsFor self.now start fills marks → result.0 ≡ realised fills }
        ensures range { IsMoney result.0 }
    {
        self.check_totals();
        Money(self.totals.realised)
    }

    /// The sum of |position| times last price over all symbols but this one.
    pub fn gross_without(&self, symbol: Symbol) -> Money
        ensures stands { (start : ℤ) (fills : List Fill) (marks : List Mark)
            → StandsFor self.now start fills marks → result.0 ≡ gross_without symbol fills marks }
        ensures range { IsMoney result.0 }
    {
        self.check_totals();
        self.check(&symbol);
        let holding = holding_in(&self.holdings, &symbol);
        Money(self.totals.gross_without(&holding))
    }

    /// The symbol that was held as number `index`, counted from 0. `None` exactly where fewer were held. No symbol is held
    /// as two numbers.
    pub fn symbol_at(&self, index: usize) -> Option<Symbol>
        ensures value { result ≡ slice_get (held self.now) index }
        ensures differ { IsDistinct same_symbol (held self.now) }
    {
        key_at(&self.holdings, index)
    }

    // All totals are small.
    fn check_totals(&self)
        ensures { IsSmall self.now.totals }
    {
        let _totals = &self.totals;
    }

    // What is held of the symbol is small.
    fn check(&self, symbol: &Symbol)
        ensures { IsSmallHolding (holding_in self.now.entries symbol.now) }
    {
        let _holdings = &self.holdings;
    }
}
