//! The orders, the fills and the account.
use crate::places::{Waiting, add_place};
use lean_fixed::{NoMemory, Symbol};
use lean_orders::{Fill, Order, OrderState};
use portfolio::Portfolio;

#[derive(Drop)]
pub(crate) struct Ledger {
    pub(crate) portfolio: Portfolio,
    // The order of an id stands at the place one less than it.
    pub(crate) orders: Vec<Order>,
    pub(crate) fills: Vec<Fill>,
    // Those that are no longer live leave at a later match.
    pub(crate) waiting: Waiting,
}

impl Ledger {
    ghost use Rattle.std.specs.Prelude.{◌≡◌, ◌+◌, ◌<◌, ◌==◌, [], ◌∷◌, ◌++◌, true, false, Some, length, set, slice_get, Contains, OnOk, OnErr};
    ghost use Rattle.std.specs.List.{find};
    ghost use Rattle.std.specs.Vec.{vec_len, vec_capacity};
    ghost use Rattle.lean_orders.specs.declared.order.OrderState.TheVariants.{Filled};
    ghost use Rattle.lean_orders.specs.Traded.{IsFill};
    ghost use Rattle.portfolio.specs.Account.{held};
    ghost use Rattle.portfolio.specs.Symbols.{is_among};
    ghost use Rattle.clock_book.specs.Books.{is_live};
    ghost use Rattle.clock_book.specs.Fitting.{most_orders};
    ghost use Rattle.clock_book.specs.Handled.{replaced};
    ghost use Rattle.clock_book.specs.Matches.{in_state};
    ghost use Rattle.order_book.specs.Tries.{IsLedger, IsSameAccount, HasFills};
    ghost use Rattle.order_book.specs.Resting.{RestsWhereLive, is_filled};
    ghost use Rattle.order_book.specs.Waiting.{places_of};
    ghost use Rattle.lean_orders.specs.declared.order.Order.{Order};

    // Makes room for one more order.
    pub(crate) fn reserve(&mut self) -> Result<(), NoMemory>
        requires kept { IsLedger self.old }
        ensures kept { IsLedger self.new }
        ensures orders { self.new.orders.items ≡ self.old.orders.items }
        ensures fills { self.new.fills.items ≡ self.old.fills.items }
        ensures account { self.new.portfolio ≡ self.old.portfolio }
        ensures room { OnOk result (vec_len self.new.orders < vec_capacity self.new.orders) }
    {
        self.orders.reserve(1)?;
        Ok(())
    }

    // Makes room for one more order of a symbol that may be live.
    pub(crate) fn reserve_live(&mut self, symbol: Symbol) -> Result<(), NoMemory>
        requires kept { IsLedger self.old }
        requires fewer { length self.old.orders.items < most_orders }
        ensures kept { IsLedger self.new }
        ensures orders { self.new.orders.items ≡ self.old.orders.items }
        ensures fills { self.new.fills.items ≡ self.old.fills.items }
        ensures account { IsSameAccount self.old.portfolio self.new.portfolio }
        ensures room { OnOk result (vec_len self.new.orders < vec_capacity self.new.orders) }
        ensures place { OnOk result (Contains (places_of self.new.waiting.entries symbol)
            (length self.new.orders.items)) }
        ensures held { OnOk result (is_among symbol (held self.new.portfolio) ≡ true) }
        ensures err { OnErr result (self.new.portfolio ≡ self.old.portfolio) }
    {
        self.reserve_place(symbol)?;
        self.portfolio.hold(symbol)
    }

    // Makes room for one more order, whose place is among those of its symbol.
    fn reserve_place(&mut self, symbol: Symbol) -> Result<(), NoMemory>
        requires kept { IsLedger self.old }
        requires fewer { length self.old.orders.items < most_orders }
        ensures kept { IsLedger self.new }
        ensures orders { self.new.orders.items ≡ self.old.orders.items }
        ensures fills { self.new.fills.items ≡ self.old.fills.items }
        ensures account { self.new.portfolio ≡ self.old.portfolio }
        ensures room { OnOk result (vec_len self.new.orders < vec_capacity self.new.orders) }
        ensures place { OnOk result (Contains (places_of self.new.waiting.entries symbol)
            (length self.new.orders.items)) }
    {
        self.reserve()?;
        let place = self.orders.len() as u32;
        add_place(&mut self.waiting, symbol, place)?;
        Ok(())
    }

    // Makes room for one more order of a symbol and its fill.
    pub(crate) fn reserve_fill(&mut self, symbol: Symbol) -> Result<(), NoMemory>
        requires kept { IsLedger self.old }
        ensures kept { IsLedger self.new }
        ensures orders { self.new.orders.items ≡ self.old.orders.items }
        ensures fills { self.new.fills.items ≡ self.old.fills.items }
        ensures account { IsSameAccount self.old.portfolio self.new.portfolio }
        ensures room { OnOk result (vec_len self.new.orders < vec_capacity self.new.orders) }
        ensures more { OnOk result (vec_len self.new.fills < vec_capacity self.new.fills) }
        ensures held { OnOk result (is_among symbol (held self.new.portfolio) ≡ true) }
        ensures err { OnErr result (self.new.portfolio ≡ self.old.portfolio) }
    {
        self.reserve()?;
        self.fills.reserve(1)?;
        self.portfolio.hold(symbol)
    }

    // Adds an order that is not filled. There is room for it, and its place is among those of its symbol if it is live.
    pub(crate) fn add(&mut self, order: Order)
        requires kept { IsLedger self.old }
        requires fewer { length self.old.orders.items < most_orders }
        requires room { vec_len self.old.orders < vec_capacity self.old.orders }
        requires id { order.id ≡ length self.old.orders.items + 1 }
        requires rests { RestsWhereLive (held self.old.portfolio) order }
        requires open { is_filled order.state ≡ false }
        requires place { is_live order.state ≡ true → Contains (places_of self.old.waiting.entries order.symbol)
            (length self.old.orders.items) }
        ensures kept { IsLedger self.new }
        ensures orders { self.new.orders.items ≡ self.old.orders.items ++ order ∷ [] }
        ensures fills { self.new.fills.items ≡ self.old.fills.items }
        ensures account { self.new.portfolio ≡ self.old.portfolio }
    {
        self.orders.push_reserved(order);
    }

    // Adds an order that was filled at once, and its fill. There is room for both.
    pub(crate) fn add_filled(&mut self, order: Order, fill: &Fill)
        requires kept { IsLedger self.old }
        requires fewer { length self.old.orders.items < most_orders }
        requires room { vec_len self.old.orders < vec_capacity self.old.orders }
        requires more { vec_len self.old.fills < vec_capacity self.old.fills }
        requires id { order.id ≡ length self.old.orders.items + 1 }
        requires filled { order.state ≡ Filled }
        requires fill { IsFill fill.now }
        requires held { is_among fill.now.symbol (held self.old.portfolio) ≡ true }
        ensures kept { IsLedger self.new }
        ensures orders { self.new.orders.items ≡ self.old.orders.items ++ order ∷ [] }
        ensures fills { self.new.fills.items ≡ self.old.fills.items ++ fill.now ∷ [] }
        ensures account { HasFills (fill.now ∷ []) self.old.portfolio self.new.portfolio }
    {
        self.portfolio.apply(fill);
        self.fills.push_reserved(*fill);
        self.orders.push_reserved(order);
    }

    // Fills the live order at a place, as it is after its trigger. There is room for its fill.
    pub(crate) fn fill(&mut self, place: usize, order: &Order, first: &Order, fill: &Fill)
        requires kept { IsLedger self.old }
        requires there { slice_get self.old.orders.items place ≡ Some order.now }
        requires lives { is_live order.now.state ≡ true }
        requires id { first.now.id ≡ order.now.id }
        requires same { first.now.symbol ≡ order.now.symbol }
        requires symbol { fill.now.symbol ≡ order.now.symbol }
        requires fill { IsFill fill.now }
        requires room { vec_len self.old.fills < vec_capacity self.old.fills }
        ensures kept { IsLedger self.new }
        ensures orders { self.new.orders.items
            ≡ set self.old.orders.items place (in_state Filled first.now) }
        ensures fills { self.new.fills.items ≡ self.old.fills.items ++ fill.now ∷ [] }
        ensures account { HasFills (fill.now ∷ []) self.old.portfolio self.new.portfolio }
        ensures held { held self.new.portfolio ≡ held self.old.portfolio }
        ensures capacity { vec_capacity self.new.fills ≡ vec_capacity self.old.fills }
    {
        self.portfolio.apply(fill);
        self.fills.push_reserved(*fill);
        self.orders[place] = Order {
            state: OrderState::Filled,
            ..*first
        };
    }

    // Has the order at a place as it is after its trigger.
    pub(crate) fn set_off(&mut self, place: usize, order: &Order, first: &Order)
        requires kept { IsLedger self.old }
        requires there { slice_get self.old.orders.items place ≡ Some order.now }
        requires id { first.now.id ≡ order.now.id }
        requires same { first.now.symbol ≡ order.now.symbol }
        requires state { first.now.state ≡ order.now.state }
        requires rests { RestsWhereLive (held self.old.portfolio) first.now }
        ensures kept { IsLedger self.new }
        ensures orders { self.new.orders.items ≡ set self.old.orders.items place first.now }
        ensures fills { self.new.fills.items ≡ self.old.fills.items }
        ensures account { self.new.portfolio ≡ self.old.portfolio }
        ensures capacity { vec_capacity self.new.fills ≡ vec_capacity self.old.fills }
        ensures len { vec_len self.new.fills ≡ vec_len self.old.fills }
    {
        self.orders[place] = *first;
    }

    // Puts an order in the place of the one of its id, which is live.
    pub(crate) fn put(&mut self, order: Order)
        requires kept { IsLedger self.old }
        requires there { (old : Order) × (find (λ o. o.id == order.id) self.old.orders.items ≡ Some old)
            × (is_live old.state ≡ true) × (order.symbol ≡ old.symbol) }
        requires rests { RestsWhereLive (held self.old.portfolio) order }
        requires open { is_filled order.state ≡ false }
        ensures kept { IsLedger self.new }
        ensures orders { self.new.orders.items ≡ replaced self.old.orders.items order }
        ensures fills { self.new.fills.items ≡ self.old.fills.items }
        ensures account { self.new.portfolio ≡ self.old.portfolio }
    {
        let place = order.id - 1;
        self.orders[place as usize] = order;
    }
}
