//! Which orders the bars change: those of the symbols that were marked, and of these only the ones that are filled or
//! triggered.
ghost use Rattle.std.specs.Prelude.{◌≡◌, ◌+◌, ◌<◌, ◌≤◌, ◌++◌, [], ◌∷◌, if◌then◌else◌};
ghost use Rattle.std.specs.Vec.{vec_len, vec_capacity};

use crate::market::{Market, is_live};
use crate::places::{Waiting, places_of, prune};
use lean_fixed::{NoMemory, Symbol};
use lean_orders::{Order, PriceBar};

impl Market {
    ghost use Rattle.std.specs.Prelude.{◌≡◌, ◌<◌, ◌++◌, true, filter, length, OnOk, OnErr};
    ghost use Rattle.clock_book.specs.Books.{is_live};
    ghost use Rattle.std.specs.Arc.{arc_value};
    ghost use Rattle.trade_costs.specs.Fees.{IsCosts};
    ghost use Rattle.order_book.specs.Due.{AreRanged, changes, changes_at, is_due, Grows, Finds, FindsAt};
    ghost use Rattle.order_book.specs.Resting.{IsPriced, ArePriced, Name, IsRanged};
    ghost use Rattle.order_book.specs.Waiting.{Waits};

    // Finds the places of the orders that the bars change, by id.
    pub(crate) fn find_due(
        &self,
        waiting: &mut Waiting,
        orders: &[Order],
        due: &mut Vec<u32>,
    ) -> Result<(), NoMemory>
        requires costs { IsCosts self.now.costs }
        requires bars { ArePriced self.now.bars.entries }
        requires ranged { AreRanged orders.now }
        requires waits { Waits waiting.old.entries orders.now }
        ensures waits { Waits waiting.new.entries orders.now }
        ensures due { OnOk result (Name (is_due self.now.costs (arc_value self.now.hours) self.now.bars.entries)
            0 due.new.items orders.now) }
    {
        due.clear();
        for i in 0..self.bars.len() {
            match self.find_next(i, waiting, orders, due) {
                Ok(()) => (),
                Err(NoMemory) => return Err(NoMemory),
            }
        }
        due.sort_unstable();
        due.dedup();
        Ok(())
    }

    // Finds those of the symbol of a bar.
    fn find_next(
        &self,
        i: usize,
        waiting: &mut Waiting,
        orders: &[Order],
        due: &mut Vec<u32>,
    ) -> Result<(), NoMemory>
        requires costs { IsCosts self.now.costs }
        requires bars { ArePriced self.now.bars.entries }
        requires ranged { AreRanged orders.now }
        requires waits { Waits waiting.old.entries orders.now }
        requires i { i < length self.now.bars.entries }
        ensures waits { Waits waiting.new.entries orders.now }
        ensures grows { Grows orders.now due.old.items due.new.items }
        ensures found { OnOk result (FindsAt self.now.costs (arc_value self.now.hours) self.now.bars.entries i
            orders.now due.new.items) }
    {
        match self.bars.get_index(i) {
            Some((symbol, bar)) => self.find_on(*symbol, bar, waiting, orders, due),
            None => Ok(()),
        }
    }

    fn find_on(
        &self,
        symbol: Symbol,
        bar: &PriceBar,
        waiting: &mut Waiting,
        orders: &[Order],
        due: &mut Vec<u32>,
    ) -> Result<(), NoMemory>
        requires costs { IsCosts self.now.costs }
        requires bar { IsPriced bar.now }
        requires ranged { AreRanged orders.now }
        requires waits { Waits waiting.old.entries orders.now }
        ensures waits { Waits waiting.new.entries orders.now }
        ensures grows { Grows orders.now due.old.items due.new.items }
        ensures found { OnOk result (Finds self.now.costs (arc_value self.now.hours) symbol bar.now
            orders.now due.new.items) }
    {
        if places_of(waiting, symbol).is_empty() {
            return Ok(());
        }
        prune(waiting, symbol, orders);
        self.add_due(places_of(waiting, symbol), bar, orders, due)
    }

    // Adds those of some places whose orders the bar changes.
    fn add_due(
        &self,
        places: &[u32],
        bar: &PriceBar,
        orders: &[Order],
        due: &mut Vec<u32>,
    ) -> Result<(), NoMemory>
        requires costs { IsCosts self.now.costs }
        requires bar { IsPriced bar.now }
        requires ranged { AreRanged orders.now }
        ensures ok { OnOk result (due.new.items ≡ due.old.items
            ++ filter (changes_at self.now.costs (arc_value self.now.hours) bar.now orders.now) places.now) }
        ensures err { OnErr result (due.new.items ≡ due.old.items) }
    {
        due.reserve(places.len())?;
        for i in 0..places.len() {
            let place = places[i];
            add(due, place, self.changes_at(place, bar, orders));
        }
        Ok(())
    }

    // Whether the bar changes the order at a place.
    fn changes_at(&self, place: u32, bar: &PriceBar, orders: &[Order]) -> bool
        requires costs { IsCosts self.now.costs }
        requires bar { IsPriced bar.now }
        requires ranged { AreRanged orders.now }
        ensures { result ≡ changes_at self.now.costs (arc_value self.now.hours) bar.now orders.now place }
    {
        match orders.get(place as usize) {
            Some(order) => self.changes(order, bar),
            None => false,
        }
    }

    fn changes(&self, order: &Order, bar: &PriceBar) -> bool
        requires costs { IsCosts self.now.costs }
        requires bar { IsPriced bar.now }
        requires ranged { is_live order.now.state ≡ true → IsRanged order.now }
        ensures { result ≡ changes self.now.costs (arc_value self.now.hours) bar.now order.now }
    {
        if !is_live(order.state) {
            return false;
        }
        self.fill_on(order, bar).is_some() || self.is_set_off(order, bar) && !order.triggered
    }
}

// Adds a place, if it is due. There is room for it.
fn add(due: &mut Vec<u32>, place: u32, is_due: bool)
    requires { vec_len due.old < vec_capacity due.old }
    ensures items { due.new.items ≡ due.old.items ++ (if is_due then place ∷ [] else []) }
    ensures len { vec_len due.new ≤ vec_len due.old + 1 }
    ensures capacity { vec_capacity due.new ≡ vec_capacity due.old }
{
    if is_due {
        due.push_reserved(place);
    }
}
