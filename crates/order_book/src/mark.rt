use crate::book::Book;
use crate::replies::say;
use lean_fixed::{NoMemory, Symbol};
use lean_orders::{PriceBar, Reply};

impl Book {
    ghost use Rattle.std.specs.Prelude.{◌≡◌, OnOk, OnErr};
    ghost use Rattle.clock_book.specs.Handled.{handled_mark};
    ghost use Rattle.order_book.specs.Resting.{IsPriced};
    ghost use Rattle.order_book.specs.Serves.{Serves};

    // The price of the symbol is the bar's closing price from now on, and its orders are tried on the bar, if it is real.
    pub(crate) fn mark(
        &mut self,
        symbol: Symbol,
        bar: &PriceBar,
        out: &mut Vec<Reply>,
    ) -> Result<(), NoMemory>
        requires { IsPriced bar.now }
        ensures ok { OnOk result (Serves (λ book. handled_mark book symbol bar.now) 0
            self.old self.new out.old.items out.new.items) }
        ensures kept { OnErr result (self.new ≡ self.old) }
        ensures unsaid { OnErr result (out.new.items ≡ out.old.items) }
    {
        out.reserve(1)?;
        self.market.bars.reserve(1)?;
        self.ledger.portfolio.hold_at(symbol, bar.closing)?;
        self.market.keep(symbol, bar);
        say(&[Reply::Done], out);
        Ok(())
    }
}
