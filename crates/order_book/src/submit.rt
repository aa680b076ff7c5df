use crate::book::Book;
use crate::orders::made_order;
use crate::replies::{answer, said, say};
use lean_fixed::{Moment, NoMemory, Price};
use lean_orders::{Cause, Kind, OrderState, Reply, Request, What};

impl Book {
    ghost use Rattle.std.specs.Prelude.{◌≡◌, ◌+◌, ◌<◌, OnOk, OnErr};
    ghost use Rattle.lean_fixed.specs.Ranges.{IsPrice};
    ghost use Rattle.lean_orders.specs.declared.order.Kind.TheVariants.{Market};
    ghost use Rattle.clock_book.specs.Fitting.{most_orders};
    ghost use Rattle.clock_book.specs.Handled.{handled_submit, refused_submit, resting_submit, market_submit, accepted_submit};
    ghost use Rattle.order_book.specs.Judged.{IsSound, IsResting};
    ghost use Rattle.order_book.specs.Kept.{order_count};
    ghost use Rattle.order_book.specs.Serves.{Serves};

    // Makes an order of the request. A refused one is kept too, since it takes an id.
    pub(crate) fn submit(
        &mut self,
        at: Moment,
        request: &Request,
        out: &mut Vec<Reply>,
    ) -> Result<(), NoMemory>
        requires room { order_count self.old < most_orders }
        ensures ok { OnOk result (Serves (λ book. handled_submit book at request.now) 1
            self.old self.new out.old.items out.new.items) }
        ensures kept { OnErr result (self.new ≡ self.old) }
        ensures unsaid { OnErr result (out.new.items ≡ out.old.items) }
    {
        match self.judge(request) {
            Err(cause) => self.refuse(at, request, cause, out),
            Ok(price) => self.accept(at, request, price, out),
        }
    }

    fn refuse(
        &mut self,
        at: Moment,
        request: &Request,
        cause: Cause,
        out: &mut Vec<Reply>,
    ) -> Result<(), NoMemory>
        requires room { order_count self.old < most_orders }
        ensures ok { OnOk result (Serves (λ book. refused_submit book at request.now cause) 1
            self.old self.new out.old.items out.new.items) }
        ensures kept { OnErr result (self.new ≡ self.old) }
        ensures unsaid { OnErr result (out.new.items ≡ out.old.items) }
    {
        self.ledger.reserve()?;
        let order = made_order(
            self.next_id(),
            at,
            request,
            request.kind,
            OrderState::Refused,
        );
        answer(said(at, order.id, order.symbol, What::Invalid(cause)), out)?;
        self.ledger.add(order);
        Ok(())
    }

    // A market order fills at once while the exchange is open. While it is closed it waits for the opening.
    fn accept(
        &mut self,
        at: Moment,
        request: &Request,
        price: Price,
        out: &mut Vec<Reply>,
    ) -> Result<(), NoMemory>
        requires room { order_count self.old < most_orders }
        requires sound { IsSound request.now }
        requires price { IsPrice price.0 }
        ensures ok { OnOk result (Serves (λ book. accepted_submit book at request.now request.now.kind price.0) 1
            self.old self.new out.old.items out.new.items) }
        ensures kept { OnErr result (self.new ≡ self.old) }
        ensures unsaid { OnErr result (out.new.items ≡ out.old.items) }
    {
        match request.kind {
            Kind::Market if self.market.hours.is_open(at) => self.trade(at, request, price, out),
            Kind::Market => self.rest(at, request, Kind::AtOpen, out),
            kind => self.rest(at, request, kind, out),
        }
    }

    // The order waits until a bar fills it.
    fn rest(
        &mut self,
        at: Moment,
        request: &Request,
        kind: Kind,
        out: &mut Vec<Reply>,
    ) -> Result<(), NoMemory>
        requires room { order_count self.old < most_orders }
        requires resting { IsResting kind request.now }
        ensures ok { OnOk result (Serves (λ book. resting_submit book at request.now kind) 1
            self.old self.new out.old.items out.new.items) }
        ensures kept { OnErr result (self.new ≡ self.old) }
        ensures unsaid { OnErr result (out.new.items ≡ out.old.items) }
    {
        out.reserve(2)?;
        self.ledger.reserve_fill(request.symbol)?;
        let order = made_order(self.next_id(), at, request, kind, OrderState::Live);
        let what = What::Submitted(kind, order.quantity, order.price, order.limit);
        say(&[said(at, order.id, order.symbol, what), Reply::Done], out);
        self.ledger.add(order);
        Ok(())
    }

    // The order is filled at this price, with slippage.
    fn trade(
        &mut self,
        at: Moment,
        request: &Request,
        price: Price,
        out: &mut Vec<Reply>,
    ) -> Result<(), NoMemory>
        requires room { order_count self.old < most_orders }
        requires sound { IsSound request.now }
        requires price { IsPrice price.0 }
        ensures ok { OnOk result (Serves (λ book. market_submit book at request.now price.0) 1
            self.old self.new out.old.items out.new.items) }
        ensures kept { OnErr result (self.new ≡ self.old) }
        ensures unsaid { OnErr result (out.new.items ≡ out.old.items) }
    {
        out.reserve(3)?;
        self.ledger.reserve_fill(request.symbol)?;
        let order = made_order(
            self.next_id(),
            at,
            request,
            Kind::Market,
            OrderState::Filled,
        );
        let fill = self
            .market
            .fill_at_once(order.symbol, order.quantity, price);
        let submitted = What::Submitted(Kind::Market, order.quantity, None, None);
        let replies = [
            said(at, order.id, order.symbol, submitted),
            said(at, order.id, order.symbol, What::Filled(fill)),
            Reply::Done,
        ];
        say(&replies, out);
        self.ledger.add_filled(order, &fill);
        Ok(())
    }

    // Ids count the submits from 1.
    fn next_id(&self) -> u32
        ensures { result ≡ order_count self.now + 1 }
    {
        self.ledger.orders.len() as u32 + 1
    }
}
