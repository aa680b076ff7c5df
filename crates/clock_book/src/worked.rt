//! The handling of commands, computed on a book of 10,000,000 units of cash, 1 unit of fee a share and a slip of 2, on
//! Monday, 2013-10-07.
ghost use Rattle.std.specs.Prelude.{◌≡◌, pos, negsuc, [], ◌∷◌, Some, None};
ghost use Rattle.lean_orders.specs.declared.order.Kind.TheVariants.{Market, Limit, StopLimit};
ghost use Rattle.lean_orders.specs.declared.event.Cause.TheVariants as cause;
ghost use Rattle.lean_orders.specs.declared.event.What.TheVariants as what;
ghost use Rattle.lean_orders.specs.declared.desk.Reply.TheVariants as reply;
ghost use Rattle.lean_orders.specs.declared.desk.Command.TheVariants as command;
ghost use Rattle.clock_book.specs.Handled.{replies};
ghost use Rattle.clock_book.specs.Worked.{usual_book, spider, minute, price, ask, ask_stop_limit, bar, event};

/// An unknown id, a symbol without a price, no quantity, an order that was refused, and the account.
#[tactic(auto, unfolding(crate::specs::Handled::replies))]
pub fn refusals()
    ensures { replies usual_book
        (command.Cancel (minute 0) 1
        ∷ command.Submit (minute 0) (ask Market (pos 10) None)
        ∷ command.Submit (minute 0) (ask Market (pos 0) None)
        ∷ command.Update (minute 0) 1 (price 100)
        ∷ command.Account (minute 0) ∷ [])
        ≡ event 0 1 None (what.Invalid cause.Unknown) ∷ reply.Done
        ∷ event 0 1 (Some spider) (what.Invalid cause.NoPrice) ∷ reply.Done
        ∷ event 0 2 (Some spider) (what.Invalid cause.Quantity) ∷ reply.Done
        ∷ event 0 1 (Some spider) (what.Invalid cause.Closed) ∷ reply.Done
        ∷ reply.Account (record { 0 = pos 10000000 }) (record { 0 = pos 10000000 }) ∷ reply.Done ∷ [] }
{}

/// A limit order rests at the bar of its own moment, and at a match without a new bar; the next bar fills it. A market order
/// fills at once, with slippage.
#[tactic(auto, unfolding(crate::specs::Handled::replies, exchange_hours::specs::Sessions::session))]
pub fn trades()
    ensures { replies usual_book
        (command.Mark (minute 1) spider (bar 0 100 100 98 100)
        ∷ command.Submit (minute 1) (ask Limit (pos 10) (Some (price 99)))
        ∷ command.Match (minute 1)
        ∷ command.Match (minute 2)
        ∷ command.Mark (minute 2) spider (bar 1 100 100 98 100)
        ∷ command.Match (minute 2)
        ∷ command.Submit (minute 2) (ask Market (negsuc 9) None)
        ∷ command.Account (minute 2) ∷ [])
        ≡ reply.Done
        ∷ event 1 1 (Some spider) (what.Submitted Limit (record { 0 = pos 10 }) (Some (price 99)) None) ∷ reply.Done
        ∷ reply.Done
        ∷ reply.Done
        ∷ reply.Done
        ∷ event 2 1 (Some spider) (what.Filled (record {
          symbol = spider;
          quantity = record { 0 = pos 10 };
          price = price 99;
          fee = record { 0 = pos 10 };
        })) ∷ reply.Done
        ∷ event 2 2 (Some spider) (what.Submitted Market (record { 0 = negsuc 9 }) None None)
        ∷ event 2 2 (Some spider) (what.Filled (record {
          symbol = spider;
          quantity = record { 0 = negsuc 9 };
          price = price 98;
          fee = record { 0 = pos 10 };
        }))
        ∷ reply.Done
        ∷ reply.Account (record { 0 = pos 9999970 }) (record { 0 = pos 9999970 }) ∷ reply.Done ∷ [] }
{}

/// A stop-limit order is refused without its limit. A bar triggers the other one and does not fill it, an update of its stop
/// leaves it triggered, and the next bar fills it below the new stop.
#[tactic(auto, unfolding(crate::specs::Handled::replies, exchange_hours::specs::Sessions::session))]
pub fn stop_limits()
    ensures { replies usual_book
        (command.Mark (minute 1) spider (bar 0 100 100 100 100)
        ∷ command.Submit (minute 1) (ask StopLimit (pos 10) (Some (price 102)))
        ∷ command.Submit (minute 1) (ask_stop_limit (pos 10) 102 101)
        ∷ command.Mark (minute 2) spider (bar 1 101 103 100 102)
        ∷ command.Match (minute 2)
        ∷ command.Update (minute 2) 2 (price 200)
        ∷ command.Mark (minute 3) spider (bar 2 102 102 100 100)
        ∷ command.Match (minute 3) ∷ [])
        ≡ reply.Done
        ∷ event 1 1 (Some spider) (what.Invalid cause.PriceForm) ∷ reply.Done
        ∷ event 1 2 (Some spider) (what.Submitted StopLimit (record { 0 = pos 10 }) (Some (price 102)) (Some (price 101)))
        ∷ reply.Done
        ∷ reply.Done
        ∷ reply.Done
        ∷ event 2 2 (Some spider) (what.Updated (price 200)) ∷ reply.Done
        ∷ reply.Done
        ∷ event 3 2 (Some spider) (what.Filled (record {
          symbol = spider;
          quantity = record { 0 = pos 10 };
          price = price 101;
          fee = record { 0 = pos 10 };
        })) ∷ reply.Done ∷ [] }
{}
