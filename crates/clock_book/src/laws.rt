//! What the replies of a book tell, and the ranges of its numbers. Each law is the contract of a function that does nothing.
ghost use Rattle.std.specs.Prelude.{◌≡◌, ℕ, ◌+◌, ◌≤◌, ℤ, List, length};
ghost use Rattle.std.specs.List.{AllByRecursion as Each, fold};
ghost use Rattle.lean_fixed.specs.Ranges.{IsLeverage, IsStartingCash};
ghost use Rattle.trade_costs.specs.declared.costs.Costs.{Costs};
ghost use Rattle.trade_costs.specs.Fees.{IsCosts};
ghost use Rattle.exchange_hours.specs.Entries.{Entries};
ghost use Rattle.lean_orders.specs.declared.desk.Command.{Command};
ghost use Rattle.clock_book.specs.Books.{Book, new_book};
ghost use Rattle.clock_book.specs.Fitting.{IsFitting, HasRoom, most_orders};
ghost use Rattle.clock_book.specs.Handled.{handled, after, replies};
ghost use Rattle.clock_book.specs.InRange.{IsInRange, HasMoney, HasNumbers, submitted, moment_of, IsReply, NamesOneOf, NamesOrder};
ghost use Rattle.clock_book.specs.Seen.{AreNumbered, given_out, learnt, seen_of};

/// Whoever hears all replies of a book knows its fills and its live orders, and so its cash and its positions, without
/// asking: what is learnt from the replies, in order, is what can be seen of the book after the commands. Ids go on counting
/// from 1.
pub fn seen_by_replies()
    ensures seen { (book : Book) (commands : List Command) → AreNumbered 1 book.orders
        → fold learnt (fold given_out (seen_of book) commands) (replies book commands)
        ≡ seen_of (after book commands) }
    ensures numbered { (book : Book) (commands : List Command) → AreNumbered 1 book.orders
        → AreNumbered 1 (after book commands).orders }
{}

/// The numbers of a book stay in their ranges, whatever it is told: of a new book they are, and after commands they are where
/// the bars of its marks were in range and at most 1,000,000 orders were submitted. What a request asks for may be any number up
/// to a bound either way; the numbers of refused orders lie within it, and those of the others in the ranges of orders. Then the
/// sums of the book are money, and its positions are positions.
pub fn numbers_stay_in_range()
    ensures begins { (most : ℕ) (start : ℤ) (costs : Costs) (leverage : ℕ) (hours : Entries)
        → IsStartingCash start → IsCosts costs → IsLeverage leverage
        → IsInRange most (new_book start costs leverage hours) }
    ensures stays { (most : ℕ) (book : Book) (commands : List Command) → IsInRange most book
        → Each (λ command. HasNumbers most command) commands
        → length book.orders + submitted commands ≤ most_orders → IsInRange most (after book commands) }
    ensures few { (most : ℕ) (book : Book) (commands : List Command) → IsInRange most book
        → Each (λ command. HasNumbers most command) commands
        → length book.orders + submitted commands ≤ most_orders
        → length (after book commands).orders ≤ length book.orders + submitted commands }
    ensures sums { (most : ℕ) (book : Book) → IsInRange most book → HasMoney book }
{}

/// What a book in range replies to such commands of a moment is in range: each event is one of that moment, what it says was
/// accepted or filled is in the ranges of orders and fills, a fill is one of the event's symbol, and an account is money. Where
/// the commands are about orders that there are, each event names an order and its symbol. Any one command that may be given to the
/// book is answered in range, whatever it asks for.
pub fn replies_are_in_range()
    ensures replies { (most : ℕ) (at : ℤ) (book : Book) (commands : List Command) → IsInRange most book
        → Each (λ command. HasNumbers most command) commands
        → length book.orders + submitted commands ≤ most_orders
        → Each (λ command. moment_of command ≡ at) commands
        → Each (λ reply. IsReply at reply) (replies book commands) }
    ensures named { (most orders : ℕ) (book : Book) (commands : List Command) → IsInRange most book
        → Each (λ command. HasNumbers most command) commands
        → length book.orders + submitted commands ≤ most_orders → orders ≤ length book.orders
        → Each (λ command. NamesOneOf orders command) commands
        → Each NamesOrder (replies book commands) }
    ensures fitting { (most : ℕ) (book : Book) (command : Command) → IsInRange most book
        → IsFitting command → HasRoom (length book.orders) command
        → Each (λ reply. IsReply (moment_of command) reply) (handled book command).replies }
{}
