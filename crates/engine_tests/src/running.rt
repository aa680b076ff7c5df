//! The dots of a run over any pool, with a desk whose book handles each command at once.
ghost use Rattle.std.specs.Prelude.{◌≡◌, ◌≤◌, List, [], ◌∷◌, Some, length, false};
ghost use Rattle.std.specs.List.{All};
ghost use Rattle.lean_fixed.specs.Ranges.{IsMoment};
ghost use Rattle.lean_io.specs.Told.{Rose};
ghost use Rattle.lean_items.specs.declared.feed_key.FeedKey.{FeedKey as Key};
ghost use Rattle.lean_items.specs.declared.item.Item.{Item};
ghost use Rattle.lean_items.specs.Taken.{Start, Feeds, AllFollow, no_feeds};
ghost use Rattle.clock_book.specs.Books.{Book as ClockBook};
ghost use Rattle.order_book.specs.Kept.{order_count};
ghost use Rattle.order_book.specs.Stands.{StandsFor};
ghost use Rattle.backtest_engine.specs.Stands.{AreLists};
ghost use Rattle.backtest_engine.specs.Reported.{IsOpening, IsReport};
ghost use Rattle.engine_tests.specs.Dots.{dots};

use crate::dots::Dots;
use backtest_engine::{Ended, run_strategy};
use lean_io::Sink;
use lean_items::{FeedKey, Pool};
use order_book::Book;
use order_desk::SerialDesk;
use std::alloc::Global;

/// Runs the strategy over the feeds of some keys from the first minute to the last one.
pub fn run_dots<P: Pool, S: Sink>(
    alloc: Global,
    pool: &mut P,
    book: Book,
    opening: &[FeedKey],
    first: u32,
    last: u32,
    out: &mut S,
) -> Ended
    requires order { first ≤ last }
    requires last { last ≤ 120970080 }
    requires new { P.added pool.old ≡ 0 }
    requires stands { (s : ClockBook) × StandsFor book s }
    requires count { order_count book ≡ 0 }
    requires few { length opening.now ≤ 1000 }
    requires starts { All (λ key. IsMoment key.start.0) opening.now }
    ensures told { (before : Start) (lists : Key → List Item) (b : ClockBook)
        → P.stands pool.old before no_feeds → P.lists pool.old ≡ Some lists → AreLists lists → StandsFor book b
        → IsOpening dots false first opening.now (record { own = opening.now; book = b }) b
        → (now : Feeds) × AllFollow lists now
        × IsReport dots lists first last (record { own = opening.now; book = b }) false now (S.told out.old) (S.told out.new) result }
    ensures read { (before : Start) → P.stands pool.old before no_feeds
        → result ≡ Ended.ReadFault → Rose before.faults (P.faults pool.new) }
{
    let mut strategy = Dots::new(alloc);
    let desk = SerialDesk::new(alloc, book);
    run_strategy(
        alloc,
        &mut strategy,
        pool,
        desk,
        opening,
        false,
        first,
        last,
        out,
    )
}
