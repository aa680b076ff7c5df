//! An algorithm is a strategy: what a core does from moment to moment is what the strategy means.
ghost use Rattle.std.specs.Prelude.{◌≡◌, ◌↔◌, true, ℤ, List, ◌++◌, ◌∷◌, [], filter_map};
ghost use Rattle.lean_fixed.specs.Ranges.{IsMoney};
ghost use Rattle.clock_run.specs.Moments.{equity_told};
ghost use Rattle.report_stats.specs.Stands.{StandsFor as StatsStand};
ghost use Rattle.backtest_engine.specs.Algorithms.{core_phase_of};
ghost use Rattle.backtest_engine.specs.Named.{symbol_in};
ghost use Rattle.backtest_engine.specs.PlayingLaws.{stop_of, HasEquity};

use crate::algorithm::Algorithm;
use crate::changes::Changes;
use crate::limits::{Limit, Stop};
use crate::phase::Phase;
use crate::strategy::Strategy;
use backtest_core::{Phase as CorePhase, Stop as CoreStop};
use exchange_hours::laws::closings;
use lean_fixed::{Moment, Money, NoMemory, Symbol};
use lean_items::{Arrival, FeedKey, FeedKind, FeedNo};
use lean_orders::{Command, Heard, Reply};
use order_book::Book;
use report_stats::Stats;

/// The most money, either way.
const MOST_MONEY: i128 = 1_000_000_000_000_000_000_000_000_000_000;

impl Strategy for Algorithm {
    ghost use Rattle.std.specs.Prelude.{◌≡◌, ◌+◌};
    ghost use Rattle.backtest_core.specs.Core.{others_of, requests_of};
    ghost use Rattle.backtest_engine.specs.Algorithms.{Own};
    ghost use Rattle.backtest_engine.specs.Meets.{IsMet};
    ghost use Rattle.backtest_engine.specs.Playing.{Between, Within};
    ghost use Rattle.backtest_engine.specs.PlayingLaws.{few_requests, behind_phase, said_behind, rests_idle};

    ghost Own = { Own };

    ghost stands = { λ a m s keys. Between a m s keys };

    ghost plays = { λ a m turn cs rs. Within a m turn cs rs };

    ghost meets = { λ m t slice s. IsMet t slice s };

    ghost text = { λ a. a.core.text.items };

    ghost left = { λ a. others_of a.core + requests_of a.core };

    ghost orders = { λ a. requests_of a.core };

    ghost few_orders = { λ a. few_requests a };

    ghost passes = { λ a m turn cs rs plays finished next. behind_phase a m turn cs rs plays finished next };

    ghost says = { λ a m turn cs rs plays finished. said_behind a m turn cs rs plays finished };

    ghost idle = { λ a m s t stands met none. rests_idle a m s t stands met none };

    fn named(&mut self, key: &FeedKey, feed: FeedNo) -> Result<(), NoMemory> {
        match symbol_in(&key.kind) {
            None => Ok(()),
            Some(symbol) => self.core.named(symbol, feed),
        }
    }

    fn arrive(&mut self, at: Moment, slice: &[Arrival]) -> Result<(), Stop> {
        match self.core.arrive(at, slice) {
            Ok(()) => Ok(()),
            Err(stop) => Err(stop_of(stop)),
        }
    }

    fn next_command(&mut self, phase: Phase) -> Result<Option<Command>, Stop> {
        match self.core.next_command(core_phase_of(phase)) {
            Ok(command) => Ok(command),
            Err(stop) => Err(stop_of(stop)),
        }
    }

    fn hear(&mut self, heard: &Heard) -> Result<(), NoMemory> {
        match self.core.hear(heard) {
            Ok(()) => {
                tell_close(&mut self.stats, &heard.reply);
                Ok(())
            }
            Err(NoMemory) => Err(NoMemory),
        }
    }

    fn close_moment(&mut self) -> Result<Changes, NoMemory> {
        match self.core.close_moment() {
            Ok(changes) => Ok(Changes {
                added: changes.added,
                removed: changes.removed,
            }),
            Err(NoMemory) => Err(NoMemory),
        }
    }

    fn text(&self) -> &[u8] {
        self.core.text()
    }

    fn next_close(&self, after: Moment, until: Moment) -> Option<Moment> {
        closings();
        self.hours.close_next(after, until)
    }

    fn summary(&self, book: &Book, out: &mut Vec<u8>) -> Result<(), NoMemory> {
        match self.stats.summary(self.alloc, book, out) {
            Ok(()) => Ok(()),
            Err(NoMemory) => Err(NoMemory),
        }
    }
}

// The symbol of the security whose bars a feed reads. The coarse feed has none.
fn symbol_in(kind: &FeedKind) -> Option<Symbol>
    ensures { result ≡ symbol_in kind.now }
{
    match *kind {
        FeedKind::Coarse => None,
        FeedKind::Equity(symbol, _) => Some(symbol),
    }
}

// A limit of a core is a limit of the run.
fn stop_of(stop: CoreStop) -> Stop
    ensures { result ≡ stop_of stop }
{
    match stop {
        CoreStop::NoMemory => Stop::NoMemory,
        CoreStop::Requests => Stop::Limited(Limit::Requests),
        CoreStop::Securities => Stop::Limited(Limit::Securities),
    }
}

fn core_phase_of(phase: Phase) -> CorePhase
    ensures { result ≡ core_phase_of phase }
{
    match phase {
        Phase::Prices => CorePhase::Prices,
        Phase::Rules => CorePhase::Rules,
        Phase::Close => CorePhase::Close,
    }
}

// The equity of a close line is told. One that is no money is passed over.
fn tell_close(stats: &mut Stats, reply: &Reply)
    ensures { (start : ℤ) (equities : List ℤ) → StatsStand stats.old start equities → HasEquity reply.now
        → StatsStand stats.new start (equities ++ filter_map equity_told (reply.now ∷ [])) }
{
    match reply {
        Reply::Event(_) => {}
        Reply::Account(_, equity) => tell_equity(stats, *equity),
        Reply::Done => {}
    }
}

fn tell_equity(stats: &mut Stats, equity: Money)
    ensures { (start : ℤ) (equities : List ℤ) → StatsStand stats.old start equities → IsMoney equity.0
        → StatsStand stats.new start (equities ++ equity.0 ∷ []) }
{
    if is_money(equity) {
        stats.close(equity);
    }
}

fn is_money(money: Money) -> bool
    ensures { (result ≡ true) ↔ IsMoney money.0 }
{
    -MOST_MONEY <= money.0 && money.0 <= MOST_MONEY
}
