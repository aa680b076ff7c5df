//! Securities wait for the numbers of their feeds, and are watched from then on.
ghost use Rattle.std.specs.Prelude.{◌≡◌, ◌^◌, [], ℕ, pos, neg_ℤ, map, length, vec_len, ◌+◌, ◌++◌, ◌∷◌, All, IfOk, OnOk};
ghost use Rattle.exchange_hours.specs.Sessions.{moment};
ghost use Rattle.bar_windows.specs.Kept.{IsLength};
ghost use Rattle.clock_run.specs.States.{listed, joining};
ghost use Rattle.rule_strategy.specs.Validity.{IsSecurity};
ghost use Rattle.backtest_core.specs.Following.{period_in, LongerStands, EndsFrom, IsPeriodIn};
ghost use Rattle.backtest_core.specs.Standing.{with_feed};
ghost use Rattle.backtest_core.specs.Waiting.{key_in, subscription_in, subscriptions_in};
ghost use Rattle.backtest_core.specs.Watching.{Watches};
ghost use Rattle.backtest_core.specs.Asking.{HasWindows};

use crate::following::Following;
use crate::waiting::Waiting;
use crate::watched::Watched;
use bar_windows::{WindowSpec, Windows};
use consolidators::Consolidator;
use lean_fixed::{Moment, NoMemory, Symbol};
use lean_items::{FeedKey, FeedKind, FeedNo};
use rule_strategy::{Security, UniversePlan};
use std::alloc::Global;

impl Waiting {
    /// A security that the plan lists waits to be followed from the first moment on.
    pub(crate) fn listed(security: &Security, start: Moment) -> Waiting
        requires { IsPeriodIn security.now.period }
        ensures { (t : ℕ) → start ≡ moment t → subscription_in result ≡ listed t 0 security.now }
    {
        Waiting {
            symbol: security.symbol,
            listed: true,
            resolution: security.resolution,
            fill: security.fill,
            start,
            period: security.period,
        }
    }

    /// A security of the universe waits to be followed from the moment of its choice on.
    pub(crate) fn joining(universe: &UniversePlan, at: Moment, symbol: Symbol) -> Waiting
        requires { IsPeriodIn universe.now.period }
        ensures { (t : ℕ) → at ≡ moment t → subscription_in result ≡ joining universe.now t 0 symbol }
    {
        Waiting {
            symbol,
            listed: false,
            resolution: universe.resolution,
            fill: universe.fill,
            start: at,
            period: universe.period,
        }
    }

    /// What its feed reads.
    pub(crate) fn key(&self) -> FeedKey
        ensures { result ≡ key_in self.now }
    {
        FeedKey {
            kind: FeedKind::Equity(self.symbol, self.resolution),
            start: self.start,
            fill: self.fill,
        }
    }

    /// It is watched under the number of its feed, with these windows.
    pub(crate) fn watch(
        &self,
        alloc: Global,
        feed: FeedNo,
        specs: &[WindowSpec],
    ) -> Result<Watched, NoMemory>
        requires { All (λ spec. IsLength spec.length) specs.now }
        ensures watches { IfOk result (λ w.
            Watches w (record { security = with_feed feed.0 (subscription_in self.now); bars = [] })) }
        ensures windows { IfOk result (HasWindows specs.now) }
    {
        let windows = Windows::new(alloc, specs)?;
        Ok(Watched {
            symbol: self.symbol,
            feed,
            listed: self.listed,
            marked: false,
            period: self.period,
            following: Following {
                longer: longer_of(self.period),
                windows,
            },
            until: Moment(i64::MIN),
            ended: None,
            fresh: None,
        })
    }
}

// Bars of a longer period, where there is one, to which no bar was pushed.
fn longer_of(period: Option<u32>) -> Option<Consolidator>
    requires { IsPeriodIn period }
    ensures period { period ≡ period_in result }
    ensures stands { LongerStands result [] }
    ensures ends { EndsFrom (neg_ℤ (pos (2 ^ 63))) result }
{
    match period {
        None => None,
        Some(minutes) => Some(Consolidator::new(minutes)),
    }
}

/// The securities that a plan lists wait from the first moment on.
pub(crate) fn wait_listed(
    alloc: Global,
    securities: &[Security],
    start: Moment,
) -> Result<Vec<Waiting>, NoMemory>
    requires { All IsSecurity securities.now }
    ensures len { IfOk result (λ waiting. vec_len waiting ≡ length securities.now) }
    ensures listed { IfOk result (λ waiting. (t : ℕ) → start ≡ moment t
        → subscriptions_in waiting.items ≡ map (listed t 0) securities.now) }
{
    let mut waiting = Vec::new(alloc);
    for security in securities {
        add_listed(security, start, &mut waiting)?;
    }
    Ok(waiting)
}

fn add_listed(security: &Security, start: Moment, out: &mut Vec<Waiting>) -> Result<(), NoMemory>
    requires { IsPeriodIn security.now.period }
    ensures len { OnOk result (vec_len out.new ≡ vec_len out.old + 1) }
    ensures listed { OnOk result ((t : ℕ) → start ≡ moment t
        → subscriptions_in out.new.items ≡ subscriptions_in out.old.items ++ listed t 0 security.now ∷ []) }
{
    out.push(Waiting::listed(security, start))?;
    Ok(())
}
