//! An algorithm begins, with the keys of the feeds that it follows from the first moment on.
ghost use Rattle.std.specs.Prelude.{◌≡◌, ◌≤◌, ◌++◌, [], ◌∷◌, ℕ, is_some, length, map, IfOk, OnOk};
ghost use Rattle.std.specs.List.{All};
ghost use Rattle.lean_fixed.specs.Moments.{first_moment};
ghost use Rattle.lean_fixed.specs.Ranges.{IsMoment};
ghost use Rattle.exchange_hours.specs.Sessions.{moment};
ghost use Rattle.rule_strategy.specs.Validity.{IsPlan, IsRun};
ghost use Rattle.clock_book.specs.Books.{new_book};
ghost use Rattle.clock_run.specs.States.{Setup, listed, coarse_keys, coarse_keys_for};
ghost use Rattle.backtest_engine.specs.Algorithms.{meaning_of, opening_state, opening_keys};
ghost use Rattle.backtest_engine.specs.Reported.{IsOpening};

use crate::algorithm::Algorithm;
use backtest_core::Core;
use exchange_hours::Hours;
use lean_fixed::{Moment, NoMemory, Window};
use lean_items::{FeedKey, FeedKind};
use report_stats::Stats;
use rule_strategy::{Plan, Security, UniversePlan};
use std::alloc::Global;
use std::sync::Arc;

impl Algorithm {
    ghost use Rattle.std.specs.Prelude.{IfOk};
    ghost use Rattle.std.specs.Arc.{arc_value};
    ghost use Rattle.rule_strategy.specs.Validity.{IsPlan};
    ghost use Rattle.backtest_engine.specs.Algorithms.{meaning_of, opening_state, opening_keys};
    ghost use Rattle.backtest_engine.specs.Playing.{Between};

    /// An algorithm before its first moment. The plan is one that was read.
    pub fn begin(alloc: Global, plan: Plan, hours: Arc<Hours>) -> Result<Algorithm, NoMemory>
        requires { IsPlan plan }
        ensures { IfOk result (λ a. Between a
            (meaning_of (record { plan = plan; hours = arc_value hours }))
            (opening_state (record { plan = plan; hours = arc_value hours }))
            (opening_keys plan)) }
    {
        let stats = Stats::new(plan.cash);
        let own = hours.clone()?;
        match Core::begin(alloc, plan, own) {
            Ok(core) => Ok(Algorithm {
                alloc,
                core,
                hours,
                stats,
            }),
            Err(NoMemory) => Err(NoMemory),
        }
    }
}

/// The keys of the feeds that a plan's algorithm follows from its first moment on.
pub(crate) fn opening_keys(alloc: Global, plan: &Plan) -> Result<Vec<FeedKey>, NoMemory>
    requires { IsPlan plan.now }
    ensures keys { IfOk result (λ keys. keys.items ≡ opening_keys plan.now) }
    ensures few { IfOk result (λ keys. length keys.items ≤ 1000) }
    ensures starts { IfOk result (λ keys. All (λ key. IsMoment key.start.0) keys.items) }
{
    let mut keys = Vec::new(alloc);
    add_coarse(&plan.universe, plan.window, &mut keys)?;
    let start = plan.window.first_moment();
    add_listed(securities_of(plan), start, &mut keys)?;
    Ok(keys)
}

fn securities_of(plan: &Plan) -> &[Security]
    ensures { result.now ≡ plan.now.securities }
{
    plan.securities.0.as_slice()
}

// The coarse feed comes first where there is a universe.
fn add_coarse(
    universe: &Option<UniversePlan>,
    window: Window,
    out: &mut Vec<FeedKey>,
) -> Result<(), NoMemory>
    requires { IsRun window }
    ensures keys { OnOk result (out.new.items ≡ out.old.items ++ coarse_keys_for window universe.now) }
{
    match universe {
        None => Ok(()),
        Some(_) => {
            let first = window.first_moment();
            out.push(FeedKey {
                kind: FeedKind::Coarse,
                start: Moment(first.0 - 1),
                fill: false,
            })?;
            Ok(())
        }
    }
}

fn add_listed(
    securities: &[Security],
    start: Moment,
    out: &mut Vec<FeedKey>,
) -> Result<(), NoMemory>
    ensures keys { OnOk result ((t : ℕ) → start ≡ moment t
        → out.new.items ≡ out.old.items ++ map (λ security. (listed t 0 security).key) securities.now) }
{
    for security in securities {
        add_key(security, start, out)?;
    }
    Ok(())
}

fn add_key(security: &Security, start: Moment, out: &mut Vec<FeedKey>) -> Result<(), NoMemory>
    ensures keys { OnOk result ((t : ℕ) → start ≡ moment t
        → out.new.items ≡ out.old.items ++ (listed t 0 security.now).key ∷ []) }
{
    out.push(FeedKey {
        kind: FeedKind::Equity(security.symbol, security.resolution),
        start,
        fill: security.fill,
    })?;
    Ok(())
}

/// The feeds of a plan's algorithm may start at its first moment: the coarse feed may give what ends then, and of a security
/// nothing ends before it.
pub fn openings()
    ensures { (setup : Setup) → IsPlan setup.plan
        → IsOpening (meaning_of setup) (is_some setup.plan.universe) (first_moment setup.plan.window)
        (opening_keys setup.plan) (opening_state setup)
        (new_book setup.plan.cash.0 setup.plan.costs setup.plan.leverage setup.hours) }
{}
