ghost use Rattle.std.specs.Prelude.{◌≤◌, ◌-◌, vec_len};
ghost use Rattle.lean_fixed.specs.Ranges.{IsPrintedMoment};
ghost use Rattle.clock_run.specs.Moments.{most_requests};
ghost use Rattle.backtest_core.specs.Phases.{AreOf, AreOf-prop, asks_in, most_left};

use crate::Phase;
use lean_fixed::Moment;
use lean_orders::Command;

/// The commands of a moment, phase by phase.
#[derive(Drop)]
pub struct Commands {
    pub at: Moment,
    /// The phase that has begun.
    pub phase: Option<Phase>,
    /// The commands of the phase.
    pub list: Vec<Command>,
    /// How many of them were given.
    pub given: usize,
    /// Whether there is no room for a request behind them.
    pub over: bool,
    /// How many requests were given since the run began.
    pub requests: u32,
    pub ghost timed: { IsPrintedMoment at.0 },
    pub ghost within: { given ≤ vec_len list },
    pub ghost sound: { AreOf at.0 (asks_in phase) list.items } by { AreOf-prop at.0 (asks_in phase) list.items },
    pub ghost few: { requests ≤ most_requests },
    pub ghost room: { vec_len list - given ≤ most_left phase requests },
}
