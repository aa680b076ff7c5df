ghost use Rattle.backtest_core.specs.Following.{IsPeriodIn};

use lean_fixed::{Moment, Resolution, Symbol};

/// A security that waits for the number of its feed.
#[derive(Clone, Copy)]
pub struct Waiting {
    pub symbol: Symbol,
    /// Whether the plan lists it.
    pub listed: bool,
    pub resolution: Resolution,
    /// Whether its feed fills forward.
    pub fill: bool,
    /// Its feed gives what ends after this moment.
    pub start: Moment,
    /// The minutes of its longer bars, where it has a period.
    pub period: Option<u32>,
    pub ghost lasts: { IsPeriodIn period },
}
