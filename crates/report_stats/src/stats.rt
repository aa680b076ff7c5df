ghost use Rattle.lean_fixed.specs.Ranges.{IsMoney};

use lean_fixed::Money;

/// The equities of the close lines of a backtest, of which the greatest and the drawdown are kept. All money is in 1/10000
/// dollar.
#[derive(Clone, Copy)]
pub struct Stats {
    pub(crate) start: Money,
    // the greatest of the starting cash and the equities
    pub(crate) peak: Money,
    // the greatest amount by which an equity lay below the greatest before it
    pub(crate) drawdown: Money,
    ghost started: { IsMoney start.0 },
    ghost peaks: { IsMoney peak.0 },
}
