ghost use Rattle.std.specs.Prelude.{◌≡◌};
ghost use Rattle.universe_rules.specs.Passing.{passes};

use lean_fixed::{Price, Shares};
use lean_items::CoarseRow;

/// Which securities a universe selects: the first `top` by dollars traded of those that reach the three minima.
#[derive(Clone, Copy, Debug, PartialEq, Eq)]
pub struct UniverseRule {
    /// How many are selected at most.
    pub top: u32,
    /// The least close, in 1/10000 dollar.
    pub min_price: Price,
    /// The least number of shares traded.
    pub min_volume: Shares,
    /// The least amount traded, in whole dollars.
    pub min_dollars: i64,
}

// Whether a row reaches the minima of a rule.
pub(crate) fn passes(rule: &UniverseRule, row: &CoarseRow) -> bool
    ensures { result ≡ passes rule.now row.now }
{
    rule.min_price.0 <= row.close.0
        && rule.min_volume.0 <= row.volume.0
        && rule.min_dollars <= row.dollars
}
