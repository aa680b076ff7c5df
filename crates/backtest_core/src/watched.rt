ghost use Rattle.std.specs.Prelude.{◌≡◌, true};
ghost use Rattle.std.specs.Option.{ForSome};
ghost use Rattle.lean_items.specs.Fits.{is_bar_in_range};
ghost use Rattle.backtest_core.specs.Following.{period_in, EndsFrom, IsPeriodIn};

use crate::following::Following;
use lean_fixed::{Moment, Symbol};
use lean_items::{Bar, FeedNo};

/// An active security: who it is, what its feed has given, and its bars at the moment.
#[derive(Drop)]
pub struct Watched {
    pub symbol: Symbol,
    pub feed: FeedNo,
    /// Whether the plan lists it.
    pub listed: bool,
    /// Whether it leaves once nothing is held of it and no order of it is live.
    pub marked: bool,
    /// The minutes of its longer bars, where it has a period.
    pub period: Option<u32>,
    pub following: Following,
    /// When its last bar ended.
    pub until: Moment,
    /// The bar that ends at the moment.
    pub ended: Option<Bar>,
    /// The last bar that is given at the moment.
    pub fresh: Option<Bar>,
    pub ghost period_is: { period ≡ period_in following.longer },
    pub ghost lasts: { IsPeriodIn period },
    pub ghost sound: { ForSome ended (λ bar. is_bar_in_range bar ≡ true) },
    pub ghost ends: { EndsFrom until.0 following.longer },
}
