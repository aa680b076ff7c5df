ghost use Rattle.std.specs.Prelude.{◌≤◌, ◌+◌, vec_len, All};
ghost use Rattle.std.specs.Option.{ForSome};
ghost use Rattle.bar_windows.specs.Kept.{IsLength};
ghost use Rattle.universe_state.specs.Choice.{most_active};
ghost use Rattle.backtest_core.specs.Following.{IsPeriodIn};

use crate::commands::Commands;
use crate::mirror::Mirror;
use crate::places::WindowTable;
use crate::waiting::Waiting;
use crate::watched::Watched;
use exchange_hours::Hours;
use lean_fixed::Symbol;
use lean_orders::Command;
use rule_strategy::{Plan, RuleView};
use std::alloc::Global;
use std::sync::Arc;

/// The decisions of a backtest, moment by moment: bars and coarse rows in, commands out, replies in, lines out. No file, no
/// thread and no clock stands in it, and it sees nothing that was not told.
///
/// A moment is one `arrive`, then the commands of its phases (`next_command`), the replies of each phase before the next
/// (`hear`), and one `close_moment`. The feeds that are added get their numbers (`named`) before the next moment.
#[derive(Drop)]
pub struct Core {
    pub(crate) alloc: Global,
    pub(crate) plan: Plan,
    pub(crate) hours: Arc<Hours>,
    /// The windows of the plan's rules.
    pub(crate) table: WindowTable,
    /// What an expression reads, filled anew for each.
    pub(crate) view: RuleView,
    /// The active securities, in the order of the numbers of their feeds.
    pub(crate) watched: Vec<Watched>,
    /// Those that wait for their numbers.
    pub(crate) waiting: Vec<Waiting>,
    /// The symbols that are added at the moment.
    pub(crate) news: Vec<Symbol>,
    pub(crate) mirror: Mirror,
    pub(crate) commands: Commands,
    /// Where the commands of the next phase are put together.
    pub(crate) asked: Vec<Command>,
    /// The lines of the moment.
    pub(crate) text: Vec<u8>,
    pub(crate) ghost lengths: { All (λ spec. IsLength spec.length) table.specs.items },
    pub(crate) ghost periods: { ForSome plan.universe (λ universe. IsPeriodIn universe.period) },
    pub(crate) ghost few: { vec_len watched + vec_len waiting + vec_len news ≤ most_active },
}
