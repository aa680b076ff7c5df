use backtest_core::Core;
use exchange_hours::Hours;
use report_stats::Stats;
use std::alloc::Global;
use std::sync::Arc;

/// What a plan does, moment by moment: its core, by the hours of the exchange, and the statistics of its close lines.
#[derive(Drop)]
pub struct Algorithm {
    pub(crate) alloc: Global,
    pub(crate) core: Core,
    pub(crate) hours: Arc<Hours>,
    pub(crate) stats: Stats,
}
