ghost use Rattle.std.specs.Prelude.{◌≡◌, ◌≤◌, pos};
ghost use Rattle.toml.specs.View.{table_view};
ghost use Rattle.rule_strategy.specs.Answers.{Gives};
ghost use Rattle.rule_strategy.specs.Tables.{only};
ghost use Rattle.rule_strategy.specs.Universe.{selection, universe, universe_table, universe_keys};

use crate::PlanFault;
use crate::security::read_bars;
use crate::table::{amount_at, check_keys, table_in, value_at, whole_at};
use lean_fixed::{Price, Resolution, Shares};
use std::alloc::Global;
use toml::Table;
use universe_rules::UniverseRule;

/// The keys of a universe.
const KEYS: [&str; 7] = [
    "resolution",
    "fill-forward",
    "period",
    "top",
    "min-price",
    "min-volume",
    "min-dollar-volume",
];

/// The securities that are selected day by day from the coarse files, after LEAN's topic "Coarse Universe".
#[derive(Clone, Copy)]
pub struct UniversePlan {
    /// The files that the bars of a selected security come from.
    pub resolution: Resolution,
    /// Whether the last bar is repeated, without volume, where its file has none.
    pub fill: bool,
    /// As of a security that is listed.
    pub period: Option<u32>,
    /// Which securities are selected.
    pub rule: UniverseRule,
}

/// The universe of a file, where it has one.
#[tactic(auto, unfolding(crate::specs::Universe::universe))]
pub(crate) fn read_universe(alloc: Global, table: &Table) -> Result<Option<UniversePlan>, PlanFault>
    ensures { Gives (λ u. u) (universe (table_view table.now)) result }
{
    match value_at(table, "universe") {
        None => Ok(None),
        Some(value) => {
            let table = table_in(value, "universe")?;
            let universe = read_table(alloc, table)?;
            Ok(Some(universe))
        }
    }
}

#[tactic(auto, unfolding(crate::specs::Universe::universe_table))]
fn read_table(alloc: Global, table: &Table) -> Result<UniversePlan, PlanFault>
    ensures { Gives (λ u. u) (universe_table (table_view table.now)) result }
{
    check(alloc, table)?;
    let bars = read_bars(table)?;
    let rule = read_selection(table)?;
    Ok(UniversePlan {
        resolution: bars.resolution,
        fill: bars.fill,
        period: bars.period,
        rule,
    })
}

fn check(alloc: Global, table: &Table) -> Result<(), PlanFault>
    ensures { Gives (λ u. u) (only universe_keys (table_view table.now)) result }
{
    check_keys(alloc, table, &KEYS)
}

#[tactic(auto, unfolding(crate::specs::Universe::selection))]
fn read_selection(table: &Table) -> Result<UniverseRule, PlanFault>
    ensures { Gives (λ r. r) (selection (table_view table.now)) result }
{
    let top = whole_at(table, "top", 1, 256, None)?;
    let price = amount_at(table, "min-price", 0, 10_000_000_000, Some(0))?;
    let volume = whole_at(table, "min-volume", 0, 1_000_000_000_000_000, Some(0))?;
    let dollars = whole_at(
        table,
        "min-dollar-volume",
        0,
        1_000_000_000_000_000,
        Some(0),
    )?;
    Ok(selection_of(top, price, volume, dollars))
}

fn selection_of(top: u64, price: u128, volume: u64, dollars: u64) -> UniverseRule
    requires top { top ≤ 256 }
    requires price { price ≤ 10000000000 }
    requires volume { volume ≤ 1000000000000000 }
    requires dollars { dollars ≤ 1000000000000000 }
    ensures { result ≡ record {
      top = top;
      min_price = record { 0 = pos price };
      min_volume = record { 0 = pos volume };
      min_dollars = pos dollars;
    } }
{
    UniverseRule {
        top: top as u32,
        min_price: Price(price as i64),
        min_volume: Shares(volume as i64),
        min_dollars: dollars as i64,
    }
}
