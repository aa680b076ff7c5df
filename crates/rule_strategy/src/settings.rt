ghost use Rattle.std.specs.Prelude.{◌≡◌, ◌≤◌, pos};
ghost use Rattle.toml.specs.View.{table_view};
ghost use Rattle.rule_strategy.specs.Answers.{Gives};
ghost use Rattle.rule_strategy.specs.Settings.{days, window, costs, settings, money};

use crate::table::{amount_at, day_at, whole_at};
use crate::{KeyText, PlanFault};
use lean_fixed::{Day, Money, Window};
use toml::Table;
use trade_costs::Costs;

/// The most days of a run.
const MOST_DAYS: u32 = 20_000;

/// The settings at the top of a file.
#[derive(Clone, Copy)]
pub(crate) struct Settings {
    pub window: Window,
    pub cash: Money,
    pub leverage: u32,
    pub costs: Costs,
}

#[tactic(auto, unfolding(crate::specs::Settings::settings))]
pub(crate) fn read_settings(table: &Table) -> Result<Settings, PlanFault>
    ensures { Gives (λ s. s) (settings (table_view table.now)) result }
{
    let window = read_window(table)?;
    let cash = amount_at(table, "cash", 1, 100_000_000_000_000_000_000, None)?;
    let leverage = whole_at(table, "leverage", 1, 100, Some(2))?;
    let costs = read_costs(table)?;
    Ok(settings_of(window, cash, leverage, costs))
}

fn settings_of(window: Window, cash: u128, leverage: u64, costs: Costs) -> Settings
    requires cash { cash ≤ 100000000000000000000 }
    requires leverage { leverage ≤ 100 }
    ensures { result ≡ record { window = window; cash = money cash; leverage = leverage; costs = costs } }
{
    Settings {
        window,
        cash: Money(cash as i128),
        leverage: leverage as u32,
        costs,
    }
}

#[tactic(auto, unfolding(crate::specs::Settings::window))]
fn read_window(table: &Table) -> Result<Window, PlanFault>
    ensures { Gives (λ w. w) (window (table_view table.now)) result }
{
    let first = day_at(table, "start")?;
    let last = day_at(table, "end")?;
    days(first, last)
}

fn days(first: u32, last: u32) -> Result<Window, PlanFault>
    requires first { first ≤ 84004 }
    requires last { last ≤ 84004 }
    ensures { Gives (λ w. w) (days first last) result }
{
    if last < first {
        return Err(PlanFault::Value(KeyText::known("end")));
    }
    if last - first + 1 > MOST_DAYS {
        return Err(PlanFault::Limit(KeyText::known("end")));
    }
    Ok(window_of(first, last))
}

fn window_of(first: u32, last: u32) -> Window
    requires first { first ≤ 84004 }
    requires last { last ≤ 84004 }
    ensures { result ≡ record { first = record { 0 = pos first }; last = record { 0 = pos last } } }
{
    Window {
        first: Day(first as i32),
        last: Day(last as i32),
    }
}

#[tactic(auto, unfolding(crate::specs::Settings::costs))]
fn read_costs(table: &Table) -> Result<Costs, PlanFault>
    ensures { Gives (λ c. c) (costs (table_view table.now)) result }
{
    let per_share = amount_at(table, "fee-per-share", 0, 1_000_000, Some(0))?;
    let least = amount_at(table, "fee-minimum", 0, 10_000_000_000, Some(0))?;
    let slip = whole_at(table, "slippage", 0, 1_000_000, Some(0))?;
    Ok(costs_of(per_share, least, slip))
}

fn costs_of(per_share: u128, least: u128, slip: u64) -> Costs
    requires per_share { per_share ≤ 1000000 }
    requires least { least ≤ 10000000000 }
    requires slip { slip ≤ 1000000 }
    ensures { result ≡ record { per_share = money per_share; least = money least; slip = pos slip } }
{
    Costs {
        per_share: Money(per_share as i128),
        least: Money(least as i128),
        slip: slip as i64,
    }
}
