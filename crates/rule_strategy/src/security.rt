ghost use Rattle.std.specs.Prelude.{◌≡◌, []};
ghost use Rattle.toml.specs.View.{view, table_view, items_view};
ghost use Rattle.rule_strategy.specs.Answers.{Gives};
ghost use Rattle.rule_strategy.specs.Securities.{bars, security, security_keys, next_security, securities, securities_from};
ghost use Rattle.rule_strategy.specs.Tables.{only};

use crate::table::{
    array_at, check_keys, flag_at, new_symbol_at, period_if, resolution_at, table_in,
};
use crate::{PlanFault, Securities};
use lean_fixed::{Resolution, Symbol};
use std::alloc::Global;
use toml::{Table, Value};

/// The most securities that a file lists.
const MOST_SECURITIES: usize = 256;

/// The keys of a security.
const KEYS: [&str; 4] = ["symbol", "resolution", "fill-forward", "period"];

/// A security that the run follows from its start, after LEAN's topics "Requesting Data" and "Fill Forward".
#[derive(Clone, Copy)]
pub struct Security {
    pub symbol: Symbol,
    /// The files that its bars come from.
    pub resolution: Resolution,
    /// Whether the last bar is repeated, without volume, where its file has none.
    pub fill: bool,
    /// The minutes of the bars that the rules see, where they are longer than those of the file: a number that divides
    /// 1,440, for hour bars a multiple of 60. Daily bars have none.
    pub period: Option<u32>,
}

/// Which bars a security has: the keys that a security shares with a universe.
#[derive(Clone, Copy)]
pub(crate) struct Bars {
    pub resolution: Resolution,
    pub fill: bool,
    pub period: Option<u32>,
}

#[tactic(auto, unfolding(crate::specs::Securities::bars))]
pub(crate) fn read_bars(table: &Table) -> Result<Bars, PlanFault>
    ensures { Gives (λ b. b) (bars (table_view table.now)) result }
{
    let resolution = resolution_at(table, "resolution")?;
    let fill = flag_at(table, "fill-forward", true)?;
    let period = period_if(table, "period", resolution)?;
    Ok(Bars {
        resolution,
        fill,
        period,
    })
}

/// The securities of a file, which has none where it has no array of them.
#[tactic(auto, unfolding(crate::specs::Securities::securities))]
pub(crate) fn read_securities(alloc: Global, table: &Table) -> Result<Securities, PlanFault>
    ensures { Gives (λ s. s) (securities (table_view table.now)) result }
{
    let items = array_at(table, "securities", MOST_SECURITIES)?;
    let securities = read_each(alloc, items)?;
    Ok(Securities(securities))
}

#[tactic(auto, unfolding(crate::specs::Securities::securities_from))]
fn read_each(alloc: Global, items: &[Value]) -> Result<Vec<Security>, PlanFault>
    ensures { Gives (λ v. v.items) (securities_from [] (items_view items.now)) result }
{
    let mut out = Vec::new(alloc);
    for value in items {
        match next_security(alloc, value, &out) {
            Ok(next) => out.push(next)?,
            Err(fault) => return Err(fault),
        }
    }
    Ok(out)
}

#[tactic(auto, unfolding(crate::specs::Securities::next_security))]
fn next_security(alloc: Global, value: &Value, earlier: &[Security]) -> Result<Security, PlanFault>
    ensures { Gives (λ s. s) (next_security earlier.now (view value.now)) result }
{
    let table = table_in(value, "securities")?;
    read_security(alloc, table, earlier)
}

#[tactic(auto, unfolding(crate::specs::Securities::security))]
fn read_security(alloc: Global, table: &Table, earlier: &[Security]) -> Result<Security, PlanFault>
    ensures { Gives (λ s. s) (security earlier.now (table_view table.now)) result }
{
    check(alloc, table)?;
    let symbol = new_symbol_at(table, "symbol", earlier)?;
    let bars = read_bars(table)?;
    Ok(Security {
        symbol,
        resolution: bars.resolution,
        fill: bars.fill,
        period: bars.period,
    })
}

fn check(alloc: Global, table: &Table) -> Result<(), PlanFault>
    ensures { Gives (λ u. u) (only security_keys (table_view table.now)) result }
{
    check_keys(alloc, table, &KEYS)
}
