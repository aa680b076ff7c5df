ghost use Rattle.std.specs.Prelude.{◌≡◌, IfOk};
ghost use Rattle.toml.specs.View.{table_view};
ghost use Rattle.rule_strategy.specs.Answers.{Gives};
ghost use Rattle.rule_strategy.specs.PlanFile.{plan, plan_of_table, table_in, top_keys};
ghost use Rattle.rule_strategy.specs.Tables.{only};
ghost use Rattle.rule_strategy.specs.Validity.{IsPlan};

use crate::rule::read_rules;
use crate::security::read_securities;
use crate::settings::read_settings;
use crate::table::check_keys;
use crate::universe::read_universe;
use crate::{PlanFault, Rules, Securities, UniversePlan, laws};
use lean_fixed::{Money, Window};
use std::alloc::Global;
use std::str;
use toml::Table;
use trade_costs::Costs;

/// The keys at the top of a file.
const KEYS: [&str; 10] = [
    "start",
    "end",
    "cash",
    "leverage",
    "fee-per-share",
    "fee-minimum",
    "slippage",
    "securities",
    "universe",
    "rules",
];

/// What an algorithm file asks for, whole.
#[derive(Drop)]
pub struct Plan {
    /// The days of the run, 1 to 20,000 of them.
    pub window: Window,
    /// The cash with which the run starts, from 1 to 10^20.
    pub cash: Money,
    /// How many times its own money the run may hold in shares, from 1 to 100.
    pub leverage: u32,
    /// What trades cost.
    pub costs: Costs,
    /// At most 256 securities, whose symbols differ.
    pub securities: Securities,
    /// What selects further securities day by day.
    pub universe: Option<UniversePlan>,
    /// At most 64 rules.
    pub rules: Rules,
}

impl Plan {
    /// The plan that an algorithm file is. The first fault is the answer, in this order: `Toml`; then the top table in the
    /// order of its keys, each table in it at its place; then the expressions of the rules in order, of each rule `when`,
    /// `quantity`, `price` and `limit`. Of a table first its unknown keys are sought, by byte order, and then its known
    /// keys in the order of the format: whether a required one is `Missing`, whether its `Value` is of another kind or out
    /// of range, and whether it is over a `Limit`. `NoMemory` comes for want of memory alone.
    pub fn read(alloc: Global, bytes: &[u8]) -> Result<Plan, PlanFault>
        ensures value { Gives (λ p. p) (plan bytes.now) result }
        ensures valid { IfOk result IsPlan }
    {
        laws::plans_are_valid();
        read_document(alloc, bytes)
    }
}

#[tactic(auto, unfolding(crate::specs::PlanFile::plan), using(crate::proofs::TextLemmas::utf8_tests))]
fn read_document(alloc: Global, bytes: &[u8]) -> Result<Plan, PlanFault>
    ensures { Gives (λ p. p) (plan bytes.now) result }
{
    let Ok(text) = str::from_utf8(bytes) else {
        return Err(PlanFault::Toml);
    };
    match toml::table_from_str(alloc, text) {
        Ok(table) => read_top(alloc, &table),
        Err(error) => Err(if error.is_memory() {
            PlanFault::NoMemory
        } else {
            PlanFault::Toml
        }),
    }
}

#[tactic(auto, unfolding(crate::specs::PlanFile::plan_of_table))]
fn read_top(alloc: Global, table: &Table) -> Result<Plan, PlanFault>
    ensures { Gives (λ p. p) (plan_of_table (table_view table.now)) result }
{
    check(alloc, table)?;
    let settings = read_settings(table)?;
    let securities = read_securities(alloc, table)?;
    let universe = read_universe(alloc, table)?;
    let rules = read_rules(alloc, table)?;
    Ok(Plan {
        window: settings.window,
        cash: settings.cash,
        leverage: settings.leverage,
        costs: settings.costs,
        securities,
        universe,
        rules,
    })
}

fn check(alloc: Global, table: &Table) -> Result<(), PlanFault>
    ensures { Gives (λ u. u) (only top_keys (table_view table.now)) result }
{
    check_keys(alloc, table, &KEYS)
}
