//! The rows of a table: the value that stands under a key, or the first fault. There is one function for each kind of row.
ghost use Rattle.std.specs.Prelude.{◌≡◌, ◌≤◌, Bool, true, false, Some, None, Ok, Err, map, length, bytes_eq, option_map, IfSome, IfOk, List};
ghost use Rattle.std.specs.List.{list_any};
ghost use Rattle.toml.specs.Data.{get_member, as_bool};
ghost use Rattle.toml.specs.View.{view, table_view, items_view};
ghost use Rattle.rule_strategy.specs.Answers.{Gives};
ghost use Rattle.rule_strategy.specs.Securities.{symbols_of};
ghost use Rattle.rule_strategy.specs.Tables.{only, row, optional, array_row, table_of, text_row, none_row, text_if, length_of};
ghost use Rattle.rule_strategy.specs.Values as kind;
ghost use Rattle.rule_strategy.specs.declared.fault.PlanFault.TheVariants.{Unknown};

use crate::rule_texts::Verb;
use crate::text::ShortText;
use crate::{KeyText, PlanFault, Security, values};
use lean_fixed::{Resolution, Symbol};
use lean_orders::Kind;
use std::alloc::Global;
use toml::{Table, Value};

// The most bytes of the text of an expression.
const MOST_TEXT: usize = 1_000;

/// The value under a key.
pub(crate) fn value_at<'t>(table: &'t Table, key: &str) -> Option<&'t Value>
    ensures { option_map (λ v. view v.now) result ≡ get_member key.now (table_view table.now) }
{
    table.get(key)
}

/// The keys of a table are among these. The first by byte order that is none of them is unknown.
#[tactic(auto, unfolding(crate::specs::Tables::only))]
pub(crate) fn check_keys(alloc: Global, table: &Table, keys: &[&str]) -> Result<(), PlanFault>
    ensures { Gives (λ u. u) (only (map (λ k. k.now) keys.now) (table_view table.now)) result }
{
    for (key, _) in table {
        if !is_one_of(key, keys) {
            return unknown_key(alloc, key);
        }
    }
    Ok(())
}

fn is_one_of(key: &str, keys: &[&str]) -> bool
    ensures { result ≡ list_any (bytes_eq key.now) (map (λ k. k.now) keys.now) }
{
    for known in keys {
        if key == *known {
            return true;
        }
    }
    false
}

fn unknown_key(alloc: Global, key: &str) -> Result<(), PlanFault>
    ensures { Gives (λ u. u) (Err (Unknown key.now)) result }
{
    let key = KeyText::read(alloc, key)?;
    Err(PlanFault::Unknown(key))
}

/// A whole number from one number to another.
#[tactic(auto, unfolding(crate::specs::Tables::row))]
pub(crate) fn whole_at(
    table: &Table,
    key: &'static str,
    least: u64,
    most: u64,
    default: Option<u64>,
) -> Result<u64, PlanFault>
    requires default { IfSome default (λ n. (least ≤ n) × (n ≤ most)) }
    ensures value { Gives (λ n. n) (row key.now (kind.whole least most) default (table_view table.now)) result }
    ensures range { IfOk result (λ n. (least ≤ n) × (n ≤ most)) }
{
    match value_at(table, key) {
        None => default.ok_or(PlanFault::Missing(KeyText::known(key))),
        Some(value) => {
            values::whole(value, least, most).ok_or(PlanFault::Value(KeyText::known(key)))
        }
    }
}

/// An amount of so many units of 1/10000 dollar.
#[tactic(auto, unfolding(crate::specs::Tables::row))]
pub(crate) fn amount_at(
    table: &Table,
    key: &'static str,
    least: u128,
    most: u128,
    default: Option<u128>,
) -> Result<u128, PlanFault>
    requires default { IfSome default (λ n. (least ≤ n) × (n ≤ most)) }
    ensures value { Gives (λ n. n) (row key.now (kind.amount least most) default (table_view table.now)) result }
    ensures range { IfOk result (λ n. (least ≤ n) × (n ≤ most)) }
{
    match value_at(table, key) {
        None => default.ok_or(PlanFault::Missing(KeyText::known(key))),
        Some(value) => {
            values::amount(value, least, most).ok_or(PlanFault::Value(KeyText::known(key)))
        }
    }
}

/// A day on which a run may begin or end.
#[tactic(auto, unfolding(crate::specs::Tables::row))]
pub(crate) fn day_at(table: &Table, key: &'static str) -> Result<u32, PlanFault>
    ensures value { Gives (λ n. n) (row key.now kind.window_day None (table_view table.now)) result }
    ensures range { IfOk result (λ n. (1 ≤ n) × (n ≤ 84004)) }
{
    match value_at(table, key) {
        None => Err(PlanFault::Missing(KeyText::known(key))),
        Some(value) => values::window_day(value).ok_or(PlanFault::Value(KeyText::known(key))),
    }
}

/// True or false.
#[tactic(auto, unfolding(crate::specs::Tables::row))]
pub(crate) fn flag_at(table: &Table, key: &'static str, default: bool) -> Result<bool, PlanFault>
    ensures { Gives (λ b. b) (row key.now as_bool (Some default) (table_view table.now)) result }
{
    match value_at(table, key) {
        None => Ok(default),
        Some(value) => value.as_bool().ok_or(PlanFault::Value(KeyText::known(key))),
    }
}

/// A resolution.
#[tactic(auto, unfolding(crate::specs::Tables::row))]
pub(crate) fn resolution_at(table: &Table, key: &'static str) -> Result<Resolution, PlanFault>
    ensures { Gives (λ r. r) (row key.now kind.resolution None (table_view table.now)) result }
{
    match value_at(table, key) {
        None => Err(PlanFault::Missing(KeyText::known(key))),
        Some(value) => values::resolution(value).ok_or(PlanFault::Value(KeyText::known(key))),
    }
}

/// A kind of orders.
#[tactic(auto, unfolding(crate::specs::Tables::row))]
pub(crate) fn kind_at(table: &Table, key: &'static str) -> Result<Kind, PlanFault>
    ensures { Gives (λ k. k) (row key.now kind.kind None (table_view table.now)) result }
{
    match value_at(table, key) {
        None => Err(PlanFault::Missing(KeyText::known(key))),
        Some(value) => values::kind(value).ok_or(PlanFault::Value(KeyText::known(key))),
    }
}

/// What a rule does.
#[tactic(auto, unfolding(crate::specs::Tables::row))]
pub(crate) fn verb_at(table: &Table, key: &'static str) -> Result<Verb, PlanFault>
    ensures { Gives (λ v. v) (row key.now kind.verb None (table_view table.now)) result }
{
    match value_at(table, key) {
        None => Err(PlanFault::Missing(KeyText::known(key))),
        Some(value) => values::verb(value).ok_or(PlanFault::Value(KeyText::known(key))),
    }
}

/// A symbol that none of some securities has.
#[tactic(auto, unfolding(crate::specs::Tables::row))]
pub(crate) fn new_symbol_at(
    table: &Table,
    key: &'static str,
    earlier: &[Security],
) -> Result<Symbol, PlanFault>
    ensures { Gives (λ s. s)
        (row key.now (kind.new_symbol (symbols_of earlier.now)) None (table_view table.now)) result }
{
    match value_at(table, key) {
        None => Err(PlanFault::Missing(KeyText::known(key))),
        Some(value) => {
            values::new_symbol(value, earlier).ok_or(PlanFault::Value(KeyText::known(key)))
        }
    }
}

/// A symbol, where there is one.
#[tactic(auto, unfolding(crate::specs::Tables::optional))]
pub(crate) fn symbol_if(table: &Table, key: &'static str) -> Result<Option<Symbol>, PlanFault>
    ensures { Gives (λ s. s) (optional key.now kind.symbol (table_view table.now)) result }
{
    match value_at(table, key) {
        None => Ok(None),
        Some(value) => match values::symbol(value) {
            None => Err(PlanFault::Value(KeyText::known(key))),
            Some(symbol) => Ok(Some(symbol)),
        },
    }
}

/// A period of bars over those of a resolution, where there is one.
#[tactic(auto, unfolding(crate::specs::Tables::optional))]
pub(crate) fn period_if(
    table: &Table,
    key: &'static str,
    resolution: Resolution,
) -> Result<Option<u32>, PlanFault>
    ensures { Gives (λ p. p) (optional key.now (kind.period resolution) (table_view table.now)) result }
{
    match value_at(table, key) {
        None => Ok(None),
        Some(value) => match values::period(value, resolution) {
            None => Err(PlanFault::Value(KeyText::known(key))),
            Some(minutes) => Ok(Some(minutes)),
        },
    }
}

/// The values of an array of at most so many, which are none where there is no array.
#[tactic(auto, unfolding(crate::specs::Tables::array_row), using(crate::proofs::Lengths::length_of_view))]
pub(crate) fn array_at<'t>(
    table: &'t Table,
    key: &'static str,
    most: usize,
) -> Result<&'t [Value], PlanFault>
    ensures value { Gives (λ v. items_view v.now) (array_row key.now most (table_view table.now)) result }
    ensures few { IfOk result (λ v. length v.now ≤ most) }
{
    match value_at(table, key) {
        None => Ok(&[]),
        Some(value) => match value.as_array() {
            None => Err(PlanFault::Value(KeyText::known(key))),
            Some(items) => {
                if items.len() <= most {
                    Ok(items)
                } else {
                    Err(PlanFault::Limit(KeyText::known(key)))
                }
            }
        },
    }
}

/// A value that is a table, under a key or in the array of that key.
#[tactic(auto, unfolding(crate::specs::Tables::table_of))]
pub(crate) fn table_in<'t>(value: &'t Value, key: &'static str) -> Result<&'t Table, PlanFault>
    ensures { Gives (λ t. table_view t.now) (table_of key.now (view value.now)) result }
{
    match value.as_table() {
        None => Err(PlanFault::Value(KeyText::known(key))),
        Some(table) => Ok(table),
    }
}

/// The text of an expression.
#[tactic(auto, unfolding(crate::specs::Tables::text_row))]
pub(crate) fn text_at<'t>(table: &'t Table, key: &'static str) -> Result<ShortText<'t>, PlanFault>
    ensures { Gives (λ t. t) (text_row key.now (table_view table.now)) result }
{
    match value_at(table, key) {
        None => Err(PlanFault::Missing(KeyText::known(key))),
        Some(value) => match value.as_str() {
            None => Err(PlanFault::Value(KeyText::known(key))),
            Some(text) => {
                if text.len() <= MOST_TEXT {
                    Ok(ShortText::new(text))
                } else {
                    Err(PlanFault::Limit(KeyText::known(key)))
                }
            }
        },
    }
}

/// The text of an expression where a rule takes one under this key. Where it takes none, the key is unknown.
#[tactic(auto, unfolding(crate::specs::Tables::text_if, crate::specs::Tables::none_row))]
pub(crate) fn text_if<'t>(
    table: &'t Table,
    key: &'static str,
    taken: bool,
) -> Result<Option<ShortText<'t>>, PlanFault>
    ensures { Gives (λ t. t) (text_if taken key.now (table_view table.now)) result }
{
    if taken {
        let text = text_at(table, key)?;
        return Ok(Some(text));
    }
    match value_at(table, key) {
        None => Ok(None),
        Some(_) => Err(PlanFault::Unknown(KeyText::known(key))),
    }
}
