//! The choice of the universe at a moment.
ghost use Rattle.std.specs.Prelude.{◌≡◌, ◌++◌, [], ◌∷◌, not, List, option_map, if◌then◌else◌, IfOk, IfSome, OnOk};
ghost use Rattle.std.specs.List.{IsDistinct};
ghost use Rattle.std.specs.Option.{option_to_list};
ghost use Rattle.universe_rules.specs.Passing.{is_same};
ghost use Rattle.universe_state.specs.Active.{is_same as is_same_symbol, is_active};
ghost use Rattle.backtest_core.specs.Inside.{row_in, rows_in, choice, choice_by};
ghost use Rattle.backtest_core.specs.Leaving.{actives_of, new_among};

use crate::watched::Watched;
use lean_fixed::{NoMemory, Symbol};
use lean_items::{Arrival, CoarseRow, Item};
use rule_strategy::UniversePlan;
use std::alloc::Global;
use universe_rules::laws::selected_symbols_differ;
use universe_rules::{UniverseRule, select};

/// The symbols that are selected at a moment, where a choice is due. They differ.
pub(crate) fn selected_in(
    alloc: Global,
    universe: &Option<UniversePlan>,
    slice: &[Arrival],
) -> Result<Option<Vec<Symbol>>, NoMemory>
    ensures chosen { IfOk result (λ symbols.
        option_map (λ v. v.items) symbols ≡ choice universe.now (rows_in slice.now)) }
    ensures distinct { IfOk result (λ symbols. IfSome symbols (λ v. IsDistinct is_same v.items)) }
{
    match universe {
        None => Ok(None),
        Some(universe) => select_rows(alloc, &universe.rule, slice),
    }
}

fn select_rows(
    alloc: Global,
    rule: &UniverseRule,
    slice: &[Arrival],
) -> Result<Option<Vec<Symbol>>, NoMemory>
    ensures chosen { IfOk result (λ symbols. option_map (λ v. v.items) symbols ≡ choice_by rule.now (rows_in slice.now)) }
    ensures distinct { IfOk result (λ symbols. IfSome symbols (λ v. IsDistinct is_same v.items)) }
{
    let mut rows = Vec::new(alloc);
    add_rows(slice, &mut rows)?;
    if rows.is_empty() {
        return Ok(None);
    }
    selected_symbols_differ();
    let symbols = select(alloc, &rows, rule)?;
    Ok(Some(symbols))
}

// The coarse rows of a slice.
fn add_rows(slice: &[Arrival], rows: &mut Vec<CoarseRow>) -> Result<(), NoMemory>
    ensures { OnOk result (rows.new.items ≡ rows.old.items ++ rows_in slice.now) }
{
    for arrival in slice {
        add_row(&arrival.item, rows)?;
    }
    Ok(())
}

fn add_row(item: &Item, rows: &mut Vec<CoarseRow>) -> Result<(), NoMemory>
    ensures { OnOk result (rows.new.items ≡ rows.old.items ++ option_to_list (row_in item.now)) }
{
    match item {
        Item::Coarse(_, row) => rows.push(*row)?,
        Item::Bar(_) => {}
        Item::Bad(_) => {}
        Item::Faulted => {}
        Item::End => {}
    }
    Ok(())
}

/// Appends the symbols among some that are not active.
pub(crate) fn add_new(
    watched: &[Watched],
    symbols: &[Symbol],
    out: &mut Vec<Symbol>,
) -> Result<(), NoMemory>
    ensures { OnOk result (out.new.items ≡ out.old.items ++ new_among watched.now symbols.now) }
{
    for symbol in symbols {
        add_if_new(watched, *symbol, out)?;
    }
    Ok(())
}

fn add_if_new(watched: &[Watched], symbol: Symbol, out: &mut Vec<Symbol>) -> Result<(), NoMemory>
    ensures { OnOk result (out.new.items
        ≡ out.old.items ++ (if not (is_active (actives_of watched.now) symbol) then symbol ∷ [] else [])) }
{
    if !is_active(watched, symbol) {
        out.push(symbol)?;
    }
    Ok(())
}

fn is_active(watched: &[Watched], symbol: Symbol) -> bool
    ensures { result ≡ is_active (actives_of watched.now) symbol }
{
    for security in watched {
        if is_of(security, symbol) {
            return true;
        }
    }
    false
}

fn is_of(security: &Watched, symbol: Symbol) -> bool
    ensures { result ≡ is_same_symbol symbol security.now.symbol }
{
    symbol == security.symbol
}
