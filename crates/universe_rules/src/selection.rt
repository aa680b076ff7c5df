ghost use Rattle.std.specs.Prelude.{◌≡◌, map, take, IfOk};
ghost use Rattle.universe_rules.specs.Ranks.{in_order};
ghost use Rattle.universe_rules.specs.Selected.{selected, symbol_of};

use crate::UniverseRule;
use crate::ranks::{Rank, ranks_of};
use lean_fixed::{NoMemory, Symbol};
use lean_items::CoarseRow;
use std::alloc::Global;

/// The symbols that a rule selects from the coarse rows of one moment, which stand in the order of their file. Only the
/// first row of each symbol counts. The rows that reach the minima are ordered by falling dollars, and then by the bytes
/// of the symbol; the first `top` are selected.
pub fn select(
    alloc: Global,
    rows: &[CoarseRow],
    rule: &UniverseRule,
) -> Result<Vec<Symbol>, NoMemory>
    ensures { IfOk result (λ symbols. symbols.items ≡ selected rows.now rule.now) }
{
    let mut ranks = ranks_of(alloc, rows, rule)?;
    sort_ranks(&mut ranks);
    first_symbols(alloc, &ranks, rule.top as usize)
}

fn sort_ranks(ranks: &mut Vec<Rank>)
    ensures { ranks.new.items ≡ in_order ranks.old.items }
{
    ranks.sort_unstable();
}

fn first_symbols(alloc: Global, ranks: &[Rank], top: usize) -> Result<Vec<Symbol>, NoMemory>
    ensures { IfOk result (λ symbols. symbols.items ≡ take top (map symbol_of ranks.now)) }
{
    let symbols = ranks.iter().map(|rank| rank.1);
    Ok(symbols.take(top).collect(alloc)?)
}
