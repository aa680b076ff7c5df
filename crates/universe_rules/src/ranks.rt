ghost use Rattle.std.specs.Prelude.{◌≡◌, ◌++◌, ◌&&◌, [], ◌∷◌, map, IfOk, OnOk, if◌then◌else◌};
ghost use Rattle.universe_rules.specs.Passing.{passes, passing};
ghost use Rattle.universe_rules.specs.Ranks.{rank_of};

use crate::UniverseRule;
use crate::rule::passes;
use lean_fixed::{NoMemory, Symbol};
use lean_items::CoarseRow;
use std::alloc::Global;
use std::cmp::Reverse;
use std::collections::HashSet;

/// What orders a row: its dollars, which fall, and its symbol.
pub(crate) type Rank = (Reverse<i64>, Symbol);

// The ranks of the rows that pass, as the rows stand.
pub(crate) fn ranks_of(
    alloc: Global,
    rows: &[CoarseRow],
    rule: &UniverseRule,
) -> Result<Vec<Rank>, NoMemory>
    ensures { IfOk result (λ ranks. ranks.items ≡ map rank_of (passing rule.now rows.now)) }
{
    let mut seen = HashSet::new(alloc);
    let mut ranks = Vec::new(alloc);
    for row in rows {
        let first = seen.insert(row.symbol)?;
        add_rank(&mut ranks, first, rule, row)?;
    }
    Ok(ranks)
}

// Adds the rank of a row, where it is the first of its symbol and passes.
fn add_rank(
    ranks: &mut Vec<Rank>,
    first: bool,
    rule: &UniverseRule,
    row: &CoarseRow,
) -> Result<(), NoMemory>
    ensures { OnOk result (ranks.new.items
        ≡ ranks.old.items ++ (if first && passes rule.now row.now then rank_of row.now ∷ [] else [])) }
{
    if first && passes(rule, row) {
        ranks.push((Reverse(row.dollars), row.symbol))?;
    }
    Ok(())
}
