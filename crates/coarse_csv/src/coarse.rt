//! The reader of coarse universe files.

ghost use Rattle.std.specs.Prelude.{◌≡◌, ◌≤◌};
ghost use Rattle.lean_fixed.specs.Ranges.{most_price, most_volume};
ghost use Rattle.lean_items.specs.Coarse.{most_dollars};
ghost use Rattle.coarse_csv.specs.Rows.{row_of, coarse_row};

use crate::columns::columns_of;
use crate::numbers::{read_close, read_dollars, read_volume};
use lean_fixed::{Price, Shares, Symbol};
use lean_items::{CoarseRow, Reason};

/// What a line of a coarse universe file says. It has five or more fields: an identifier, which says nothing, the symbol, the
/// close in dollars, the volume, and the dollar volume, after LEAN's coarse universe data; further fields say nothing. A
/// close and a dollar volume are digits that may be followed by a point and digits. The close is read in 1/10000 dollar,
/// and digits after the fourth behind the point are cut; of the dollar volume the whole part is read.
///
/// Where the symbol is no `Symbol` the line is passed over: the answer is `Ok(None)`. The reason is the first of these:
/// `Fields` where there are fewer than five, `Price` where the close is of another form or over 10,000,000,000, and `Volume`
/// where the volume is no plain number of at most 10^15, or the dollar volume is of another form or over 10^15. A line that
/// is passed over has enough fields, and its numbers are not looked at.
pub fn read_coarse(text: &[u8]) -> Result<Option<CoarseRow>, Reason>
    ensures { result ≡ coarse_row text.now }
{
    let Some(columns) = columns_of(text) else {
        return Err(Reason::Fields);
    };
    let Some(symbol) = Symbol::read(columns.symbol) else {
        return Ok(None);
    };
    let Some(close) = read_close(columns.close) else {
        return Err(Reason::Price);
    };
    let Some(volume) = read_volume(columns.volume) else {
        return Err(Reason::Volume);
    };
    let Some(dollars) = read_dollars(columns.dollars) else {
        return Err(Reason::Volume);
    };
    Ok(Some(row_of(symbol, close, volume, dollars)))
}

fn row_of(symbol: Symbol, close: u64, volume: u64, dollars: u64) -> CoarseRow
    requires close { close ≤ most_price }
    requires volume { volume ≤ most_volume }
    requires dollars { dollars ≤ most_dollars }
    ensures { result ≡ row_of symbol close volume dollars }
{
    CoarseRow {
        symbol,
        close: Price(close as i64),
        volume: Shares(volume as i64),
        dollars: dollars as i64,
    }
}
