//! The lines of the bars that end at a minute.
ghost use Rattle.std.specs.Prelude.{◌≡◌, ℕ, ◌+◌, ◌≤◌, pos, true, length, option_to_list, unsigned_abs, IfOk};
ghost use Rattle.std.specs.List.{All};
ghost use Rattle.lean_fixed.specs.Printed.{moment_text};
ghost use Rattle.lean_fixed.specs.Ranges.{last_printed_moment};
ghost use Rattle.frontier_sync.specs.Slices.{ends_at};
ghost use Rattle.report_pages.specs.Printed.{HasRoom, Prints};
ghost use Rattle.session_tape.specs.Session.{bar_trades, session_line, session_text};
ghost use Rattle.session_tape.specs.Shown.{shown_one, shown};

use lean_fixed::laws::moment_reads_back;
use lean_fixed::writing::put_moment;
use lean_fixed::{Moment, Symbol};
use lean_io::Sink;
use lean_items::{Arrival, Bar, Item};
use report_pages::{Page, Stop, Trades, print_row};

// Prints the bars among the items that end at a minute, and says how many there were.
pub(crate) fn print_slice<S: Sink>(
    at: u32,
    symbols: &[Symbol],
    slice: &[Arrival],
    page: &mut Page,
    out: &mut S,
) -> Result<u64, Stop>
    requires at { at ≤ last_printed_moment }
    requires ends { All (λ a. ends_at (pos at) a.item ≡ true) slice.now }
    requires room { HasRoom page.old }
    ensures counted { IfOk result (λ rows. rows ≡ length (shown symbols.now slice.now)) }
    ensures prints { Prints S.told S.faults out.old out.new page.old page.new
        (session_text (shown symbols.now slice.now)) result }
{
    let mut front = [0; 14];
    put_moment(Moment(at as i64), &mut front, 0);
    let mut rows: u64 = 0;
    'items: for place in 0..slice.len() {
        match print_one(&front, symbols, &slice[place], page, out) {
            Ok(printed) => rows += printed,
            Err(stop) => return Err(stop),
        }
    }
    Ok(rows)
}

// Prints a bar of a symbol's feed. All else is passed over.
fn print_one<S: Sink>(
    front: &[u8],
    symbols: &[Symbol],
    arrival: &Arrival,
    page: &mut Page,
    out: &mut S,
) -> Result<u64, Stop>
    requires front { (at : ℕ) × (front.now ≡ moment_text at) × (ends_at (pos at) arrival.now.item ≡ true) }
    requires room { HasRoom page.old }
    ensures counted { IfOk result
        (λ rows. rows ≡ length (option_to_list (shown_one symbols.now arrival.now))) }
    ensures few { IfOk result (λ rows. rows ≤ 1) }
    ensures prints { Prints S.told S.faults out.old out.new page.old page.new
        (session_text (option_to_list (shown_one symbols.now arrival.now))) result }
{
    match arrival.item {
        Item::Bar(bar) => match symbols.get(arrival.feed.0 as usize) {
            Some(symbol) => match print_bar(front, symbol, &bar, page, out) {
                Ok(()) => Ok(1),
                Err(stop) => Err(stop),
            },
            None => Ok(0),
        },
        Item::Coarse(_, _) => Ok(0),
        Item::Bad(_) => Ok(0),
        Item::Faulted => Ok(0),
        Item::End => Ok(0),
    }
}

// Prints a bar behind its end.
fn print_bar<S: Sink>(
    front: &[u8],
    symbol: &Symbol,
    bar: &Bar,
    page: &mut Page,
    out: &mut S,
) -> Result<(), Stop>
    requires front { front.now ≡ moment_text (unsigned_abs bar.now.end.0) }
    requires room { HasRoom page.old }
    ensures prints { Prints S.told S.faults out.old out.new page.old page.new
        (session_line (symbol.now, bar.now)) result }
{
    moment_reads_back();
    print_row(front, symbol, &trades_of(bar), page, out)
}

fn trades_of(bar: &Bar) -> Trades
    ensures { result ≡ bar_trades bar.now }
{
    Trades {
        opening: bar.opening,
        high: bar.high,
        low: bar.low,
        closing: bar.closing,
        volume: bar.volume,
    }
}
