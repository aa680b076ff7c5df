ghost use Rattle.std.specs.Prelude.{◌≡◌, ◌↔◌, true};
ghost use Rattle.clock_book.specs.Fitting.{IsFitting, IsPriceBar};

use lean_orders::{Command, PriceBar};

/// Whether a command may be submitted to a desk: its moment, and the numbers of a mark's bar, are in their ranges.
pub fn fits(command: &Command) -> bool
    ensures { (result ≡ true) ↔ IsFitting command.now }
{
    match command {
        Command::Mark(at, _, bar) => at.is_in_range() && is_priced(bar),
        Command::Match(at)
        | Command::Submit(at, _)
        | Command::Update(at, _, _)
        | Command::Cancel(at, _)
        | Command::Account(at) => at.is_in_range(),
    }
}

fn is_priced(bar: &PriceBar) -> bool
    ensures { (result ≡ true) ↔ IsPriceBar bar.now }
{
    bar.start.is_in_range()
        && bar.end.is_in_range()
        && bar.opening.is_in_range()
        && bar.high.is_in_range()
        && bar.low.is_in_range()
        && bar.closing.is_in_range()
        && bar.volume.is_volume()
}
