//! Where the daily file of a security lies.
ghost use Rattle.std.specs.Prelude.{◌≡◌, IfOk, string_bytes};
ghost use Rattle.daily_tape.specs.DailyFile.{daily_path};

use feed_paths::path_text;
use lean_fixed::{Moment, NoMemory, Resolution, Symbol};
use lean_items::{FeedKey, FeedKind};
use std::alloc::Global;

/// The path of a security's daily file, from the folder on.
pub fn daily_path(alloc: Global, symbol: &Symbol) -> Result<String, NoMemory>
    ensures { IfOk result (λ path. string_bytes path ≡ daily_path symbol.now) }
{
    let mut path = String::new(alloc);
    path_text(daily_key(*symbol), 0, &mut path)?;
    Ok(path)
}

// The key of the security's daily feed. Its path does not depend on where the feed starts.
fn daily_key(symbol: Symbol) -> FeedKey
    ensures { result.kind ≡ FeedKind.Equity symbol Resolution.Daily }
{
    FeedKey {
        kind: FeedKind::Equity(symbol, Resolution::Daily),
        start: Moment(0),
        fill: false,
    }
}
