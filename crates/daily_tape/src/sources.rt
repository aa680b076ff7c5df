//! The securities of a tape, each with a hand of the folder.
ghost use Rattle.std.specs.Prelude.{◌≡◌, ◌+◌, ◌-◌, ◌≤◌, ◌<◌, [], Some, length, vec_capacity, IfOk, OnOk, OnErr};
ghost use Rattle.std.specs.List.{AllByRecursion, AllZip};
ghost use Rattle.lean_io.specs.Told.{Files, Rose};
ghost use Rattle.daily_tape.specs.DailyTape.{security, securities};
ghost use Rattle.daily_tape.specs.Endings.{HasFaulted};
ghost use Rattle.daily_tape.specs.Head.{StandsPast};
ghost use Rattle.daily_tape.specs.Source.{IsSound, Follows};
ghost use Rattle.daily_tape.specs.Steps.{AllPast};

use crate::path::daily_path;
use crate::source::Source;
use lean_fixed::{NoMemory, Symbol};
use lean_io::Folder;
use std::alloc::Global;

/// Opens the daily file of each security, each with a hand of its own.
pub fn open_sources<F: Folder>(
    alloc: Global,
    symbols: &[Symbol],
    folder: &mut F,
    sources: &mut Vec<Source<F::H>>,
) -> Result<(), NoMemory>
    requires empty { sources.old.items ≡ [] }
    requires room { length symbols.now ≤ vec_capacity sources.old }
    ensures told { OnOk result ((f : Files) → F.files folder.old ≡ Some f
        → AllZip (Follows F.H.files F.H.rest f 0) (securities f symbols.now) sources.new.items) }
    ensures sound { OnOk result (AllByRecursion (IsSound F.H.is_open F.H.faults) sources.new.items) }
    ensures past { OnOk result (AllPast 0 sources.new.items) }
    ensures counted { OnOk result (length sources.new.items ≡ length symbols.now) }
    ensures hands { F.hands folder.new ≡ F.hands folder.old + length sources.new.items }
    ensures kept { F.files folder.new ≡ F.files folder.old }
    ensures same { F.faults folder.new ≡ F.faults folder.old }
{
    for symbol in symbols {
        let source = open_source(alloc, symbol, folder)?;
        sources.push(source).unwrap();
    }
    Ok(())
}

// Opens the daily file of a security.
fn open_source<F: Folder>(
    alloc: Global,
    symbol: &Symbol,
    folder: &mut F,
) -> Result<Source<F::H>, NoMemory>
    ensures told { IfOk result (λ source. (f : Files) → F.files folder.old ≡ Some f
        → Follows F.H.files F.H.rest f 0 (security f symbol.now) source) }
    ensures sound { IfOk result (IsSound F.H.is_open F.H.faults) }
    ensures past { IfOk result (λ source. StandsPast 0 source.head) }
    ensures out { OnOk result (F.hands folder.new ≡ F.hands folder.old + 1) }
    ensures none { OnErr result (F.hands folder.new ≡ F.hands folder.old) }
    ensures kept { F.files folder.new ≡ F.files folder.old }
    ensures same { F.faults folder.new ≡ F.faults folder.old }
{
    let path = daily_path(alloc, symbol)?;
    let hand = folder.hand(alloc)?;
    Ok(Source::open(*symbol, hand, path.as_str()))
}

/// Gives the hands of the securities back to the folder.
pub fn give_back<F: Folder>(sources: Vec<Source<F::H>>, folder: &mut F)
    ensures rose { HasFaulted F.H.faults sources.items → Rose (F.faults folder.old) (F.faults folder.new) }
    ensures hands { F.hands folder.new ≡ F.hands folder.old - length sources.items }
    ensures kept { F.files folder.new ≡ F.files folder.old }
    ensures grows { F.faults folder.old ≤ F.faults folder.new }
{
    let mut left = sources;
    'sources: while let Some(source) = left.pop() {
        folder.take_back(source.into_hand());
    }
}
