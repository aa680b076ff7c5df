//! The files that are read whole, before a report begins.
ghost use Rattle.std.specs.Prelude.{◌≡◌, ◌≤◌, Some, IfOk};
ghost use Rattle.lean_io.specs.Told.{Files};
ghost use Rattle.lean_io.specs.Whole.{IsReading, HasCause};

use lean_fixed::NoMemory;
use lean_io::{Folder, Whole, read_whole};
use std::alloc::Global;

/// Reads a file of at most `most` bytes with a hand of its own, which is given back.
pub fn read_file<F: Folder>(
    alloc: Global,
    folder: &mut F,
    path: &str,
    most: usize,
) -> Result<Whole, NoMemory>
    ensures told { IfOk result (λ whole. (f : Files) → F.files folder.old ≡ Some f → IsReading (f path.now) most whole) }
    ensures cause { IfOk result (λ whole. HasCause (F.faults folder.old) (F.faults folder.new) whole) }
    ensures kept { F.files folder.new ≡ F.files folder.old }
    ensures grows { F.faults folder.old ≤ F.faults folder.new }
    ensures hands { F.hands folder.new ≡ F.hands folder.old }
{
    let mut hand = folder.hand(alloc)?;
    let whole = read_whole(alloc, &mut hand, path, most);
    folder.take_back(hand);
    whole
}
