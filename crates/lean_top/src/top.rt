//! The top calls.
ghost use Rattle.std.specs.Prelude.{map, string_bytes};
ghost use Rattle.lean_top.specs.Ending.{HasRun};

use crate::report::run;
use crate::status::Status;
use lean_io::{Folder, Sink};
use std::alloc::Global;
use std::sync::Wait;
use std::thread::Threads;

/// Runs a command line over a folder and prints its report into the sink, without threads. It always returns.
///
/// The words are those behind the program's name: `tape` and 1 to 64 different symbols, for the daily tape; `tape`, a
/// resolution, two days and such symbols, for the session tape; `backtest` and a path, for the backtest of the algorithm file
/// there; or `demo` and a number of one to six digits, for its line and what follows the last close line of the backtest of
/// the folder that is made from it. A backtest and a demo take `--workers K` or `--workers=K` in front of the path or the
/// number or behind it, K from 0 to 64 in one or two digits. A demo reads nothing of the folder.
/// `Usage`: the words are others; the line is `usage`. `Algorithm`: the algorithm file, or else the hours file of a session tape
/// or a backtest, is missing, too large or refused; a line says why. `BadRow`: a line of a file is malformed; the lines of the
/// dates or moments before it were printed, and then the line that names it. `Limit`: a backtest has no room for one more
/// security or request; a line names the limit. `ReadFault`: a read failed; the lines of whole days or moments were printed.
/// `WriteFault`: a write failed, and the sink took a front of the report. `NoMemory`: memory that was asked for is not
/// there, and the sink took a front of the report.
pub fn lean_offline<F: Folder, S: Sink>(
    alloc: Global,
    words: &Vec<String>,
    folder: &mut F,
    out: &mut S,
) -> Status
    ensures { HasRun (map string_bytes words.now.items)
        (record { files = F.files folder.old; told = S.told out.old; folder = F.faults folder.old; sink = S.faults out.old })
        (record { files = F.files folder.new; told = S.told out.new; folder = F.faults folder.new; sink = S.faults out.new })
        result }
{
    run(alloc, words, folder, out)
}

/// The same with a runtime that can start threads and wait. So far it starts none.
pub fn lean_main<Rt: Threads + Wait + Copy + Send + Sync + 'static, F: Folder, S: Sink>(
    _rt: &Rt,
    alloc: Global,
    words: &Vec<String>,
    folder: &mut F,
    out: &mut S,
) -> Status
where
    F::H: 'static,
    ensures { HasRun (map string_bytes words.now.items)
        (record { files = F.files folder.old; told = S.told out.old; folder = F.faults folder.old; sink = S.faults out.old })
        (record { files = F.files folder.new; told = S.told out.new; folder = F.faults folder.new; sink = S.faults out.new })
        result }
{
    lean_offline(alloc, words, folder, out)
}
