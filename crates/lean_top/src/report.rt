//! The command line from its words to its report.
ghost use Rattle.std.specs.Prelude.{◌≡◌, ◌≤◌, Some, None, map, length, string_bytes};
ghost use Rattle.lean_io.specs.Told.{Files, Rose};
ghost use Rattle.daily_tape.specs.DailyTape.{securities, tape};
ghost use Rattle.lean_top.specs.Asked.{asked_by, IsAsked};
ghost use Rattle.lean_top.specs.Command.{Asked, command};
ghost use Rattle.lean_top.specs.Outcome.{HasReported, HasUsage, NamesNoUsage, Went};
ghost use Rattle.lean_top.specs.Report.{report, report_of, daily_report_of, AreDaysOf, AreWholeSteps};

use crate::backtest::backtest;
use crate::demo::demo;
use crate::session::session_tape;
use crate::status::{Status, status_of};
use crate::words::{Command, read_words};
use daily_tape::laws::days_are_a_front;
use daily_tape::print_daily;
use lean_fixed::{NoMemory, Symbol};
use lean_io::{Folder, Sink, WriteFault, write_whole};
use std::alloc::Global;

/// Runs a command line.
pub fn run<F: Folder, S: Sink>(
    alloc: Global,
    words: &[String],
    folder: &mut F,
    out: &mut S,
) -> Status
    ensures reported { (f : Files) → F.files folder.old ≡ Some f
        → HasReported (report f (map string_bytes words.now)) (AreWholeSteps f (command (map string_bytes words.now)))
        (S.told out.old) (S.told out.new) result }
    ensures refused { command (map string_bytes words.now) ≡ None
        → HasUsage (S.told out.old) (S.told out.new) result }
    ensures taken { (asked : Asked)
        → command (map string_bytes words.now) ≡ Some asked → NamesNoUsage result }
    ensures went { Went F.files F.hands F.faults S.faults folder.old folder.new out.old out.new result }
{
    match read_words(alloc, words) {
        Ok(Some(command)) => run_command(alloc, &command, folder, out),
        Ok(None) => print_usage(out),
        Err(NoMemory) => Status::NoMemory,
    }
}

// Runs what the words ask for.
fn run_command<F: Folder, S: Sink>(
    alloc: Global,
    command: &Command,
    folder: &mut F,
    out: &mut S,
) -> Status
    requires { IsAsked command.now }
    ensures reported { (f : Files) → F.files folder.old ≡ Some f
        → HasReported (report_of f (Some (asked_by command.now))) (AreWholeSteps f (Some (asked_by command.now)))
        (S.told out.old) (S.told out.new) result }
    ensures taken { NamesNoUsage result }
    ensures went { Went F.files F.hands F.faults S.faults folder.old folder.new out.old out.new result }
{
    match command {
        Command::DailyTape(symbols) => daily_tape(alloc, symbols, folder, out),
        Command::SessionTape(resolution, window, symbols) => {
            session_tape(alloc, *resolution, *window, symbols, folder, out)
        }
        Command::Backtest(path, workers) => backtest(alloc, path.as_str(), *workers, folder, out),
        Command::Demo(number, workers) => demo(alloc, *number, *workers, out),
    }
}

// Prints the daily tape of the symbols.
fn daily_tape<F: Folder, S: Sink>(
    alloc: Global,
    symbols: &[Symbol],
    folder: &mut F,
    out: &mut S,
) -> Status
    requires { length symbols.now ≤ 64 }
    ensures reported { (f : Files) → F.files folder.old ≡ Some f
        → HasReported (daily_report_of (tape (securities f symbols.now))) (AreDaysOf (securities f symbols.now))
        (S.told out.old) (S.told out.new) result }
    ensures taken { NamesNoUsage result }
    ensures went { Went F.files F.hands F.faults S.faults folder.old folder.new out.old out.new result }
{
    days_are_a_front();
    let ended = print_daily(alloc, symbols, folder, out);
    status_of(ended)
}

fn print_usage<S: Sink>(out: &mut S) -> Status
    ensures printed { HasUsage (S.told out.old) (S.told out.new) result }
    ensures cause { result ≡ Status.WriteFault → Rose (S.faults out.old) (S.faults out.new) }
    ensures grows { S.faults out.old ≤ S.faults out.new }
{
    match write_whole(out, b"usage\n") {
        Ok(()) => Status::Usage,
        Err(WriteFault) => Status::WriteFault,
    }
}
