//! The session tape: the bars of minute, hour or daily files that are in session, by their ends and then in the order of the
//! words, behind the hours file.
ghost use Rattle.std.specs.Prelude.{◌≡◌, ◌≤◌, Some, length};
ghost use Rattle.std.specs.Arc.{arc_value};
ghost use Rattle.lean_io.specs.Told.{Files};
ghost use Rattle.session_tape.specs.Session.{session_sources, session};
ghost use Rattle.lean_top.specs.Asked.{IsInOrder};
ghost use Rattle.lean_top.specs.Command.{SessionTape};
ghost use Rattle.lean_top.specs.Outcome.{HasReported, NamesNoUsage, Went};
ghost use Rattle.lean_top.specs.Report.{report_of, session_report_of, AreWholeSteps, AreMinutesBy};

use crate::hours::{HoursRead, read_hours};
use crate::refusal::refuse_hours;
use crate::status::{Status, status_of};
use exchange_hours::Hours;
use exchange_hours::laws::sessions_lie;
use feed_pool::SerialPool;
use lean_fixed::{NoMemory, Resolution, Symbol, Window};
use lean_io::{Folder, Sink};
use session_tape::laws::minutes_are_a_front;
use session_tape::print_session;
use std::alloc::Global;
use std::sync::Arc;

/// Prints the session tape of the securities, or the line that refuses the hours file.
pub fn session_tape<F: Folder, S: Sink>(
    alloc: Global,
    resolution: Resolution,
    window: Window,
    symbols: &[Symbol],
    folder: &mut F,
    out: &mut S,
) -> Status
    requires few { length symbols.now ≤ 64 }
    requires window { IsInOrder window }
    ensures reported { (f : Files) → F.files folder.old ≡ Some f
        → HasReported (report_of f (Some (SessionTape resolution window symbols.now)))
        (AreWholeSteps f (Some (SessionTape resolution window symbols.now))) (S.told out.old) (S.told out.new) result }
    ensures taken { NamesNoUsage result }
    ensures went { Went F.files F.hands F.faults S.faults folder.old folder.new out.old out.new result }
{
    match read_hours(alloc, folder) {
        Ok(HoursRead::Read(hours)) => {
            tape_by(alloc, hours, resolution, window, symbols, folder, out)
        }
        Ok(HoursRead::Refused(word)) => refuse_hours(alloc, word, out),
        Ok(HoursRead::Faulted) => Status::ReadFault,
        Err(NoMemory) => Status::NoMemory,
    }
}

// Prints the tape by the hours of the exchange.
fn tape_by<F: Folder, S: Sink>(
    alloc: Global,
    hours: Hours,
    resolution: Resolution,
    window: Window,
    symbols: &[Symbol],
    folder: &mut F,
    out: &mut S,
) -> Status
    requires few { length symbols.now ≤ 64 }
    requires window { IsInOrder window }
    ensures reported { (f : Files) → F.files folder.old ≡ Some f
        → HasReported (session_report_of resolution (session (session_sources f hours resolution window symbols.now) window))
        (AreMinutesBy (session_sources f hours resolution window symbols.now) window)
        (S.told out.old) (S.told out.new) result }
    ensures taken { NamesNoUsage result }
    ensures went { Went F.files F.hands F.faults S.faults folder.old folder.new out.old out.new result }
{
    match Arc::new(alloc, hours) {
        Ok(hours) => tape_over(alloc, hours, resolution, window, symbols, folder, out),
        Err(_) => Status::NoMemory,
    }
}

// Prints the tape over the feeds of the folder's files.
fn tape_over<F: Folder, S: Sink>(
    alloc: Global,
    hours: Arc<Hours>,
    resolution: Resolution,
    window: Window,
    symbols: &[Symbol],
    folder: &mut F,
    out: &mut S,
) -> Status
    requires few { length symbols.now ≤ 64 }
    requires window { IsInOrder window }
    ensures reported { (f : Files) → F.files folder.old ≡ Some f
        → HasReported
        (session_report_of resolution (session (session_sources f (arc_value hours) resolution window symbols.now) window))
        (AreMinutesBy (session_sources f (arc_value hours) resolution window symbols.now) window)
        (S.told out.old) (S.told out.new) result }
    ensures taken { NamesNoUsage result }
    ensures went { Went F.files F.hands F.faults S.faults folder.old folder.new out.old out.new result }
{
    sessions_lie(&hours);
    minutes_are_a_front();
    match SerialPool::new(alloc, folder, window, hours) {
        Ok(mut pool) => {
            let ended = print_session(alloc, &mut pool, resolution, window, symbols, out);
            status_of(ended)
        }
        Err(NoMemory) => Status::NoMemory,
    }
}
