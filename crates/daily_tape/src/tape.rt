//! The daily tape from the files of a folder to its last line.
ghost use Rattle.std.specs.Prelude.{◌≡◌, ◌+◌, ◌≤◌, ◌++◌, List, ℕ, [], Some, length, vec_capacity, IfOk, OnErr, IfErr};
ghost use Rattle.std.specs.List.{AllByRecursion, AllZip};
ghost use Rattle.lean_io.specs.Told.{Files, Rose};
ghost use Rattle.report_pages.specs.Printed.{HasCause, HasRoom};
ghost use Rattle.daily_tape.specs.DailyTape.{Security, securities};
ghost use Rattle.daily_tape.specs.Endings.{HasStopped, IsLast, IsLastAt, HasFaulted, IsReport, IsReportFront};
ghost use Rattle.daily_tape.specs.Source.{IsSound, Follows};
ghost use Rattle.daily_tape.specs.Steps.{AllPast, Stops};

use crate::ending::Ending;
use crate::head::Head;
use crate::source::Source;
use crate::sources::{give_back, open_sources};
use crate::walk::print_rows;
use lean_fixed::{NoMemory, Resolution, Symbol};
use lean_io::{Folder, Hand, Sink};
use lean_items::{Bad, FeedKind};
use report_pages::{Ended, Page, Stop, append_end, append_refusal, flush};
use std::alloc::Global;

/// Prints the daily tape of some symbols, at most 64, over the files of a folder. Each file is read by a hand of its own,
/// and all hands are given back.
///
/// `Ended::BadRow`: a malformed line was named behind the rows of its day. `Ended::ReadFault`: a read failed, and the rows of
/// all days up to some one were printed. `Stop`: there is no memory, or a write failed; a front of the tape was printed.
pub fn print_daily<F: Folder, S: Sink>(
    alloc: Global,
    symbols: &[Symbol],
    folder: &mut F,
    out: &mut S,
) -> Result<Ended, Stop>
    requires { length symbols.now ≤ 64 }
    ensures told { IfOk result (λ ended. (f : Files) → F.files folder.old ≡ Some f
        → IsReport (securities f symbols.now) (S.told out.old) (S.told out.new) ended) }
    ensures front { OnErr result ((f : Files) → F.files folder.old ≡ Some f
        → IsReportFront (securities f symbols.now) (S.told out.old) (S.told out.new)) }
    ensures fault { IfOk result (λ ended. ended ≡ Ended.ReadFault
        → Rose (F.faults folder.old) (F.faults folder.new)) }
    ensures cause { IfErr result (HasCause (S.faults out.old) (S.faults out.new)) }
    ensures hands { F.hands folder.new ≡ F.hands folder.old }
    ensures kept { F.files folder.new ≡ F.files folder.old }
    ensures grows { F.faults folder.old ≤ F.faults folder.new }
    ensures sink_grows { S.faults out.old ≤ S.faults out.new }
{
    match Vec::with_capacity(alloc, symbols.len()) {
        Ok(mut sources) => {
            let ended = print_opened(alloc, symbols, folder, &mut sources, out);
            give_back(sources, folder);
            ended
        }
        Err(_) => Err(Stop::NoMemory),
    }
}

// Opens the daily file of each symbol, and prints the tape.
fn print_opened<F: Folder, S: Sink>(
    alloc: Global,
    symbols: &[Symbol],
    folder: &mut F,
    sources: &mut Vec<Source<F::H>>,
    out: &mut S,
) -> Result<Ended, Stop>
    requires empty { sources.old.items ≡ [] }
    requires room { length symbols.now ≤ vec_capacity sources.old }
    requires few { length symbols.now ≤ 64 }
    ensures told { IfOk result (λ ended. (f : Files) → F.files folder.old ≡ Some f
        → IsReport (securities f symbols.now) (S.told out.old) (S.told out.new) ended) }
    ensures front { OnErr result ((f : Files) → F.files folder.old ≡ Some f
        → IsReportFront (securities f symbols.now) (S.told out.old) (S.told out.new)) }
    ensures fault { IfOk result (λ ended. ended ≡ Ended.ReadFault → HasFaulted F.H.faults sources.new.items) }
    ensures cause { IfErr result (HasCause (S.faults out.old) (S.faults out.new)) }
    ensures hands { F.hands folder.new ≡ F.hands folder.old + length sources.new.items }
    ensures kept { F.files folder.new ≡ F.files folder.old }
    ensures same { F.faults folder.new ≡ F.faults folder.old }
    ensures grows { S.faults out.old ≤ S.faults out.new }
{
    match open_sources(alloc, symbols, folder, sources) {
        Ok(()) => print_tape(alloc, sources, out),
        Err(NoMemory) => Err(Stop::NoMemory),
    }
}

// Prints the tape of the securities that were opened.
fn print_tape<H: Hand, S: Sink>(
    alloc: Global,
    sources: &mut Vec<Source<H>>,
    out: &mut S,
) -> Result<Ended, Stop>
    requires sound { AllByRecursion (IsSound H.is_open H.faults) sources.old.items }
    requires past { AllPast 0 sources.old.items }
    requires few { length sources.old.items ≤ 64 }
    ensures told { IfOk result (λ ended. (f : Files) (all : List Security)
        → AllZip (Follows H.files H.rest f 0) all sources.old.items
        → IsReport all (S.told out.old) (S.told out.new) ended) }
    ensures front { OnErr result ((f : Files) (all : List Security)
        → AllZip (Follows H.files H.rest f 0) all sources.old.items
        → IsReportFront all (S.told out.old) (S.told out.new)) }
    ensures fault { IfOk result (λ ended. ended ≡ Ended.ReadFault → HasFaulted H.faults sources.new.items) }
    ensures same { length sources.new.items ≡ length sources.old.items }
    ensures cause { IfErr result (HasCause (S.faults out.old) (S.faults out.new)) }
    ensures grows { S.faults out.old ≤ S.faults out.new }
{
    let mut page = Page::new(alloc)?;
    let ending = print_rows(sources, &mut page, out)?;
    let ended = append_last(alloc, sources, ending, &mut page)?;
    flush(&mut page, out)?;
    Ok(ended)
}

// Appends what is printed behind the last row, and says how the tape ended.
fn append_last<H: Hand>(
    alloc: Global,
    sources: &[Source<H>],
    ending: Ending,
    page: &mut Page,
) -> Result<Ended, NoMemory>
    requires stopped { HasStopped sources.now ending }
    requires room { HasRoom page.old }
    requires sound { AllByRecursion (IsSound H.is_open H.faults) sources.now }
    ensures last { IfOk result (λ ended. (last : List ℕ)
        × (page.new ≡ page.old ++ last) × IsLast sources.now ending ended last) }
    ensures fault { IfOk result (λ ended. ended ≡ Ended.ReadFault → HasFaulted H.faults sources.now) }
{
    match ending {
        Ending::Whole(rows) => {
            append_end(rows, page);
            Ok(Ended::Done)
        }
        Ending::Stopped(place) => append_stop(alloc, &sources[place], page),
    }
}

// Names the malformed line that is the head of a security; of a failed read there is nothing to print.
fn append_stop<H: Hand>(
    alloc: Global,
    source: &Source<H>,
    page: &mut Page,
) -> Result<Ended, NoMemory>
    requires stops { Stops source.now.head }
    requires room { HasRoom page.old }
    ensures last { IfOk result (λ ended. (last : List ℕ)
        × (page.new ≡ page.old ++ last) × IsLastAt source.now.symbol source.now.head ended last) }
    ensures fault { IfOk result (λ ended. ended ≡ Ended.ReadFault → source.now.head ≡ Head.Faulted) }
{
    match source.head {
        Head::Bad(bad) => {
            append_refusal(alloc, daily(source.symbol), &in_only_file(&bad), page)?;
            Ok(Ended::BadRow)
        }
        Head::Faulted => Ok(Ended::ReadFault),
        Head::Row(_) => unreachable!(),
        Head::End => unreachable!(),
    }
}

// A malformed line of the only file of a security.
fn in_only_file(bad: &Bad) -> Bad
    ensures { result ≡ record bad.now { file = 0 } }
{
    Bad {
        file: 0,
        line: bad.line,
        reason: bad.reason,
    }
}

// What is read of a security of the daily tape.
fn daily(symbol: Symbol) -> FeedKind
    ensures { result ≡ FeedKind.Equity symbol Resolution.Daily }
{
    FeedKind::Equity(symbol, Resolution::Daily)
}
