//! What is written behind the last moment.
ghost use Rattle.std.specs.Prelude.{◌≡◌, ◌≢◌, ◌⊎◌, ℕ, ◌≤◌, ◌++◌, [], List, Bool, Option, Err};
ghost use Rattle.lean_fixed.specs.Calendar.{last_day};
ghost use Rattle.lean_io.specs.Told.{Rose};
ghost use Rattle.lean_items.specs.declared.feed_key.FeedKey.{FeedKey as Key};
ghost use Rattle.lean_items.specs.declared.item.Item.{Item};
ghost use Rattle.lean_items.specs.Taken.{Feeds};
ghost use Rattle.clock_book.specs.Books.{Book as ClockBook};
ghost use Rattle.order_book.specs.Stands.{StandsFor};
ghost use Rattle.report_pages.specs.Lines.{data_line};
ghost use Rattle.backtest_engine.specs.Meaning.{Meaning, State};
ghost use Rattle.backtest_engine.specs.Reports.{limit_line};
ghost use Rattle.backtest_engine.specs.Walked.{IsEnd};
ghost use Rattle.backtest_engine.specs.Exact.{EndsAs};
ghost use Rattle.backtest_engine.specs.Reported.{IsReport, IsFault, IfWhole};
ghost use Rattle.backtest_engine.specs.Last.{IsWritten};

use crate::ended::Ended;
use crate::ending::{Cut, Ending};
use crate::limits::Limit;
use crate::strategy::Strategy;
use lean_fixed::NoMemory;
use lean_io::{Sink, WriteFault, write_whole};
use lean_items::{Bad, FeedKind};
use order_book::Book;
use report_pages::{Page, Stop, append_refusal, flush};
use std::alloc::Global;

// Writes what comes behind the last moment, and says how the run ended.
pub(crate) fn end<C: Strategy, S: Sink>(
    alloc: Global,
    core: &C,
    walked: Result<Ending, Cut>,
    book: &Book,
    out: &mut S,
) -> Ended
    ensures told { (m : Meaning C.Own) (lists : Key → List Item) (first last : ℕ) (s0 : State C.Own) (coarse : Bool) (now : Feeds) (b : ClockBook) (told0 : Option (List ℕ))
        → IsEnd m lists first last s0 coarse now (C.stands core.now m) b told0 (S.told out.old) walked
        → IfWhole walked (StandsFor book.now b)
        → IsReport m lists first last s0 coarse now told0 (S.told out.new) result }
    ensures ends { EndsAs walked result }
    ensures fault { result ≡ Ended.ReadFault → IsFault walked }
    ensures write { result ≡ Ended.WriteFault → (walked ≡ Err Cut.WriteFault) ⊎ Rose (S.faults out.old) (S.faults out.new) }
    ensures sink_grows { S.faults out.old ≤ S.faults out.new }
{
    match walked {
        Ok(ending) => match ending {
            Ending::Whole => print_summary(alloc, core, book, out),
            Ending::Refused(key, bad) => print_refusal(alloc, key.kind, &bad, out),
            Ending::Faulted => Ended::ReadFault,
        },
        Err(cut) => match cut {
            Cut::NoMemory => Ended::NoMemory,
            Cut::WriteFault => Ended::WriteFault,
            Cut::ReadFault => Ended::ReadFault,
            Cut::Limited(limit) => print_last(limit_text(limit), Ended::Limit, out),
        },
    }
}

// Writes the summary.
fn print_summary<C: Strategy, S: Sink>(alloc: Global, core: &C, book: &Book, out: &mut S) -> Ended
    ensures told { (m : Meaning C.Own) (s : State C.Own) → C.stands core.now m s [] → StandsFor book.now s.book
        → IsWritten (S.told out.old) (S.told out.new) (m.summary s) Ended.Done result }
    ensures ends { (result ≡ Ended.Done) ⊎ ((result ≡ Ended.NoMemory) ⊎ (result ≡ Ended.WriteFault)) }
    ensures write { result ≡ Ended.WriteFault → Rose (S.faults out.old) (S.faults out.new) }
    ensures sink_grows { S.faults out.old ≤ S.faults out.new }
{
    let mut text = Vec::new(alloc);
    match core.summary(book, &mut text) {
        Ok(()) => print_last(&text, Ended::Done, out),
        Err(NoMemory) => Ended::NoMemory,
    }
}

// Writes the line that names a malformed line.
fn print_refusal<S: Sink>(alloc: Global, kind: FeedKind, bad: &Bad, out: &mut S) -> Ended
    ensures told { bad.now.file ≤ last_day → IsWritten (S.told out.old) (S.told out.new) (data_line kind bad.now) Ended.BadRow result }
    ensures ends { (result ≡ Ended.BadRow) ⊎ ((result ≡ Ended.NoMemory) ⊎ (result ≡ Ended.WriteFault)) }
    ensures write { result ≡ Ended.WriteFault → Rose (S.faults out.old) (S.faults out.new) }
    ensures sink_grows { S.faults out.old ≤ S.faults out.new }
{
    match Page::new(alloc) {
        Ok(mut page) => match append_refusal(alloc, kind, bad, &mut page) {
            Ok(()) => print_page(&mut page, Ended::BadRow, out),
            Err(NoMemory) => Ended::NoMemory,
        },
        Err(NoMemory) => Ended::NoMemory,
    }
}

// Writes a page.
fn print_page<S: Sink>(page: &mut Page, ended: Ended, out: &mut S) -> Ended
    ensures told { IsWritten (S.told out.old) (S.told out.new) page.old ended result }
    ensures ends { (result ≡ ended) ⊎ ((result ≡ Ended.NoMemory) ⊎ (result ≡ Ended.WriteFault)) }
    ensures write { ended ≢ Ended.WriteFault → result ≡ Ended.WriteFault → Rose (S.faults out.old) (S.faults out.new) }
    ensures sink_grows { S.faults out.old ≤ S.faults out.new }
{
    match flush(page, out) {
        Ok(()) => ended,
        Err(Stop::NoMemory) => Ended::NoMemory,
        Err(Stop::WriteFault) => Ended::WriteFault,
    }
}

// Writes a text.
fn print_last<S: Sink>(text: &[u8], ended: Ended, out: &mut S) -> Ended
    ensures told { IsWritten (S.told out.old) (S.told out.new) text.now ended result }
    ensures ends { (result ≡ ended) ⊎ (result ≡ Ended.WriteFault) }
    ensures write { ended ≢ Ended.WriteFault → result ≡ Ended.WriteFault → Rose (S.faults out.old) (S.faults out.new) }
    ensures sink_grows { S.faults out.old ≤ S.faults out.new }
{
    match write_whole(out, text) {
        Ok(()) => ended,
        Err(WriteFault) => Ended::WriteFault,
    }
}

// The line of a limit.
fn limit_text(limit: Limit) -> &'static [u8]
    ensures { result.now ≡ limit_line limit }
{
    match limit {
        Limit::Securities => b"limit securities\n",
        Limit::Requests => b"limit requests\n",
    }
}
