//! What is printed stands on a page first, and a full page goes to the sink.
ghost use Rattle.std.specs.Prelude.{◌≡◌, ◌≤◌, ◌++◌, [], length, IfOk, IfErr, OnOk, OnErr};
ghost use Rattle.lean_fixed.specs.Calendar.{last_day};
ghost use Rattle.report_pages.specs.Lines.{row_line, end_line, data_line};
ghost use Rattle.report_pages.specs.Printed.{IsPrinted, IsFront, HasCause, HasRoom, Prints};

use crate::line::{path_at, write_end, write_refusal, write_row};
use crate::trades::Trades;
use lean_fixed::{NoMemory, Symbol};
use lean_io::{Sink, WriteFault, write_whole};
use lean_items::{Bad, FeedKind};
use std::alloc::{AllocError, AllocFailed, Global};
use std::marker::Model;

/// Why what is printed ends before its end.
#[derive(Clone, Copy, Debug, PartialEq, Eq)]
pub enum Stop {
    NoMemory,
    WriteFault,
}

impl From<NoMemory> for Stop {
    ghost use Rattle.std.specs.Prelude.{◌≡◌};
    ghost use Rattle.report_pages.specs.declared.pages.Stop.TheVariants.{NoMemory};

    ghost from_gives = { λ _ stop. stop ≡ NoMemory };

    fn from(_: NoMemory) -> Self {
        Stop::NoMemory
    }
}

impl From<AllocError> for Stop {
    ghost use Rattle.std.specs.Prelude.{◌≡◌};
    ghost use Rattle.report_pages.specs.declared.pages.Stop.TheVariants.{NoMemory};

    ghost from_gives = { λ _ stop. stop ≡ NoMemory };

    fn from(_: AllocError) -> Self {
        Stop::NoMemory
    }
}

impl<T: Drop> From<AllocFailed<T>> for Stop {
    ghost use Rattle.std.specs.Prelude.{◌≡◌};
    ghost use Rattle.report_pages.specs.declared.pages.Stop.TheVariants.{NoMemory};

    ghost from_gives = { λ _ stop. stop ≡ NoMemory };

    fn from(_: AllocFailed<T>) -> Self {
        Stop::NoMemory
    }
}

/// How many bytes a page has before it goes to the sink.
const FULL: usize = 65_536;

/// The bytes of a page: behind those there is room for one more line.
const SIZE: usize = FULL + 512;

/// A page of a tape. A line is written where it stays, behind the bytes that count: a line that is written elsewhere and
/// copied costs more than to write it. Contracts see a page as the bytes that count.
#[derive(Drop)]
pub struct Page {
    bytes: Vec<u8>,
    // How many of the bytes count.
    place: usize,
}

impl Model for Page {
    ghost use Rattle.std.specs.Prelude.{◌≡◌, ℕ, ◌≤◌, List, length, take};

    ghost Value = { List ℕ };

    ghost view = { λ page. take page.place page.bytes.items };

    ghost invariant = { λ page. (length page.bytes.items ≡ 66048) × (page.place ≤ 66048) };
}

impl Page {
    /// An empty page.
    pub fn new(alloc: Global) -> Result<Page, NoMemory>
        ensures { IfOk result (λ page. page ≡ []) }
    {
        let bytes = vec![in alloc; 0; SIZE]?;
        Ok(Page { bytes, place: 0 })
    }

    // The bytes that count.
    fn written(&self) -> &[u8]
        ensures { result.now ≡ self.now }
    {
        &self.bytes[..self.place]
    }
}

/// Prints the line of a row behind its front, which is a day or a moment: it is written behind the page, and the page goes to
/// the sink where it is full.
pub fn print_row<S: Sink>(
    front: &[u8],
    symbol: &Symbol,
    trades: &Trades,
    page: &mut Page,
    out: &mut S,
) -> Result<(), Stop>
    requires front { length front.now ≤ 16 }
    requires room { HasRoom page.old }
    ensures { Prints S.told S.faults out.old out.new page.old page.new
        (row_line front.now symbol.now trades.now) result }
{
    append_row(front, symbol, trades, page);
    turn_page(page, out)
}

// Appends the line of a row.
fn append_row(front: &[u8], symbol: &Symbol, trades: &Trades, page: &mut Page)
    requires front { length front.now ≤ 16 }
    requires room { HasRoom page.old }
    ensures { page.new ≡ page.old ++ row_line front.now symbol.now trades.now }
{
    page.place = write_row(front, symbol, trades, &mut page.bytes, page.place);
}

/// Appends the line that counts the rows.
pub fn append_end(rows: u64, page: &mut Page)
    requires { HasRoom page.old }
    ensures { page.new ≡ page.old ++ end_line rows }
{
    page.place = write_end(rows, &mut page.bytes, page.place);
}

/// Appends the line that names a malformed line of a feed's file. The number of the file is its day, up to 84,005, or 0.
/// `NoMemory`: there is no memory for the path, and the page is as it was.
pub fn append_refusal(
    alloc: Global,
    kind: FeedKind,
    bad: &Bad,
    page: &mut Page,
) -> Result<(), NoMemory>
    requires { HasRoom page.old }
    ensures ok { OnOk result (bad.now.file ≤ last_day
        → page.new ≡ page.old ++ data_line kind bad.now) }
    ensures err { OnErr result (page.new ≡ page.old) }
{
    let path = path_at(alloc, kind, bad.file)?;
    page.place = write_refusal(path.as_bytes(), bad, &mut page.bytes, page.place);
    Ok(())
}

/// Writes what is on the page.
pub fn flush<S: Sink>(page: &mut Page, out: &mut S) -> Result<(), Stop>
    ensures ok { OnOk result (IsPrinted (S.told out.old) (S.told out.new) page.old [] []) }
    ensures empty { OnOk result (page.new ≡ []) }
    ensures front { OnErr result (IsFront (S.told out.old) (S.told out.new) page.old) }
    ensures cause { IfErr result (HasCause (S.faults out.old) (S.faults out.new)) }
    ensures grows { S.faults out.old ≤ S.faults out.new }
{
    match write_whole(out, page.written()) {
        Ok(()) => {
            page.place = 0;
            Ok(())
        }
        Err(WriteFault) => Err(Stop::WriteFault),
    }
}

// Writes the page where it is full.
fn turn_page<S: Sink>(page: &mut Page, out: &mut S) -> Result<(), Stop>
    ensures ok { OnOk result (IsPrinted (S.told out.old) (S.told out.new) page.old page.new []) }
    ensures room { OnOk result (HasRoom page.new) }
    ensures front { OnErr result (IsFront (S.told out.old) (S.told out.new) page.old) }
    ensures cause { IfErr result (HasCause (S.faults out.old) (S.faults out.new)) }
    ensures grows { S.faults out.old ≤ S.faults out.new }
{
    if page.place < FULL {
        return Ok(());
    }
    flush(page, out)
}
