//! The hours file of a folder.
ghost use Rattle.std.specs.Prelude.{◌≡◌, ℕ, ◌≤◌, List, Option, Some, length, IfOk};
ghost use Rattle.lean_io.specs.Told.{Files};
ghost use Rattle.lean_io.specs.Whole.{IsReading, HasCause};
ghost use Rattle.lean_top.specs.HoursRead.{hours_path, most_hours};
ghost use Rattle.lean_top.specs.HoursGiven.{GivesHours, HasHoursCause, IsWordOf};

use crate::files::read_file;
use exchange_hours::{Hours, HoursFault};
use lean_fixed::NoMemory;
use lean_io::{Folder, Whole};
use std::alloc::Global;

/// Where the hours file lies, from the folder on.
const HOURS_PATH: &str = "market-hours/market-hours-database.json";

/// The most bytes of the hours file.
const MOST_BYTES: usize = 33_554_432;

/// What the hours file gave.
#[derive(Drop)]
pub enum HoursRead {
    /// The hours.
    Read(Hours),
    /// The words with which a report refuses the file.
    Refused(&'static str),
    /// A read failed.
    Faulted,
}

/// Reads the hours file of a folder with a hand of its own, which is given back.
pub fn read_hours<F: Folder>(alloc: Global, folder: &mut F) -> Result<HoursRead, NoMemory>
    ensures told { IfOk result (λ read. (f : Files) → F.files folder.old ≡ Some f → GivesHours (f hours_path) read) }
    ensures cause { IfOk result (λ read. HasHoursCause (F.faults folder.old) (F.faults folder.new) read) }
    ensures kept { F.files folder.new ≡ F.files folder.old }
    ensures grows { F.faults folder.old ≤ F.faults folder.new }
    ensures hands { F.hands folder.new ≡ F.hands folder.old }
{
    match read_file(alloc, folder, HOURS_PATH, MOST_BYTES) {
        Ok(whole) => hours_in(alloc, whole),
        Err(NoMemory) => Err(NoMemory),
    }
}

// The hours in what was read of the file.
fn hours_in(alloc: Global, whole: Whole) -> Result<HoursRead, NoMemory>
    ensures told { IfOk result (λ read. (file : Option (List ℕ)) → IsReading file most_hours whole → GivesHours file read) }
    ensures cause { IfOk result (λ read. (before now : ℕ) → HasCause before now whole → HasHoursCause before now read) }
{
    match whole {
        Whole::Text(text) => hours_of(alloc, &text),
        Whole::Missing => Ok(HoursRead::Refused("missing file")),
        Whole::Large => Ok(HoursRead::Refused("large")),
        Whole::Faulted => Ok(HoursRead::Faulted),
    }
}

// The hours in the bytes of the file.
fn hours_of(alloc: Global, bytes: &[u8]) -> Result<HoursRead, NoMemory>
    ensures told { IfOk result (λ read. length bytes.now ≤ most_hours → GivesHours (Some bytes.now) read) }
    ensures cause { IfOk result (λ read. (before now : ℕ) → HasHoursCause before now read) }
{
    match Hours::read(alloc, bytes) {
        Ok(hours) => Ok(HoursRead::Read(hours)),
        Err(fault) => match word_of(fault) {
            Ok(word) => Ok(HoursRead::Refused(word)),
            Err(NoMemory) => Err(NoMemory),
        },
    }
}

// The word that a report gives for a fault of the file.
fn word_of(fault: HoursFault) -> Result<&'static str, NoMemory>
    ensures { IfOk result (λ word. IsWordOf fault word.now) }
{
    match fault {
        HoursFault::Json => Ok("json"),
        HoursFault::NoEntry => Ok("no-entry"),
        HoursFault::DayForm => Ok("day-form"),
        HoursFault::TimeForm => Ok("time-form"),
        HoursFault::Holiday => Ok("holiday"),
        HoursFault::EarlyClose => Ok("early-close"),
        HoursFault::NoMemory => Err(NoMemory),
    }
}
