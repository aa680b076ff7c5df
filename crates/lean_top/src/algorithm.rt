//! The algorithm file of a backtest.
ghost use Rattle.std.specs.Prelude.{◌≡◌, ℕ, ◌≤◌, List, Option, Some, length, IfOk};
ghost use Rattle.lean_io.specs.Told.{Files};
ghost use Rattle.lean_io.specs.Whole.{IsReading, HasCause};
ghost use Rattle.lean_top.specs.AlgorithmRead.{most_algorithm};
ghost use Rattle.lean_top.specs.AlgorithmGiven.{GivesPlan, IsValid, HasPlanCause};

use crate::fault_text::{bytes_of, fault_words};
use crate::files::read_file;
use lean_fixed::NoMemory;
use lean_io::{Folder, Whole};
use rule_strategy::Plan;
use std::alloc::Global;

/// The most bytes of the algorithm file.
const MOST_BYTES: usize = 1_048_576;

/// What the algorithm file gave.
#[derive(Drop)]
pub enum AlgorithmRead {
    /// The plan.
    Read(Plan),
    /// The words with which a report refuses the file.
    Refused(Vec<u8>),
    /// A read failed.
    Faulted,
}

/// Reads the algorithm file at a path of a folder with a hand of its own, which is given back.
pub fn read_algorithm<F: Folder>(
    alloc: Global,
    folder: &mut F,
    path: &str,
) -> Result<AlgorithmRead, NoMemory>
    ensures told { IfOk result (λ read. (f : Files) → F.files folder.old ≡ Some f → GivesPlan (f path.now) read) }
    ensures valid { IfOk result IsValid }
    ensures cause { IfOk result (λ read. HasPlanCause (F.faults folder.old) (F.faults folder.new) read) }
    ensures kept { F.files folder.new ≡ F.files folder.old }
    ensures grows { F.faults folder.old ≤ F.faults folder.new }
    ensures hands { F.hands folder.new ≡ F.hands folder.old }
{
    match read_file(alloc, folder, path, MOST_BYTES) {
        Ok(whole) => algorithm_in(alloc, whole),
        Err(NoMemory) => Err(NoMemory),
    }
}

// The plan in what was read of the file.
fn algorithm_in(alloc: Global, whole: Whole) -> Result<AlgorithmRead, NoMemory>
    ensures told { IfOk result (λ read. (file : Option (List ℕ)) → IsReading file most_algorithm whole → GivesPlan file read) }
    ensures valid { IfOk result IsValid }
    ensures cause { IfOk result (λ read. (before now : ℕ) → HasCause before now whole → HasPlanCause before now read) }
{
    match whole {
        Whole::Text(text) => plan_of(alloc, &text),
        Whole::Missing => Ok(AlgorithmRead::Refused(bytes_of(alloc, b"missing file")?)),
        Whole::Large => Ok(AlgorithmRead::Refused(bytes_of(alloc, b"large")?)),
        Whole::Faulted => Ok(AlgorithmRead::Faulted),
    }
}

// The plan in the bytes of the file.
fn plan_of(alloc: Global, bytes: &[u8]) -> Result<AlgorithmRead, NoMemory>
    ensures told { IfOk result (λ read. length bytes.now ≤ most_algorithm → GivesPlan (Some bytes.now) read) }
    ensures valid { IfOk result IsValid }
    ensures cause { IfOk result (λ read. (before now : ℕ) → HasPlanCause before now read) }
{
    match Plan::read(alloc, bytes) {
        Ok(plan) => Ok(AlgorithmRead::Read(plan)),
        Err(fault) => match fault_words(alloc, &fault) {
            Ok(words) => Ok(AlgorithmRead::Refused(words)),
            Err(NoMemory) => Err(NoMemory),
        },
    }
}
