ghost use Rattle.std.specs.Prelude.{◌≡◌};
ghost use Rattle.lean_top.specs.Outcome.{tape_status, run_status, NamesNoUsage};
ghost use Rattle.lean_top.specs.Status.{code_of};

use backtest_engine::Ended as RunEnded;
use report_pages::{Ended, Stop};

/// How a command ended.
#[derive(Clone, Copy, Debug, PartialEq, Eq, Hash)]
pub enum Status {
    /// The report is whole.
    Done,
    /// The words are none that the program takes; the line is `usage`.
    Usage,
    /// The algorithm file or the hours file is missing, too large or refused.
    Algorithm,
    /// A data file is refused.
    BadRow,
    /// A read failed, and the folder's count of faults rose.
    ReadFault,
    /// A write failed, and the sink's count of faults rose.
    WriteFault,
    /// Memory that was asked for is not there.
    NoMemory,
    /// A limit of the run was reached.
    Limit,
}

impl Status {
    /// The number with which the program ends.
    pub fn code(self) -> u8
        ensures { result ≡ code_of self }
    {
        match self {
            Status::Done => 0,
            Status::Usage => 1,
            Status::Algorithm => 2,
            Status::BadRow => 3,
            Status::ReadFault => 4,
            Status::WriteFault => 5,
            Status::NoMemory => 6,
            Status::Limit => 7,
        }
    }
}

// The status of a tape, by how it ended.
pub(crate) fn status_of(ended: Result<Ended, Stop>) -> Status
    ensures { result ≡ tape_status ended }
{
    match ended {
        Ok(Ended::Done) => Status::Done,
        Ok(Ended::BadRow) => Status::BadRow,
        Ok(Ended::ReadFault) => Status::ReadFault,
        Err(Stop::NoMemory) => Status::NoMemory,
        Err(Stop::WriteFault) => Status::WriteFault,
    }
}

// The status of a backtest, by how its run ended.
pub(crate) fn run_status_of(ended: RunEnded) -> Status
    ensures status { result ≡ run_status ended }
    ensures taken { NamesNoUsage result }
{
    match ended {
        RunEnded::Done => Status::Done,
        RunEnded::BadRow => Status::BadRow,
        RunEnded::ReadFault => Status::ReadFault,
        RunEnded::WriteFault => Status::WriteFault,
        RunEnded::NoMemory => Status::NoMemory,
        RunEnded::Limit => Status::Limit,
    }
}
