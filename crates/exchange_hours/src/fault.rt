use std::alloc::{AllocError, AllocFailed};
use thiserror::Error;

/// Why an hours file was not read: its first fault, or want of memory. A file is gone through in this order: the JSON
/// text, the entry of the market, the weekdays from Sunday to Saturday with their segments one after the other, the
/// holidays, and the early closes by the byte order of the texts of their dates.
#[derive(Clone, Copy, Debug, Error)]
pub enum HoursFault {
    /// The bytes are no JSON text.
    #[error("the hours file is no JSON")]
    Json,
    /// There is no entry of the market of US equities that is an object.
    #[error("the hours file has no entry of the market")]
    NoEntry,
    /// A weekday is no list of segments with texts `start`, `end` and `state`, or a segment does not start before its end.
    #[error("a weekday has not its form")]
    DayForm,
    /// A segment starts or ends at no time of day.
    #[error("a segment has no time of day")]
    TimeForm,
    /// The holidays are no list of dates.
    #[error("the holidays are no list of dates")]
    Holiday,
    /// The early closes are no object from dates to times of day.
    #[error("the early closes are no object from dates to times of day")]
    EarlyClose,
    /// Memory that was asked for is not there.
    #[error("there is no memory")]
    NoMemory,
}

impl From<AllocError> for HoursFault {
    ghost use Rattle.std.specs.Prelude.{◌≡◌};
    ghost use Rattle.exchange_hours.specs.declared.fault.HoursFault.TheVariants.{NoMemory};

    ghost from_gives = { λ _ fault. fault ≡ NoMemory };

    fn from(_: AllocError) -> Self {
        HoursFault::NoMemory
    }
}

impl<T: Drop> From<AllocFailed<T>> for HoursFault {
    ghost use Rattle.std.specs.Prelude.{◌≡◌};
    ghost use Rattle.exchange_hours.specs.declared.fault.HoursFault.TheVariants.{NoMemory};

    ghost from_gives = { λ _ fault. fault ≡ NoMemory };

    fn from(_: AllocFailed<T>) -> Self {
        HoursFault::NoMemory
    }
}
