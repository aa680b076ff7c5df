//! The part of a day in which the exchange is open.
use lean_fixed::Resolution;

/// From the minute at which a session opens to the minute at which it closes, both counted from 00:00 of the day.
#[derive(Clone, Copy)]
pub struct Span {
    pub opens: u16,
    pub closes: u16,
}

impl Span {
    ghost use Rattle.exchange_hours.specs.Spans.{IsSpan, IsNextEnd};

    /// The least end past `minute` of a bar that lies in these hours.
    pub(crate) fn end_past(self, resolution: Resolution, minute: u32) -> Option<u32>
        requires { IsSpan self }
        ensures { IsNextEnd self resolution minute result }
    {
        let closes = self.closes as u32;
        let from = minute.max(self.opens as u32);
        match resolution {
            Resolution::Minute => if from < closes { Some(from + 1) } else { None },
            Resolution::Hour => {
                let start = from / 60 * 60;
                if start < closes {
                    Some(start + 60)
                } else {
                    None
                }
            }
            Resolution::Daily => { if minute < closes { Some(closes) } else { None } }
        }
    }
}
