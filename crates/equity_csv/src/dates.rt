//! The days of dates.

ghost use Rattle.lean_fixed.specs.Ranges.{IsDay};
ghost use Rattle.equity_csv.specs.Dates.{Spells};

use lean_fixed::Day;
use lean_fixed::laws::day_reads_back;

/// The last date that was read, and its day. Rows of several files that are read side by side often have the same date, whose
/// day is then known without a look at the calendar.
#[derive(Clone, Copy, Debug)]
pub struct Dates {
    digits: [u8; 8],
    day: Day,
    ghost spelled: { Spells digits day },
    ghost range: { IsDay day.0 },
}

impl Dates {
    ghost use Rattle.std.specs.Prelude.{◌≡◌, pos, option_map, IfSome};
    ghost use Rattle.lean_fixed.specs.Calendar.{day_of_digits};
    ghost use Rattle.lean_fixed.specs.Ranges.{IsDay};

    /// With the first day that there is.
    #[tactic(auto, unfolding(crate::specs::Dates::day_spelled))]
    pub fn new() -> Dates {
        day_reads_back();
        let day = Day(0);
        Dates {
            digits: day.digits(),
            day,
        }
    }

    /// The day that `yyyyMMdd` spells, as `Day::read` says it.
    #[tactic(auto, unfolding(crate::specs::Dates::day_spelled))]
    #[inline(always)]
    pub fn read(&mut self, digits: &[u8; 8]) -> Option<Day>
        ensures value { result ≡ option_map (λ n. record { 0 = pos n }) (day_of_digits digits.now) }
        ensures range { IfSome result (λ day. IsDay day.0) }
    {
        if *digits == self.digits {
            return Some(self.day);
        }
        self.read_other(digits)
    }

    // The day of another date, which is kept.
    #[tactic(auto, unfolding(crate::specs::Dates::day_spelled))]
    #[inline(never)]
    fn read_other(&mut self, digits: &[u8; 8]) -> Option<Day>
        ensures value { result ≡ option_map (λ n. record { 0 = pos n }) (day_of_digits digits.now) }
        ensures range { IfSome result (λ day. IsDay day.0) }
    {
        match Day::read(digits) {
            Some(day) => {
                *self = Dates {
                    digits: *digits,
                    day,
                };
                Some(day)
            }
            None => None,
        }
    }
}
