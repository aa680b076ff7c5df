//! The definitions, computed on texts and days whose values are known.
ghost use Rattle.std.specs.Prelude.{◌≡◌, ◌+◌, codes, map, true, false, ◌∷◌, [], Some, None, Ok, Err, option_and_then};
ghost use Rattle.lean_fixed.specs.declared.resolution.Resolution.TheVariants.{Minute, Hour, Daily};
ghost use Rattle.lean_fixed.specs.Moments.{minutes_per_day, midnight};
ghost use Rattle.exchange_hours.specs.declared.fault.HoursFault.TheVariants.{NoEntry, Json};
ghost use Rattle.exchange_hours.specs.Times.{time_of, date_of, day_within};
ghost use Rattle.exchange_hours.specs.Sessions.{session, is_open};
ghost use Rattle.exchange_hours.specs.Grid.{is_grid_bar, is_grid_end, is_closing};
ghost use Rattle.exchange_hours.specs.HoursFile.{us_equities, hours_of};
ghost use Rattle.exchange_hours.specs.Worked.{usual_segment, november_hours, monday_file};

/// Times of day, 24:00 among them.
pub fn times()
    ensures opening { time_of (codes "09:30") ≡ Some 570 }
    ensures closing { time_of (codes "16:00:00") ≡ Some 960 }
    ensures midnight { time_of (codes "1.00:00:00") ≡ Some minutes_per_day }
    ensures past_midnight { time_of (codes "24:01") ≡ None }
    ensures seconds { time_of (codes "16:00:01") ≡ None }
    ensures one_digit { time_of (codes "9:30") ≡ None }
{}

/// Dates, of which those outside 1970 to 2199 have no day.
pub fn dates()
    ensures short { option_and_then day_within (date_of (codes "10/7/2013")) ≡ Some 15985 }
    ensures long { option_and_then day_within (date_of (codes "01/02/1970")) ≡ Some 1 }
    ensures early { date_of (codes "12/31/1969")
        ≡ Some (record { year = 1969; month = 12; day = 31 }) }
    ensures no_effect { day_within (record { year = 1969; month = 12; day = 31 }) ≡ None }
    ensures no_leap { date_of (codes "2/29/2100") ≡ None }
    ensures short_year { date_of (codes "10/7/13") ≡ None }
{}

/// Wednesday 2013-11-27, Thanksgiving, the short Friday after it, and Saturday.
pub fn sessions()
    ensures usual { session november_hours 16036
        ≡ Some (record { opens = midnight 16036 + 570; closes = midnight 16036 + 960 }) }
    ensures holiday { session november_hours 16037 ≡ None }
    ensures early_close { session november_hours 16038
        ≡ Some (record { opens = midnight 16038 + 570; closes = midnight 16038 + 780 }) }
    ensures weekend { session november_hours 16039 ≡ None }
    ensures openings { let friday = midnight 16038 in
        map (λ minute. is_open november_hours (friday + minute)) (569 ∷ 570 ∷ 779 ∷ 780 ∷ [])
        ≡ false ∷ true ∷ true ∷ false ∷ [] }
{}

/// The short Friday: the hour bar of 09:00 is in session, and that of 13:00 is not.
pub fn grid_bars()
    ensures minutes { let friday = midnight 16038 in
        map (λ start. is_grid_bar november_hours Minute (friday + start) (friday + start + 1))
        (569 ∷ 570 ∷ 779 ∷ 780 ∷ []) ≡ false ∷ true ∷ true ∷ false ∷ [] }
    ensures whole_hours { let friday = midnight 16038 in
        map (λ start. is_grid_bar november_hours Hour (friday + start) (friday + start + 60))
        (480 ∷ 540 ∷ 570 ∷ 720 ∷ 780 ∷ []) ≡ false ∷ true ∷ false ∷ true ∷ false ∷ [] }
    ensures day { let friday = midnight 16038 in
        map (λ end. is_grid_bar november_hours Daily friday (friday + end)) (779 ∷ 780 ∷ [])
        ≡ false ∷ true ∷ [] }
{}

/// The tests of the same day's moments.
pub fn grid_ends()
    ensures minutes { let friday = midnight 16038 in
        map (λ end. is_grid_end november_hours Minute (friday + end))
        (570 ∷ 571 ∷ 780 ∷ 781 ∷ []) ≡ false ∷ true ∷ true ∷ false ∷ [] }
    ensures whole_hours { let friday = midnight 16038 in
        map (λ end. is_grid_end november_hours Hour (friday + end))
        (540 ∷ 600 ∷ 630 ∷ 780 ∷ 840 ∷ []) ≡ false ∷ true ∷ false ∷ true ∷ false ∷ [] }
    ensures day { let friday = midnight 16038 in
        map (λ end. is_grid_end november_hours Daily (friday + end)) (0 ∷ 780 ∷ 960 ∷ [])
        ≡ false ∷ true ∷ false ∷ [] }
    ensures closing { let friday = midnight 16038 in
        map (λ t. is_closing november_hours (friday + t)) (570 ∷ 780 ∷ 960 ∷ [])
        ≡ false ∷ true ∷ false ∷ [] }
{}

/// No JSON, no entry, and a week of one Monday.
pub fn files()
    ensures no_json { hours_of us_equities (codes "{\"entries\": ") ≡ Err Json }
    ensures no_entry { hours_of us_equities (codes "{}") ≡ Err NoEntry }
    ensures monday { hours_of us_equities monday_file ≡ Ok (record {
      segments = usual_segment 1 ∷ [];
      holidays = 15992 ∷ [];
      early_closes = [];
    }) }
{}
