//! The definitions, computed on values that are known.
ghost use Rattle.std.specs.Prelude.{◌≡◌, ◌+◌, ◌*◌, pos, neg_ℤ, codes, true, false, [], ◌∷◌, Some, None};
ghost use Rattle.lean_fixed.specs.Amount.{amount};
ghost use Rattle.lean_fixed.specs.Calendar.{last_day, day_of_digits, weekday};
ghost use Rattle.lean_fixed.specs.Digits.{digits};
ghost use Rattle.lean_fixed.specs.Fields.{fields, plain_number};
ghost use Rattle.lean_fixed.specs.Moments.{minutes_per_day, midnight, day_of, minute_of_day, first_moment, last_moment};
ghost use Rattle.lean_fixed.specs.Printed.{day_text, moment_text, money_text};
ghost use Rattle.lean_fixed.specs.Ranges.{most_price, most_fill_price, most_volume, most_quantity, most_position, most_fee, most_starting_cash, last_printed_moment};
ghost use Rattle.lean_fixed.specs.ReadBack.{number_of_text, amount_of_text, moment_of_text};
ghost use Rattle.lean_fixed.specs.Symbol.{is_symbol};

use crate::ranges::{
    LAST_DAY, LAST_PRINTED_MOMENT, MINUTES_PER_DAY, MOST_FEE, MOST_FILL_PRICE, MOST_POSITION,
    MOST_PRICE, MOST_QUANTITY, MOST_STARTING_CASH, MOST_VOLUME,
};

fn worked_numbers()
    ensures zeros { digits (codes "007") ≡ Some 7 }
    ensures most { digits (codes "1000000000000000000") ≡ Some 1000000000000000000 }
    ensures over { digits (codes "1000000000000000001") ≡ None }
    ensures empty { digits (codes "") ≡ None }
    ensures plain { plain_number (codes "34200000.00") ≡ Some 34200000 }
    ensures no_plain { plain_number (codes "1.5") ≡ None }
    ensures dollars { amount (codes "1000000") ≡ Some 10000000000 }
    ensures cents { amount (codes "0.005") ≡ Some 50 }
    ensures no_amount { amount (codes "1.") ≡ None }
    ensures symbol { is_symbol (codes "BRK.B") ≡ true }
    ensures no_symbol { is_symbol (codes ".B") ≡ false }
    ensures fields { fields (codes "1,,2") ≡ codes "1" ∷ [] ∷ codes "2" ∷ [] }
{}

fn worked_days()
    ensures monday { day_of_digits (codes "20131007") ≡ Some 15985 }
    ensures last { day_of_digits (codes "21991231") ≡ Some last_day }
    ensures leap { day_of_digits (codes "20000229") ≡ Some 11016 }
    ensures no_leap { day_of_digits (codes "21000229") ≡ None }
    ensures weekday { weekday 15985 ≡ 1 }
{}

// A window of two days, from 2013-10-07 to 2013-10-08.
fn worked_moments()
    ensures day { day_of 23018970 ≡ 15985 }
    ensures minute { minute_of_day 23018970 ≡ 9 * 60 + 30 }
    ensures first { first_moment
        (record { first = record { 0 = pos 15985 }; last = record { 0 = pos 15986 } }) ≡ 23018400 }
    ensures last { last_moment
        (record { first = record { 0 = pos 15985 }; last = record { 0 = pos 15986 } }) ≡ 23021280 }
    ensures printed { last_printed_moment ≡ midnight (last_day + 2) }
{}

fn worked_texts()
    ensures first { day_text 0 ≡ codes "19700101" }
    ensures leap { day_text 789 ≡ codes "19720229" }
    ensures end { moment_text 120968640 ≡ codes "22000101 00:00" }
    ensures opening { moment_text 23018970 ≡ codes "20131007 09:30" }
    ensures price { money_text (pos 1672000) ≡ codes "167.2000" }
    ensures loss { money_text (neg_ℤ (pos 1)) ≡ codes "-0.0001" }
{}

fn worked_readings()
    ensures number { number_of_text (codes "100") ≡ Some 100 }
    ensures zero { number_of_text (codes "0") ≡ Some 0 }
    ensures no_number { number_of_text (codes "0100") ≡ None }
    ensures price { amount_of_text (codes "167.2000") ≡ Some 1672000 }
    ensures no_price { amount_of_text (codes "167.2") ≡ None }
    ensures opening { moment_of_text (codes "20131007 09:30") ≡ Some 23018970 }
    ensures end { moment_of_text (codes "22000102 00:00") ≡ Some last_printed_moment }
    ensures past { moment_of_text (codes "22000102 00:01") ≡ None }
    ensures no_minute { moment_of_text (codes "20131007 24:00") ≡ None }
{}

// The constants of the code are the numbers of the definitions.
fn worked_ranges()
    ensures day { LAST_DAY ≡ pos last_day }
    ensures minutes { MINUTES_PER_DAY ≡ minutes_per_day }
    ensures price { MOST_PRICE ≡ pos most_price }
    ensures fill_price { MOST_FILL_PRICE ≡ pos most_fill_price }
    ensures volume { MOST_VOLUME ≡ pos most_volume }
    ensures quantity { MOST_QUANTITY ≡ pos most_quantity }
    ensures position { MOST_POSITION ≡ pos most_position }
    ensures fee { MOST_FEE ≡ pos most_fee }
    ensures cash { MOST_STARTING_CASH ≡ pos most_starting_cash }
    ensures printed { LAST_PRINTED_MOMENT ≡ pos last_printed_moment }
{}
