//! What a line can say. Each law is the contract of a function that does nothing.

ghost use Rattle.std.specs.Prelude.{◌≡◌, ℕ, ◌%◌, ◌≤◌, List};
ghost use Rattle.lean_fixed.specs.Calendar.{last_day};
ghost use Rattle.lean_fixed.specs.declared.resolution.Resolution.{Resolution};
ghost use Rattle.equity_csv.specs.declared.row.Row.{Row};
ghost use Rattle.equity_csv.specs.Rows.{minute_row, dated_row};
ghost use Rattle.equity_csv.specs.Written.{IsRow, day_of_row, minute_of_row};

use lean_fixed::laws::day_prints_back;

/// The row of a line of a minute file is in range, and starts within the day of the file.
pub fn minute_row_is_valid()
    ensures row { (day : ℕ) (text : List ℕ) (row : Row) → day ≤ last_day
        → minute_row day text ≡ Ok row → IsRow row }
    ensures day { (day : ℕ) (text : List ℕ) (row : Row)
        → minute_row day text ≡ Ok row → day_of_row row ≡ day }
{}

/// The row of a line of an hour or daily file is in range, and starts at a whole hour; a daily row starts at 00:00.
pub fn dated_row_is_valid()
    ensures row { (resolution : Resolution) (text : List ℕ) (row : Row)
        → dated_row resolution text ≡ Ok row → IsRow row }
    ensures whole { (resolution : Resolution) (text : List ℕ) (row : Row)
        → dated_row resolution text ≡ Ok row → minute_of_row row % 60 ≡ 0 }
    ensures midnight { (text : List ℕ) (row : Row)
        → dated_row Resolution.Daily text ≡ Ok row → minute_of_row row ≡ 0 }
{
    day_prints_back();
}
