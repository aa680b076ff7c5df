//! Facts of the definitions, for the proofs of those who call them: each is the contract of a function that does nothing.
ghost use Rattle.std.specs.Prelude.{◌≡◌, ℕ, ◌^◌, ◌≤◌, ◌↔◌, IsTrue, true, ℤ, pos, List, length, Some, decimal};
ghost use Rattle.std.specs.List.{list_all};
ghost use Rattle.lean_fixed.specs.Digits.{is_digit, digits};
ghost use Rattle.lean_fixed.specs.Fields.{plain_number};
ghost use Rattle.lean_fixed.specs.Symbol.{is_symbol};
ghost use Rattle.lean_fixed.specs.Amount.{amount, most_amount};
ghost use Rattle.lean_fixed.specs.Calendar.{last_day, day_of_digits};
ghost use Rattle.lean_fixed.specs.Printed.{units_text, money_text, day_text, moment_text};
ghost use Rattle.lean_fixed.specs.Ranges.{IsWithin, is_within, last_printed_moment};
ghost use Rattle.lean_fixed.specs.ReadBack.{number_of_text, amount_of_text, moment_of_text};

use crate::{Money, Price, Symbol};

/// A symbol has 1 to 12 bytes, of those that symbols have.
pub fn symbol_is_short(symbol: Symbol)
    ensures form { IsTrue (is_symbol symbol) }
    ensures least { 1 ≤ length symbol }
    ensures most { length symbol ≤ 12 }
{}

/// The text of a day is eight digits, and they are read as that day.
pub fn day_reads_back()
    ensures eight { (day : ℕ) → length (day_text day) ≡ 8 }
    ensures digits { (day : ℕ) → list_all is_digit (day_text day) ≡ true }
    ensures same { (day : ℕ) → day ≤ last_day → day_of_digits (day_text day) ≡ Some day }
{}

/// Eight digits that are read as a day are the text of that day, and it is one of the days that there are.
pub fn day_prints_back()
    ensures same { (text : List ℕ) (day : ℕ) → day_of_digits text ≡ Some day → day_text day ≡ text }
    ensures range { (text : List ℕ) (day : ℕ) → day_of_digits text ≡ Some day → day ≤ last_day }
{}

/// The text of a moment is fourteen bytes, and that of one that may be printed is read as that moment.
pub fn moment_reads_back()
    ensures fourteen { (moment : ℕ) → length (moment_text moment) ≡ 14 }
    ensures same { (moment : ℕ) → moment ≤ last_printed_moment
        → moment_of_text (moment_text moment) ≡ Some moment }
{}

/// A text that is read as a moment is the text of that moment, and it is one that may be printed.
pub fn moment_prints_back()
    ensures same { (text : List ℕ) (moment : ℕ) → moment_of_text text ≡ Some moment
        → moment_text moment ≡ text }
    ensures range { (text : List ℕ) (moment : ℕ) → moment_of_text text ≡ Some moment
        → moment ≤ last_printed_moment }
{}

/// The text of an amount from 0 on is read as that amount.
pub fn amount_reads_back()
    ensures amount { (units : ℕ) → units ≤ most_amount → amount (units_text units) ≡ Some units }
    ensures plain { (units : ℕ) → units ≤ most_amount
        → amount_of_text (units_text units) ≡ Some units }
{}

/// A text of dollars without a leading zero, a point and four digits is the text of the amount that it is read as.
pub fn amount_prints_back()
    ensures { (text : List ℕ) (units : ℕ) → amount_of_text text ≡ Some units
        → units_text units ≡ text }
{}

/// Money from 0 on is printed without a sign.
pub fn money_has_no_sign()
    ensures { (units : ℕ) → money_text (pos units) ≡ units_text units }
{}

/// The text of a price has at most 21 bytes.
pub fn price_text_is_short(price: Price)
    ensures { length (money_text price.0) ≤ 21 }
{}

/// The text of money has at most 41 bytes.
pub fn money_text_is_short(money: Money)
    ensures { length (money_text money.0) ≤ 41 }
{}

/// The decimal digits of a number are read as that number, in a field of a data file too.
pub fn number_reads_back()
    ensures digits { (number : ℕ) → number ≤ 10 ^ 18 → digits (decimal number) ≡ Some number }
    ensures field { (number : ℕ) → number ≤ 10 ^ 18 → plain_number (decimal number) ≡ Some number }
    ensures plain { (number : ℕ) → number ≤ 10 ^ 18
        → number_of_text (decimal number) ≡ Some number }
{}

/// Digits without a leading zero are those of the number that they are read as.
pub fn number_prints_back()
    ensures { (text : List ℕ) (number : ℕ) → number_of_text text ≡ Some number
        → decimal number ≡ text }
{}

/// The test of a range is true exactly in the range.
pub fn tests_of_ranges_agree()
    ensures { (low high n : ℤ) → (is_within low high n ≡ true) ↔ IsWithin low high n }
{}
