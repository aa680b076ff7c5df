//! What holds of all sessions and of all bars of a grid. Each law is the contract of a function that does nothing.
ghost use Rattle.std.specs.Prelude.{◌≡◌, ℕ, ◌<◌, ◌≤◌, ◌+◌, Some, None, true, false};
ghost use Rattle.lean_fixed.specs.Calendar.{last_day};
ghost use Rattle.lean_fixed.specs.declared.resolution.Resolution.{Resolution};
ghost use Rattle.lean_fixed.specs.declared.resolution.Resolution.TheVariants.{Daily};
ghost use Rattle.lean_fixed.specs.Moments.{midnight};
ghost use Rattle.exchange_hours.specs.Entries.{Entries};
ghost use Rattle.exchange_hours.specs.Sessions.{session, LieInDays, end_of_days};
ghost use Rattle.exchange_hours.specs.Grid.{HasOneBarAtEnd, IsClosing, is_closing, IsGridEnd, is_grid_end, is_bar, in_session, close_of};

use crate::market_hours::Hours;

/// Each session lies in its day and opens before it closes.
pub fn sessions_lie(hours: &Hours)
    ensures { LieInDays hours.now }
{
    hours.sessions_lie();
}

/// There is no session past the last day.
pub fn sessions_end()
    ensures { (hours : Entries) (day : ℕ) → last_day < day → session hours day ≡ None }
{}

/// No two bars of a grid end at one moment, and the one that does starts at `bar_start`.
pub fn one_bar()
    ensures { (hours : Entries) (resolution : Resolution) → LieInDays hours
        → HasOneBarAtEnd hours resolution }
{}

/// The ends of the bars of a grid are the moments that pass the test `is_grid_end`, and they lie
/// past 1970-01-01 00:00 and up to 24:00 of the last day.
pub fn grid_ends()
    ensures tested { (hours : Entries) (resolution : Resolution) → LieInDays hours
        → (t : ℕ) → IsGridEnd hours resolution t → is_grid_end hours resolution t ≡ true }
    ensures told { (hours : Entries) (resolution : Resolution)
        → (t : ℕ) → is_grid_end hours resolution t ≡ true → IsGridEnd hours resolution t }
    ensures not_told { (hours : Entries) (resolution : Resolution)
        → (t : ℕ) → ¬ IsGridEnd hours resolution t → is_grid_end hours resolution t ≡ false }
    ensures lie { (hours : Entries) (resolution : Resolution) → LieInDays hours
        → (t : ℕ) → is_grid_end hours resolution t ≡ true → (0 < t) × (t ≤ end_of_days) }
{}

/// The closings of the sessions are the moments that pass the test `is_closing`, and the ends of
/// the daily bars. Each lies in its day, and they rise with the days.
pub fn closings()
    ensures tested { (hours : Entries) → LieInDays hours
        → (t : ℕ) → IsClosing hours t → is_closing hours t ≡ true }
    ensures told { (hours : Entries) (t : ℕ) → is_closing hours t ≡ true → IsClosing hours t }
    ensures not_told { (hours : Entries)
        → (t : ℕ) → ¬ IsClosing hours t → is_closing hours t ≡ false }
    ensures daily { (hours : Entries) → LieInDays hours
        → (t : ℕ) → is_closing hours t ≡ is_grid_end hours Daily t }
    ensures lie { (hours : Entries) → LieInDays hours
        → (day t : ℕ) → close_of hours day ≡ Some t
        → (midnight day < t) × (t ≤ midnight (day + 1)) }
    ensures rise { (hours : Entries) → LieInDays hours → (day later s t : ℕ) → day < later
        → close_of hours day ≡ Some s → close_of hours later ≡ Some t → s < t }
{}

/// Each daily bar is in session.
pub fn daily_bars()
    ensures { (hours : Entries) → LieInDays hours → (start end : ℕ)
        → is_bar hours Daily start end ≡ true → in_session hours start end ≡ true }
{}
